// The record of a disk in memory: every call that was made, and the bytes of the writes.
ghost use Rattle.std.specs.Prelude.{◌≡◌, ◌+◌, ◌<◌, ◌≤◌, ◌↔◌, [], ◌∷◌, IsTrue, IfOk, length, vec_capacity};
ghost use Rattle.ws_disk.specs.Record.{count_of, count_all, step_of};

use crate::content::append;
use std::alloc::Global;
use ws_model::NoMemory;

/// A call that was made.
#[derive(Clone, Copy, Debug)]
pub(crate) enum Call {
    /// A write of that many bytes. The bytes stand in the record's own list.
    Wrote { at: u64, count: usize },
    Cut { size: u64 },
    Synced,
    /// A call that changed nothing: a look at the size or the bytes, or a call that failed.
    Idle,
}

/// Calls in the order in which they were made. All its memory is taken when it is made.
#[derive(Drop)]
pub(crate) struct CallLog {
    pub(crate) calls: Vec<Call>,
    /// The bytes of the writes, one write after the other.
    pub(crate) written: Vec<u8>,
    /// How many calls it can hold.
    pub(crate) most: usize,
    /// How many bytes it can hold.
    pub(crate) room: usize,
    ghost counted: { count_all calls.items ≡ length written.items },
    ghost calls_within: { length calls.items ≤ most },
    ghost calls_fit: { most ≤ vec_capacity calls },
    ghost bytes_within: { length written.items ≤ room },
    ghost bytes_fit: { room ≤ vec_capacity written },
}

impl CallLog {
    ghost use Rattle.ws_disk.specs.Memory.{log_steps};

    /// A record with room for so many bytes and so many calls.
    pub(crate) fn made(alloc: Global, room: usize, most: usize) -> Result<CallLog, NoMemory>
        ensures empty { IfOk result (λ log. log_steps log ≡ []) }
        ensures most { IfOk result (λ log. log.most ≡ most) }
        ensures room { IfOk result (λ log. log.room ≡ room) }
        ensures calls { IfOk result (λ log. length log.calls.items ≡ 0) }
        ensures written { IfOk result (λ log. length log.written.items ≡ 0) }
    {
        Ok(CallLog {
            calls: Vec::with_capacity(alloc, most)?,
            written: Vec::with_capacity(alloc, room)?,
            most,
            room,
        })
    }

    /// Whether no further call fits.
    pub(crate) fn is_full(&self) -> bool
        ensures { IsTrue result ↔ (self.now.most ≤ length self.now.calls.items) }
    {
        self.calls.len() >= self.most
    }

    /// Adds a call with its bytes.
    pub(crate) fn note(&mut self, call: Call, bytes: &[u8])
        requires free { length self.old.calls.items < self.old.most }
        requires fits { length self.old.written.items + length bytes.now ≤ self.old.room }
        requires count { count_of call ≡ length bytes.now }
        ensures steps { log_steps self.new ≡ step_of call bytes.now ∷ log_steps self.old }
        ensures most { self.new.most ≡ self.old.most }
        ensures room { self.new.room ≡ self.old.room }
        ensures calls { length self.new.calls.items ≡ length self.old.calls.items + 1 }
        ensures written { length self.new.written.items ≡ length self.old.written.items + length bytes.now }
    {
        append(&mut self.written, bytes);
        self.calls.push_reserved(call);
    }
}
