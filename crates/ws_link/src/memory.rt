// Sources and sinks in memory, for tests: they fail at the calls whose numbers, from 0, a list names.
ghost use Rattle.std.specs.Prelude.{◌≡◌, ◌≤◌, ◌<◌, ◌||◌, ◌+◌, [], length, take, min, not, nat_lt, is_ok, IfOk, OnErr, vec_len, vec_capacity};
ghost use Rattle.std.specs.Io.KnownBytes.{Consumes, Appends, IsAtEnd};
ghost use Rattle.ws_model.specs.Cause.{HasCause};
ghost use Rattle.ws_link.specs.Pieces.{piece_size};

use crate::{ReadFailed, Sink, Source, WriteFailed};
use std::alloc::Global;
use ws_model::NoMemory;

/// Bytes in memory, given in pieces.
#[derive(Drop)]
pub struct MemSource {
    content: Vec<u8>,
    at: usize,
    pieces: Vec<u32>,
    failing: Vec<u64>,
    calls: u64,
    faults: u64,
    ghost in_range: { at ≤ vec_len content },
}

impl MemSource {
    ghost use Rattle.ws_link.specs.Memory.{source_left, source_pieces, source_failing, source_calls, source_faults};

    /// Gives these bytes in pieces of at most these sizes, a size of 0 being 1, and where that list
    /// has ended all that fits. The calls of the numbers in `failing` fail.
    pub fn made(
        alloc: Global,
        bytes: &[u8],
        pieces: &[u32],
        failing: &[u64],
    ) -> Result<MemSource, NoMemory>
        ensures left { IfOk result (λ s. source_left s ≡ bytes.now) }
        ensures pieces { IfOk result (λ s. source_pieces s ≡ pieces.now) }
        ensures failing { IfOk result (λ s. source_failing s ≡ failing.now) }
        ensures calls { IfOk result (λ s. source_calls s ≡ 0) }
        ensures faults { IfOk result (λ s. source_faults s ≡ 0) }
    {
        Ok(MemSource {
            content: bytes.to_vec(alloc)?,
            at: 0,
            pieces: pieces.to_vec(alloc)?,
            failing: failing.to_vec(alloc)?,
            calls: 0,
            faults: 0,
        })
    }
}

/// The most that the call of this number gives.
pub fn piece_size(pieces: &[u32], call: u64) -> usize
    ensures size { result ≡ piece_size pieces.now call }
    ensures some { 0 < result }
{
    match pieces.get(call as usize) {
        Some(size) => (*size).max(1) as usize,
        None => usize::MAX,
    }
}

/// Puts as much as fits of the bytes, and at most that many.
pub fn fill(into: &mut [u8], rest: &[u8], most: usize) -> usize
    ensures size { result ≡ min (min (length into.old) (length rest.now)) most }
    ensures bytes { take result into.new ≡ take result rest.now }
{
    let n = into.len().min(rest.len()).min(most);
    into[..n].copy_from_slice(&rest[..n]);
    n
}

impl Source for MemSource {
    ghost use Rattle.std.specs.Prelude.{Some};
    ghost use Rattle.ws_link.specs.Memory.{source_left, source_pieces, source_calls, source_faults, source_fails};

    ghost left = { λ s. Some (source_left s) };

    ghost faults = { λ s. source_faults s };

    fn take(&mut self, into: &mut [u8]) -> Result<usize, ReadFailed>
        ensures count { IfOk result (λ n. n ≤ length into.old) }
        ensures taken { IfOk result (λ n. Consumes (Some (source_left self.old)) (Some (source_left self.new)) (take n into.new)) }
        ensures end { IfOk result (λ n. n ≡ 0 → 0 < length into.old → source_left self.old ≡ []) }
        ensures err { OnErr result (Some (source_left self.new) ≡ Some (source_left self.old)) }
        ensures cause { HasCause (source_faults self.old) (source_faults self.new) result }

        ensures size { IfOk result (λ n. n ≡ min (min (length into.old) (length (source_left self.old)))
            (piece_size (source_pieces self.old) (source_calls self.old))) }
        ensures fails { is_ok result ≡ not (source_fails self.old) }
    {
        let call = self.calls;
        self.calls = self.calls.saturating_add(1);
        if self.failing.contains(&call) {
            self.faults = self.faults.saturating_add(1);
            return Err(ReadFailed);
        }
        let size = piece_size(&self.pieces, call);
        let n = fill(into, &self.content[self.at..], size);
        self.at += n;
        Ok(n)
    }
}

/// A room in memory that bytes are put into.
#[derive(Drop)]
pub struct MemSink {
    content: Vec<u8>,
    room: usize,
    failing: Vec<u64>,
    calls: u64,
    faults: u64,
    ghost has_room: { room ≤ vec_capacity content },
    ghost in_room: { vec_len content ≤ room },
}

impl MemSink {
    ghost use Rattle.ws_link.specs.Memory.{sink_written, sink_room, sink_failing, sink_calls, sink_faults, sink_refuses};

    /// A sink with room for that many bytes, all taken now. The calls of the numbers in `failing`
    /// fail, and so does each with a piece that doesn't fit.
    pub fn made(alloc: Global, room: u64, failing: &[u64]) -> Result<MemSink, NoMemory>
        ensures written { IfOk result (λ s. sink_written s ≡ []) }
        ensures room { IfOk result (λ s. sink_room s ≡ room) }
        ensures failing { IfOk result (λ s. sink_failing s ≡ failing.now) }
        ensures calls { IfOk result (λ s. sink_calls s ≡ 0) }
        ensures faults { IfOk result (λ s. sink_faults s ≡ 0) }
    {
        let room = room as usize;
        Ok(MemSink {
            content: Vec::with_capacity(alloc, room)?,
            room,
            failing: failing.to_vec(alloc)?,
            calls: 0,
            faults: 0,
        })
    }

    /// What was put into it.
    pub fn written(&self) -> &[u8]
        ensures { result.now ≡ sink_written self.now }
    {
        &self.content
    }

    fn is_too_long(&self, bytes: &[u8]) -> bool
        ensures { result ≡ nat_lt (sink_room self.now) (length (sink_written self.now) + length bytes.now) }
    {
        bytes.len() > self.room.saturating_sub(self.content.len())
    }

    // Whether the next call fails.
    fn refuses(&self, bytes: &[u8]) -> bool
        ensures { result ≡ sink_refuses self.now (length bytes.now) }
    {
        self.failing.contains(&self.calls) || self.is_too_long(bytes)
    }
}

impl Sink for MemSink {
    ghost use Rattle.std.specs.Prelude.{Some};
    ghost use Rattle.ws_link.specs.Memory.{sink_written, sink_faults, sink_refuses};

    ghost written = { λ s. Some (sink_written s) };

    ghost faults = { λ s. sink_faults s };

    fn give(&mut self, bytes: &[u8]) -> Result<usize, WriteFailed>
        ensures count { IfOk result (λ n. n ≤ length bytes.now) }
        ensures some { IfOk result (λ n. 0 < length bytes.now → 0 < n) }
        ensures given { IfOk result (λ n. Appends (Some (sink_written self.old)) (Some (sink_written self.new)) (take n bytes.now)) }
        ensures err { OnErr result (Some (sink_written self.new) ≡ Some (sink_written self.old)) }
        ensures cause { HasCause (sink_faults self.old) (sink_faults self.new) result }

        ensures all { IfOk result (λ n. n ≡ length bytes.now) }
        ensures fails { is_ok result ≡ not (sink_refuses self.old (length bytes.now)) }
    {
        let refused = self.refuses(bytes);
        self.calls = self.calls.saturating_add(1);
        if refused {
            self.faults = self.faults.saturating_add(1);
            return Err(WriteFailed);
        }
        match self.content.extend_from_slice(bytes) {
            Ok(()) => Ok(bytes.len()),
            // There is room, so this doesn't happen.
            Err(_) => unreachable!(),
        }
    }
}
