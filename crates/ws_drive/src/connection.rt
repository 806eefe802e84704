// One connection whose bytes stand in memory.
ghost use Rattle.std.specs.Prelude.{◌≡◌, ◌≤◌, ◌<◌, ◌++◌, [], Some, IfOk, OnErr, false, length, take, true};
ghost use Rattle.std.specs.Io.KnownBytes.{Consumes, Appends};
ghost use Rattle.ws_model.specs.Cause.{HasCause};
ghost use Rattle.ws_model.specs.Key.{is_key};
ghost use Rattle.ws_drive.specs.World.{World, Connects, connection_text, is_over};
ghost use Rattle.ws_drive.specs.Standing.{IsWorld};

use itoa::Buffer;
use std::alloc::Global;
use ws_front::{Served, serve_connection};
use ws_link::{ReadFailed, Sink, Source, WriteFailed};
use ws_model::{Bytes, NoMemory, Settings};
use ws_port::Port;

/// What a peer sends: bytes in memory, and then the end.
#[derive(Drop)]
pub struct Sent<'a> {
    left: &'a [u8],
}

impl Source for Sent<'_> {
    ghost left = { λ s. Some s.left.now };

    ghost faults = { λ _. 0 };

    fn take(&mut self, into: &mut [u8]) -> Result<usize, ReadFailed>
        ensures count { IfOk result (λ n. n ≤ length into.old) }
        ensures taken { IfOk result (λ n. Consumes (Some self.old.left.now) (Some self.new.left.now) (take n into.new)) }
        ensures end { IfOk result (λ n. n ≡ 0 → 0 < length into.old → self.old.left.now ≡ []) }
        ensures err { OnErr result (Some self.new.left.now ≡ Some self.old.left.now) }
        ensures cause { HasCause 0 0 result }
    {
        let n = into.len().min(self.left.len());
        into[..n].copy_from_slice(&self.left[..n]);
        self.left = &self.left[n..];
        Ok(n)
    }
}

/// What was written to a peer. It only fails where there is no memory.
#[derive(Drop)]
pub struct Written {
    bytes: Vec<u8>,
    faults: u64,
}

impl Sink for Written {
    ghost written = { λ s. Some s.bytes.items };

    ghost faults = { λ s. s.faults };

    fn give(&mut self, bytes: &[u8]) -> Result<usize, WriteFailed>
        ensures count { IfOk result (λ n. n ≤ length bytes.now) }
        ensures some { IfOk result (λ n. 0 < length bytes.now → 0 < n) }
        ensures given { IfOk result (λ n. Appends (Some self.old.bytes.items) (Some self.new.bytes.items) (take n bytes.now)) }
        ensures err { OnErr result (Some self.new.bytes.items ≡ Some self.old.bytes.items) }
        ensures cause { HasCause self.old.faults self.new.faults result }
    {
        match self.bytes.extend_from_slice(bytes) {
            Ok(()) => Ok(bytes.len()),
            Err(_) => {
                self.faults = self.faults.saturating_add(1);
                Err(WriteFailed)
            }
        }
    }
}

// Whether the connection was answered, or ended before.
fn is_over(served: Served) -> bool
    ensures { result ≡ is_over served }
{
    match served {
        Served::Answered { .. } | Served::Empty | Served::Cut => true,
        Served::ReadFault | Served::WriteFault | Served::NoMemory => false,
    }
}

// The bytes that were written to a connection, and before them how many.
fn connection_text(alloc: Global, out: &[u8]) -> Result<Bytes, NoMemory>
    ensures { IfOk result (λ text. text ≡ connection_text out.now) }
{
    let mut text = Vec::new(alloc);
    text.extend_from_slice(b"out ")?;
    text.extend_from_slice(Buffer::new().format(out.len() as u64).as_bytes())?;
    text.extend_from_slice(b"\n")?;
    text.extend_from_slice(out)?;
    text.extend_from_slice(b"\n")?;
    Ok(Bytes::from_vec(text))
}

/// Serves a connection with these bytes and then the end, at the clock's value in seconds, and gives what is written for it.
pub fn connect<P: Port>(
    alloc: Global,
    settings: &Settings,
    port: &mut P,
    clock: u64,
    bytes: &[u8],
) -> Result<Bytes, NoMemory>
    requires sole { P.sole ≡ true }
    requires unstored { P.stored ≡ false }
    requires hub { is_key settings.now.policy.hub ≡ true }
    requires settings { P.settings port.old ≡ settings.now }
    ensures connects { (w : World) → IsWorld P.seen P.settings P.moment clock port.old w
        → IfOk result (λ text. (w' : World) × Connects w bytes.now text w' × IsWorld P.seen P.settings P.moment clock port.new w') }
    ensures settings { P.settings port.new ≡ P.settings port.old }
{
    let mut source = Sent { left: bytes };
    let mut sink = Written {
        bytes: Vec::new(alloc),
        faults: 0,
    };
    let served = serve_connection(alloc, port, settings, &mut source, &mut sink, clock);
    if !is_over(served) {
        return Err(NoMemory);
    }
    connection_text(alloc, &sink.bytes)
}
