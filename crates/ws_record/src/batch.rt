// Batches of events.
ghost use Rattle.std.specs.Prelude.{◌≡◌, ◌≤◌, ◌<◌, ◌+◌, ◌-◌, ◌^◌, ◌++◌, ◌∷◌, [], ℕ, List, min, length, take, All, OnOk, IfOk, IfSome, IfNone, IsSomeAnd};
ghost use Rattle.std.specs.List.{flat_map};
ghost use Rattle.ws_model.specs.declared.event.Event.{Event};
ghost use Rattle.ws_record.specs.Text.{capped};
ghost use Rattle.ws_record.specs.Batch.{event_text, EventFits, AreEvents, batch_text, IsBatch};
ghost use Rattle.ws_record.specs.Reading.{Reads, Apart};

use crate::field::{ReadField, WriteField};
use std::alloc::Global;
use ws_model::{Bytes, Event, NoMemory, What};

/// The times of events are below this.
const TIME_END: u64 = 1 << 48;

fn write_event(event: &Event, out: &mut Vec<u8>) -> Result<(), NoMemory>
    requires time { event.now.t < 2 ^ 48 }
    requires short { length (event_text event.now) < 2 ^ 32 }
    ensures written { OnOk result (out.new.items ≡ out.old.items ++ event_text event.now) }
    ensures fits { OnOk result (EventFits event.now) }
{
    (&event.serial, (&event.t, &event.what)).write(out)
}

fn add_event_len(event: &Event, sum: u64) -> u64
    ensures { (n : ℕ) → sum ≡ capped n → result ≡ capped (n + length (event_text event.now)) }
{
    (&event.serial, (&event.t, &event.what)).add_len(sum)
}

fn read_event(alloc: Global, bytes: &[u8]) -> Result<Option<(Event, &[u8])>, NoMemory>
    ensures { Reads (λ p. (p.0, p.1.now)) event_text EventFits bytes.now result }
{
    let Some(((serial, (t, what)), rest)) = <(u64, (u64, What))>::read(alloc, bytes)? else {
        return Ok(None);
    };
    if t >= TIME_END {
        return Ok(None);
    }
    Ok(Some((Event { serial, t, what }, rest)))
}

fn read_events(
    alloc: Global,
    count: u32,
    bytes: &[u8],
) -> Result<Option<(Vec<Event>, &[u8])>, NoMemory>
    ensures { Reads (λ p. (p.0.items, p.1.now)) (flat_map event_text) (AreEvents count) bytes.now result }
{
    let mut events = Vec::new(alloc);
    let mut rest = bytes;
    for _ in 0..count {
        let Some((event, after)) = read_event(alloc, rest)? else {
            return Ok(None);
        };
        events.push(event)?;
        rest = after;
    }
    Ok(Some((events, rest)))
}

fn read_front(alloc: Global, bytes: &[u8]) -> Result<Option<(Vec<Event>, &[u8])>, NoMemory>
    ensures { Reads (λ p. (p.0.items, p.1.now)) batch_text IsBatch bytes.now result }
{
    let Some((count, rest)) = u32::read(alloc, bytes)? else {
        return Ok(None);
    };
    if count == 0 {
        return Ok(None);
    }
    read_events(alloc, count, rest)
}

/// The length in bytes of the text of these events, without writing it; 2^64 - 1 where it is longer.
pub fn batch_len(events: &[Event]) -> u64
    ensures { result ≡ min (length (batch_text events.now)) (2 ^ 64 - 1) }
{
    let mut sum = 4;
    for event in events {
        sum = add_event_len(event, sum);
    }
    sum
}

/// The text of a batch of these events.
///
/// There is at least one, each time is below 2^48 seconds, and the text is shorter than 2^32 bytes:
/// [`batch_len`] tells its length.
pub fn write_batch(alloc: Global, events: &[Event]) -> Result<Bytes, NoMemory>
    requires some { 0 < length events.now }
    requires times { All (λ e. e.t < 2 ^ 48) events.now }
    requires short { length (batch_text events.now) < 2 ^ 32 }
    ensures text { IfOk result (λ text. text ≡ batch_text events.now) }
    // What is written is read again.
    ensures batch { OnOk result (IsBatch events.now) }
{
    let mut out = Vec::new(alloc);
    let count = events.len() as u32;
    count.write(&mut out)?;
    for event in events {
        write_event(event, &mut out)?;
    }
    Ok(Bytes::from_vec(out))
}

/// The events of the batch whose text begins the bytes, and the length of that text in bytes. None
/// where no batch's text does. What follows the text isn't looked at.
pub fn read_batch(alloc: Global, bytes: &[u8]) -> Result<Option<(Vec<Event>, u64)>, NoMemory>
    // What is read is a batch, and the bytes begin with its text.
    ensures found { IfOk result (λ o. IfSome o (λ p.
        IsBatch p.0.items × (take p.1 bytes.now ≡ batch_text p.0.items))) }
    // The batch whose text begins the bytes is read, with the length of its text.
    ensures only { (es : List Event) (rest : List ℕ) → IsBatch es → bytes.now ≡ batch_text es ++ rest
        → IfOk result (λ o. IsSomeAnd o (λ p. (p.0.items ≡ es) × (p.1 ≡ length (batch_text es)))) }
    // None comes only where no batch's text begins the bytes.
    ensures none { IfOk result (λ o. IfNone o
        ((es : List Event) (rest : List ℕ) → IsBatch es → bytes.now ≡ batch_text es ++ rest → ⊥)) }
{
    let Some((events, rest)) = read_front(alloc, bytes)? else {
        return Ok(None);
    };
    let used = bytes.len() - rest.len();
    Ok(Some((events, used as u64)))
}

/// No batch's text begins another's, and no two batches have one text.
pub fn batches_apart()
    ensures { Apart batch_text IsBatch }
{}
