// The records of a device, read one by one.
ghost use Rattle.std.specs.Prelude.{◌≡◌, ◌<◌, ◌≤◌, ◌+◌, ◌^◌, ℕ, List, length, take, drop, All, IfOk, IfSome, IfNone, Err};
ghost use Rattle.ws_model.specs.Cause.{HasCause, Rose};
ghost use Rattle.ws_record.specs.Batch.{batch_text, IsBatch};
ghost use Rattle.ws_journal.specs.Text.{IsRecorded};
ghost use Rattle.ws_journal.specs.Image.{digest_len};
ghost use Rattle.ws_journal.specs.Device.{IsStart, FindsWhole, ChecksDigest, IsNoBatch, Checks, FindsRecord, FindsRecords, as_lists};
ghost use Rattle.ws_journal.specs.Ahead.{Shows};
ghost use Rattle.ws_journal.specs.Looks.{OnlyReads};

use crate::ahead::Ahead;
use crate::store::{Batch, Edition, OpenFault, ReadBack};
use sha2::{Digest, Sha256};
use std::alloc::Global;
use ws_disk::{Disk, DiskFailed};
use ws_model::{Event, Events, NoMemory};
use ws_record::read_batch;

/// The place of the first record's gate.
pub(crate) const FIRST_GATE: u64 = 17;

/// A gate with this value is open.
const OPEN: u8 = 1;

/// What a record of edition 2 has before its payload, in bytes: its gate, its length and its digest.
const START_BYTES: usize = 37;

/// What stands at a record's gate.
#[derive(Clone, Copy)]
pub(crate) enum Start {
    /// The gate isn't open.
    Shut,
    /// The gate is open, and the device ends within the length or the digest.
    Short,
    /// The gate is open: the length of the payload, and the digest that edition 2 keeps of it.
    Open { len: u32, kept: Option<[u8; 32]> },
}

/// A record whose gate is open, as it was found.
#[derive(Drop)]
pub(crate) struct Whole {
    pub(crate) kept: Option<[u8; 32]>,
    pub(crate) payload: Vec<u8>,
    /// The place of the next gate.
    pub(crate) next: u64,
}

/// A record whose gate is open.
#[derive(Drop)]
pub(crate) struct Record {
    pub(crate) events: Events,
    /// The place of the next gate.
    pub(crate) next: u64,
}

/// What a record has before its payload, in bytes: its gate, its length, and in edition 2 its digest.
pub(crate) fn start_bytes(edition: Edition) -> u64
    ensures { result ≡ 5 + digest_len edition }
{
    match edition {
        Edition::First => 5,
        Edition::Second => START_BYTES as u64,
    }
}

/// What stands at a gate, by the bytes from it on, as many as there are up to 37.
fn judge_start(edition: Edition, bytes: &[u8]) -> Start
    ensures { (left : List ℕ) → 0 < length left → take 37 left ≡ bytes.now → IsStart edition left result }
{
    let Some((gate, rest)) = bytes.split_first() else {
        return Start::Short;
    };
    if *gate != OPEN {
        return Start::Shut;
    }
    let Some((number, rest)) = rest.split_first_chunk::<4>() else {
        return Start::Short;
    };
    let len = u32::from_be_bytes(*number);
    match edition {
        Edition::First => Start::Open { len, kept: None },
        Edition::Second => match rest.split_first_chunk::<32>() {
            Some((kept, _)) => Start::Open {
                len,
                kept: Some(*kept),
            },
            None => Start::Short,
        },
    }
}

/// Reads what stands at the gate there.
pub(crate) fn read_start<D: Disk>(
    disk: &mut D,
    ahead: &mut Ahead,
    edition: Edition,
    at: u64,
) -> Result<Start, DiskFailed>
    requires { Shows D.honest D.seen disk.old ahead.old }
    ensures start { IfOk result (λ start. D.honest disk.old → at < length (D.seen disk.old) → IsStart edition (drop at (D.seen disk.old)) start) }
    ensures shows { Shows D.honest D.seen disk.new ahead.new }
    ensures reads { OnlyReads D.honest D.seen D.moment D.images D.faults disk.old disk.new }
    ensures cause { HasCause (D.faults disk.old) (D.faults disk.new) result }
{
    let mut bytes = [0; START_BYTES];
    let count = ahead.read_at(disk, at, &mut bytes)?;
    Ok(judge_start(edition, &bytes[..count]))
}

/// Reads so many bytes from that place on, or those that there are.
pub(crate) fn read_bytes<D: Disk>(
    alloc: Global,
    disk: &mut D,
    ahead: &mut Ahead,
    at: u64,
    len: usize,
) -> Result<Vec<u8>, ReadBack>
    requires { Shows D.honest D.seen disk.old ahead.old }
    ensures bytes { IfOk result (λ bytes. D.honest disk.old → bytes.items ≡ take len (drop at (D.seen disk.old))) }
    ensures count { IfOk result (λ bytes. length bytes.items ≤ len) }
    ensures shows { Shows D.honest D.seen disk.new ahead.new }
    ensures reads { OnlyReads D.honest D.seen D.moment D.images D.faults disk.old disk.new }
    ensures cause { result ≡ Err ReadBack.Disk → Rose (D.faults disk.old) (D.faults disk.new) }
{
    let mut bytes = vec![in alloc; 0; len]?;
    let count = ahead.read_at(disk, at, &mut bytes)?;
    bytes.truncate(count);
    Ok(bytes)
}

/// Reads the record whose gate stands there, if it is open. The device has so many bytes.
fn read_whole<D: Disk>(
    alloc: Global,
    disk: &mut D,
    ahead: &mut Ahead,
    edition: Edition,
    size: u64,
    at: u64,
) -> Result<Option<Whole>, OpenFault>
    requires within { at < size }
    requires shows { Shows D.honest D.seen disk.old ahead.old }
    ensures whole { D.honest disk.old → size ≡ length (D.seen disk.old) → FindsWhole edition at (D.seen disk.old) result }
    ensures next { IfOk result (λ found. IfSome found (λ whole. (at < whole.next) × (whole.next < size))) }
    ensures short { IfOk result (λ found. IfSome found (λ whole. length whole.payload.items < 2 ^ 32)) }
    ensures shows { Shows D.honest D.seen disk.new ahead.new }
    ensures reads { OnlyReads D.honest D.seen D.moment D.images D.faults disk.old disk.new }
    ensures cause { result ≡ Err OpenFault.Disk → Rose (D.faults disk.old) (D.faults disk.new) }
{
    let (len, kept) = match read_start(disk, ahead, edition, at)? {
        Start::Shut => return Ok(None),
        Start::Short => return Err(OpenFault::Damaged { at }),
        Start::Open { len, kept } => (len, kept),
    };
    let before = start_bytes(edition);
    if size - at <= before + len as u64 {
        return Err(OpenFault::Damaged { at });
    }
    let payload = read_bytes(alloc, disk, ahead, at + before, len as usize)?;
    Ok(Some(Whole {
        kept,
        payload,
        next: at + before + len as u64,
    }))
}

/// These events as a list of their own.
fn listed(alloc: Global, list: Vec<Event>) -> Result<Events, NoMemory>
    ensures { IfOk result (λ events. events ≡ list.items) }
{
    let mut events = Events::empty(alloc);
    for event in list {
        events.push(event)?;
    }
    Ok(events)
}

/// The digest that is kept of a payload, where one is, is the payload's.
fn check_digest(at: u64, kept: Option<[u8; 32]>, payload: &[u8]) -> Result<(), OpenFault>
    ensures { ChecksDigest at kept payload.now result }
{
    let Some(kept) = kept else {
        return Ok(());
    };
    let found = Sha256::digest(payload);
    if kept != found {
        return Err(OpenFault::Altered { at, kept, found });
    }
    Ok(())
}

/// The batch whose text this is, whole. None where it is no batch's.
fn whole_batch(alloc: Global, text: &[u8]) -> Result<Option<Events>, NoMemory>
    ensures some { IfOk result (λ found. IfSome found (λ events. IsBatch events × (text.now ≡ batch_text events))) }
    ensures none { IfOk result (λ found. IfNone found (IsNoBatch text.now)) }
{
    let Some((events, len)) = read_batch(alloc, text)? else {
        return Ok(None);
    };
    if len != text.len() as u64 {
        return Ok(None);
    }
    Ok(Some(listed(alloc, events)?))
}

/// The batch of a payload, beside the digest that is kept of it, in the record whose gate stands there.
fn check_payload(
    alloc: Global,
    at: u64,
    kept: Option<[u8; 32]>,
    payload: &[u8],
) -> Result<Events, OpenFault>
    ensures { Checks at kept payload.now result }
{
    check_digest(at, kept, payload)?;
    match whole_batch(alloc, payload)? {
        Some(events) => Ok(events),
        None => Err(OpenFault::Damaged { at }),
    }
}

/// Reads the record whose gate stands there, if it is open. The device has so many bytes.
fn read_record<D: Disk>(
    alloc: Global,
    disk: &mut D,
    ahead: &mut Ahead,
    edition: Edition,
    size: u64,
    at: u64,
) -> Result<Option<Record>, OpenFault>
    requires within { at < size }
    requires shows { Shows D.honest D.seen disk.old ahead.old }
    ensures record { D.honest disk.old → size ≡ length (D.seen disk.old) → FindsRecord edition at (D.seen disk.old) result }
    ensures next { IfOk result (λ found. IfSome found (λ one. (at < one.next) × (one.next < size))) }
    ensures batch { IfOk result (λ found. IfSome found (λ one. IsBatch one.events)) }
    ensures short { IfOk result (λ found. IfSome found (λ one. length (batch_text one.events) < 2 ^ 32)) }
    ensures shows { Shows D.honest D.seen disk.new ahead.new }
    ensures reads { OnlyReads D.honest D.seen D.moment D.images D.faults disk.old disk.new }
    ensures cause { result ≡ Err OpenFault.Disk → Rose (D.faults disk.old) (D.faults disk.new) }
{
    let Some(
        Whole {
            kept,
            payload,
            next,
        },
    ) = read_whole(alloc, disk, ahead, edition, size, at)?
    else {
        return Ok(None);
    };
    let events = check_payload(alloc, at, kept, &payload)?;
    Ok(Some(Record { events, next }))
}

/// Reads the batches of a device that is used, and its tail. The device has so many bytes.
pub(crate) fn read_records<D: Disk>(
    alloc: Global,
    disk: &mut D,
    ahead: &mut Ahead,
    edition: Edition,
    size: u64,
) -> Result<(Vec<Batch>, u64), OpenFault>
    requires some { 17 < size }
    requires shows { Shows D.honest D.seen disk.old ahead.old }
    ensures records { D.honest disk.old → size ≡ length (D.seen disk.old) → FindsRecords edition (drop 17 (D.seen disk.old)) (as_lists result) }
    ensures recorded { IfOk result (λ read. All IsRecorded read.0.items) }
    ensures tail { IfOk result (λ read. 17 < read.1) }
    ensures within { IfOk result (λ read. read.1 ≤ size) }
    ensures shows { Shows D.honest D.seen disk.new ahead.new }
    ensures reads { OnlyReads D.honest D.seen D.moment D.images D.faults disk.old disk.new }
    ensures cause { result ≡ Err OpenFault.Disk → Rose (D.faults disk.old) (D.faults disk.new) }
{
    let mut batches = Vec::new(alloc);
    let mut at = FIRST_GATE;
    while let Some(record) = read_record(alloc, disk, ahead, edition, size, at)? {
        let Record { events, next } = record;
        batches.push(Batch { at, events })?;
        at = next;
    }
    Ok((batches, at + 1))
}
