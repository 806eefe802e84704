// The texts of a journal's batches, read back.
ghost use Rattle.std.specs.Prelude.{◌≡◌, ◌<◌, ◌≤◌, ◌+◌, ◌∷◌, ◌++◌, ◌^◌, ◌⊎◌, ◌↔◌, ℕ, List, Option, Some, length, drop, All, IfOk, IfSome, Err};
ghost use Rattle.ws_model.specs.Cause.{HasCause, Rose};
ghost use Rattle.ws_journal.specs.Text.{record_text};
ghost use Rattle.ws_journal.specs.Image.{digest_len};
ghost use Rattle.ws_journal.specs.Ahead.{Shows};
ghost use Rattle.ws_journal.specs.Looks.{OnlyReads};
ghost use Rattle.ws_journal.specs.UpTo.{IsUpTo};

use crate::ahead::Ahead;
use crate::journal::Journal;
use crate::scan::{FIRST_GATE, Start, read_bytes, read_start, start_bytes};
use crate::store::{Edition, ReadBack, Side, Store};
use std::alloc::Global;
use ws_disk::{Disk, DiskFailed};
use ws_model::Bytes;

/// The length of the payload of the open record whose gate stands there, where it ends before that place.
fn record_len<D: Disk>(
    disk: &mut D,
    ahead: &mut Ahead,
    edition: Edition,
    at: u64,
    end: u64,
) -> Result<Option<u32>, DiskFailed>
    requires { Shows D.honest D.seen disk.old ahead.old }
    ensures len { D.honest disk.old → (payload next : List ℕ) → length payload < 2 ^ 32 → 0 < length next
        → drop at (D.seen disk.old) ≡ 1 ∷ record_text edition payload ++ next → at + length (1 ∷ record_text edition payload) ≤ end
        → IfOk result (λ len. len ≡ Some (length payload)) }
    ensures room { IfOk result (λ found. IfSome found (λ len. at + (5 + digest_len edition + len) ≤ end)) }
    ensures shows { Shows D.honest D.seen disk.new ahead.new }
    ensures reads { OnlyReads D.honest D.seen D.moment D.images D.faults disk.old disk.new }
    ensures cause { HasCause (D.faults disk.old) (D.faults disk.new) result }
{
    let Start::Open { len, .. } = read_start(disk, ahead, edition, at)? else {
        return Ok(None);
    };
    if end.saturating_sub(at) < start_bytes(edition) + len as u64 {
        return Ok(None);
    }
    Ok(Some(len))
}

/// The place of the gate behind so many records, of those before the gate at `end`.
fn skip_records<D: Disk>(
    disk: &mut D,
    ahead: &mut Ahead,
    edition: Edition,
    end: u64,
    count: u64,
) -> Result<u64, DiskFailed>
    requires { Shows D.honest D.seen disk.old ahead.old }
    ensures place { D.honest disk.old → (payloads : List (List ℕ)) (left : List ℕ) → count ≤ length payloads → IsUpTo edition 17 end payloads left (D.seen disk.old)
        → IfOk result (λ at. IsUpTo edition at end (drop count payloads) left (D.seen disk.old)) }
    ensures shows { Shows D.honest D.seen disk.new ahead.new }
    ensures reads { OnlyReads D.honest D.seen D.moment D.images D.faults disk.old disk.new }
    ensures cause { HasCause (D.faults disk.old) (D.faults disk.new) result }
{
    let mut at = FIRST_GATE;
    for _ in 0..count {
        let Some(len) = record_len(disk, ahead, edition, at, end)? else {
            // Only a device that someone else wrote has no open record before the last gate.
            return Ok(end);
        };
        at += start_bytes(edition) + len as u64;
    }
    Ok(at)
}

/// Reads the payloads of the records from one gate up to another.
fn read_texts<D: Disk>(
    alloc: Global,
    disk: &mut D,
    ahead: &mut Ahead,
    edition: Edition,
    from: u64,
    end: u64,
) -> Result<Vec<Bytes>, ReadBack>
    requires { Shows D.honest D.seen disk.old ahead.old }
    ensures texts { D.honest disk.old → (payloads : List (List ℕ)) (left : List ℕ) → IsUpTo edition from end payloads left (D.seen disk.old)
        → IfOk result (λ texts. texts.items ≡ payloads) }
    ensures shows { Shows D.honest D.seen disk.new ahead.new }
    ensures reads { OnlyReads D.honest D.seen D.moment D.images D.faults disk.old disk.new }
    ensures cause { result ≡ Err ReadBack.Disk → Rose (D.faults disk.old) (D.faults disk.new) }
{
    let mut texts = Vec::new(alloc);
    let mut at = from;
    while at < end {
        let Some(len) = record_len(disk, ahead, edition, at, end)? else {
            // As above.
            return Ok(texts);
        };
        let place = at + start_bytes(edition);
        let text = read_bytes(alloc, disk, ahead, place, len as usize)?;
        texts.push(Bytes::from_vec(text))?;
        at = place + len as u64;
    }
    Ok(texts)
}

/// Reads the payloads of a device's records up to its last gate, which stands there, without the first so many.
fn read_device_texts<D: Disk>(
    alloc: Global,
    disk: &mut D,
    edition: Edition,
    end: u64,
    from: u64,
) -> Result<Vec<Bytes>, ReadBack>
    ensures texts { D.honest disk.old → (payloads : List (List ℕ)) (left : List ℕ) → from ≤ length payloads → IsUpTo edition 17 end payloads left (D.seen disk.old)
        → IfOk result (λ texts. texts.items ≡ drop from payloads) }
    ensures reads { OnlyReads D.honest D.seen D.moment D.images D.faults disk.old disk.new }
    ensures cause { result ≡ Err ReadBack.Disk → Rose (D.faults disk.old) (D.faults disk.new) }
{
    let mut ahead = Ahead::new(alloc, end)?;
    let at = skip_records(disk, &mut ahead, edition, end, from)?;
    read_texts(alloc, disk, &mut ahead, edition, at, end)
}

impl Journal {
    ghost use Rattle.ws_journal.specs.Stands.{Stands, HasTail, counting, other};

    /// The texts of the journal's batches from that number on, without a batch in doubt.
    ///
    /// The number is at most that of the batches, and the store is the one that the journal was recovered
    /// from, changed since by its own calls alone.
    pub fn read_back<D: Disk>(
        &self,
        alloc: Global,
        store: &mut Store<D>,
        from: u64,
    ) -> Result<Vec<Bytes>, ReadBack>
        ensures texts { (payloads : List (List ℕ)) (doubt : Option (List ℕ)) → D.honest (counting self.now.side store.old) → Stands D.moment D.images self.now store.old payloads doubt → from ≤ length payloads
            → IfOk result (λ texts. texts.items ≡ drop from payloads) }
        ensures stands { (payloads : List (List ℕ)) (doubt : Option (List ℕ)) → D.honest (counting self.now.side store.old) → Stands D.moment D.images self.now store.old payloads doubt
            → Stands D.moment D.images self.now store.new payloads doubt }
        ensures place { HasTail D.honest D.moment D.images self.now store.old → HasTail D.honest D.moment D.images self.now store.new }
        ensures reads { OnlyReads D.honest D.seen D.moment D.images D.faults (counting self.now.side store.old) (counting self.now.side store.new) }
        ensures untouched { other self.now.side store.new ≡ other self.now.side store.old }
        ensures cause { result ≡ Err ReadBack.Disk → Rose (D.faults (counting self.now.side store.old)) (D.faults (counting self.now.side store.new)) }
    {
        match self.side {
            Side::A => read_device_texts(alloc, &mut store.a, self.edition, self.tail - 1, from),
            Side::B => read_device_texts(alloc, &mut store.b, self.edition, self.tail - 1, from),
        }
    }
}
