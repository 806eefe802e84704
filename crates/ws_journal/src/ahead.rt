// Reading a device ahead: a block of it, from which short reads are answered.
ghost use Rattle.std.specs.Prelude.{◌≡◌, ◌≤◌, ◌-◌, ℕ, List, length, take, drop, min, IfOk, OnOk};
ghost use Rattle.ws_model.specs.Cause.{HasCause};
ghost use Rattle.ws_journal.specs.Looks.{OnlyReads};

use std::alloc::{AllocError, Global};
use ws_disk::{Disk, DiskFailed};

/// How many bytes of a device are read ahead, at most.
const BLOCK_BYTES: u64 = 1 << 16;

/// A block of a device that was read ahead.
#[derive(Drop)]
pub(crate) struct Ahead {
    block: Vec<u8>,
    /// The place of the block's first byte.
    place: u64,
    /// How many bytes of the device it holds.
    held: usize,
    ghost fits: { held ≤ length block.items },
}

impl Ahead {
    ghost use Rattle.ws_journal.specs.Ahead.{IsOf, Shows};

    /// A block that holds nothing yet, for a device of so many bytes.
    pub(crate) fn new(alloc: Global, size: u64) -> Result<Self, AllocError>
        ensures { IfOk result (λ ahead. (file : List ℕ) → IsOf file ahead) }
    {
        Ok(Ahead {
            block: vec![in alloc; 0; size.min(BLOCK_BYTES) as usize]?,
            place: 0,
            held: 0,
        })
    }

    /// What the block holds from that place on.
    fn held_from(&self, at: u64) -> &[u8]
        ensures bytes { (file : List ℕ) → IsOf file self.now → result.now ≡ take (length result.now) (drop at file) }
        ensures all { self.now.place ≡ at → length result.now ≡ self.now.held }
    {
        let Some(skipped) = at.checked_sub(self.place) else {
            return &[];
        };
        if skipped >= self.held as u64 {
            return &[];
        }
        &self.block[skipped as usize..self.held]
    }

    /// Gives what the block holds from that place on, as much as fits, and says how many bytes.
    fn give(&self, at: u64, into: &mut [u8]) -> usize
        ensures room { result ≤ length into.old }
        ensures bytes { (file : List ℕ) → IsOf file self.now → take result into.new ≡ take result (drop at file) }
        ensures within { (file : List ℕ) → IsOf file self.now → result ≤ length file - at }
        ensures all { self.now.place ≡ at → result ≡ min (length into.old) self.now.held }
    {
        let held = self.held_from(at);
        let count = held.len().min(into.len());
        into[..count].copy_from_slice(&held[..count]);
        count
    }

    /// Fills the block from that place on.
    fn fill<D: Disk>(&mut self, disk: &mut D, at: u64) -> Result<(), DiskFailed>
        ensures place { self.new.place ≡ at }
        ensures held { OnOk result (D.honest disk.old → self.new.held ≡ min (length self.old.block.items) (length (D.seen disk.old) - at)) }
        ensures shows { Shows D.honest D.seen disk.new self.new }
        ensures reads { OnlyReads D.honest D.seen D.moment D.images D.faults disk.old disk.new }
        ensures cause { HasCause (D.faults disk.old) (D.faults disk.new) result }
    {
        // The block may hold anything where the read fails.
        self.held = 0;
        self.place = at;
        self.held = disk.read_at(at, &mut self.block)?;
        Ok(())
    }

    /// Reads what the block doesn't hold: a long read goes to the device, before a short one the block is filled.
    fn read_on<D: Disk>(
        &mut self,
        disk: &mut D,
        at: u64,
        into: &mut [u8],
    ) -> Result<usize, DiskFailed>
        requires { Shows D.honest D.seen disk.old self.old }
        ensures room { IfOk result (λ n. n ≤ length into.old) }
        ensures count { IfOk result (λ n. D.honest disk.old → n ≡ min (length into.old) (length (D.seen disk.old) - at)) }
        ensures bytes { IfOk result (λ n. D.honest disk.old → take n into.new ≡ take n (drop at (D.seen disk.old))) }
        ensures shows { Shows D.honest D.seen disk.new self.new }
        ensures reads { OnlyReads D.honest D.seen D.moment D.images D.faults disk.old disk.new }
        ensures cause { HasCause (D.faults disk.old) (D.faults disk.new) result }
    {
        if into.len() >= self.block.len() {
            return disk.read_at(at, into);
        }
        self.fill(disk, at)?;
        Ok(self.give(at, into))
    }

    /// Reads the bytes from that place on, as many as there are and fit, and says how many, as the device itself does.
    pub(crate) fn read_at<D: Disk>(
        &mut self,
        disk: &mut D,
        at: u64,
        into: &mut [u8],
    ) -> Result<usize, DiskFailed>
        requires { Shows D.honest D.seen disk.old self.old }
        ensures room { IfOk result (λ n. n ≤ length into.old) }
        ensures count { IfOk result (λ n. D.honest disk.old → n ≡ min (length into.old) (length (D.seen disk.old) - at)) }
        ensures bytes { IfOk result (λ n. D.honest disk.old → take n into.new ≡ take n (drop at (D.seen disk.old))) }
        ensures shows { Shows D.honest D.seen disk.new self.new }
        ensures reads { OnlyReads D.honest D.seen D.moment D.images D.faults disk.old disk.new }
        ensures cause { HasCause (D.faults disk.old) (D.faults disk.new) result }
    {
        let given = self.give(at, into);
        if given == into.len() {
            return Ok(given);
        }
        let Some(rest) = at.checked_add(given as u64) else {
            // There is no place so far behind.
            return disk.read_at(at, into);
        };
        let more = self.read_on(disk, rest, &mut into[given..])?;
        Ok(given + more)
    }
}
