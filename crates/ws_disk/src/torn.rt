// A disk in memory of which a test can ask what a crash might leave.
ghost use Rattle.std.specs.Prelude.{◌≡◌, ◌≤◌, ◌+◌, [], length, take, IfOk, OnOk, OnErr, IsErr, IsTrue, ◌↔◌, ◌||◌, ◌-◌, min, drop, vec_capacity};
ghost use Rattle.ws_model.specs.Cause.{HasCause, Rose};

use crate::content::{append, copy_from, fill_written, mark, overwrite};
use crate::{Disk, DiskFailed, MemDisk};
use std::alloc::Global;
use ws_model::NoMemory;

/// Which image of a crash is asked for.
#[derive(Clone, Copy, Debug, PartialEq, Eq)]
pub enum Pick {
    /// What the last sync confirmed.
    Old,
    /// What a read gives.
    New,
    /// What a read gives, with this byte in each place that was written since the last sync.
    Fill(u8),
}

// Which calls fail by their numbers.
#[derive(Drop)]
struct Plan {
    /// How many calls there are.
    calls: u64,
    /// How many were made.
    made: u64,
    /// The numbers of the calls that are made to fail, from 0.
    failing: Vec<u64>,
}

impl Plan {
    ghost use Rattle.ws_disk.specs.Torn.{plan_refuses, GoesOn};

    // Numbers a call, and says whether it is one that fails.
    fn is_refused(&mut self) -> bool
        ensures refused { result ≡ plan_refuses self.old }
        ensures goes_on { GoesOn self.old self.new }
    {
        let number = self.made;
        self.made = self.made.saturating_add(1);
        number >= self.calls || self.failing.contains(&number)
    }
}

/// A disk in memory that keeps what the last sync confirmed and which bytes were written since, for
/// tests of crashes. It keeps no record of its calls, and by the trait it tells contracts its count
/// of faults alone; its own clauses say what it holds.
#[derive(Drop)]
pub struct TornDisk {
    content: Vec<u8>,
    confirmed: Vec<u8>,
    /// Of each place whether it was written since the last sync.
    written: Vec<bool>,
    room: usize,
    plan: Plan,
    faults: u64,
    ghost content_within: { length content.items ≤ room },
    ghost content_room: { room ≤ vec_capacity content },
    ghost confirmed_within: { length confirmed.items ≤ room },
    ghost confirmed_room: { room ≤ vec_capacity confirmed },
    ghost places: { length written.items ≡ room },
}

impl TornDisk {
    ghost use Rattle.ws_disk.specs.Crash.{Only};
    ghost use Rattle.ws_disk.specs.Torn.{torn_faults, torn_refuses, torn_too_far, Holds, IsNextCall, IsSame, unmarked, torn_image, IsNew};
    ghost use Rattle.ws_disk.specs.Memory.{disk_content, disk_steps, disk_moment, disk_images, disk_faults, IsPlanned};

    /// An empty disk with room for so many bytes and so many calls. The calls whose numbers stand in
    /// `failing`, from 0, fail; so do a write past the room, and a call past the number of calls.
    /// Each is counted as a fault and changes nothing.
    pub fn made(alloc: Global, room: u64, calls: u64, failing: &[u64]) -> Result<TornDisk, NoMemory>
        ensures faults { IfOk result (λ disk. torn_faults disk ≡ 0) }
        ensures holds { IfOk result (Holds [] [] (unmarked room)) }
        ensures plan { IfOk result (IsNew room calls failing.now) }
    {
        let room = room as usize;
        Ok(TornDisk {
            content: Vec::with_capacity(alloc, room)?,
            confirmed: Vec::with_capacity(alloc, room)?,
            written: vec![in alloc; false; room]?,
            room,
            plan: Plan {
                calls,
                made: 0,
                failing: failing.to_vec(alloc)?,
            },
            faults: 0,
        })
    }

    /// One image that a crash now may leave, as a disk of the same room and number of calls, of which
    /// no call is made to fail.
    pub fn crashed(&self, alloc: Global, pick: Pick) -> Result<MemDisk, NoMemory>
        ensures image { IfOk result (λ disk. disk_content disk ≡ torn_image pick self.now) }
        ensures calls { IfOk result (λ disk. disk_steps disk ≡ []) }
        ensures confirmed { IfOk result (λ disk. Only (disk_content disk) (disk_images disk (disk_moment disk))) }
        ensures faults { IfOk result (λ disk. disk_faults disk ≡ 0) }
        ensures plan { IfOk result (IsPlanned self.now.room self.now.plan.calls []) }
    {
        let (room, calls) = (self.room as u64, self.plan.calls);
        match pick {
            Pick::Old => MemDisk::holding(alloc, &self.confirmed, room, calls, &[]),
            Pick::New => MemDisk::holding(alloc, &self.content, room, calls, &[]),
            Pick::Fill(byte) => {
                let image = fill_written(alloc, &self.content, &self.written, byte)?;
                MemDisk::holding(alloc, &image, room, calls, &[])
            }
        }
    }

    /// How many calls failed.
    pub fn faults(&self) -> u64
        ensures { result ≡ torn_faults self.now }
    {
        self.faults
    }

    // Numbers a call, and counts a fault where it is one that fails.
    fn begin(&mut self) -> Result<(), DiskFailed>
        ensures refused { IsTrue (torn_refuses self.old) ↔ IsErr result }
        ensures next { IsNextCall self.old self.new }
        ensures same { IsSame self.old self.new }
        ensures cause { HasCause (torn_faults self.old) (torn_faults self.new) result }
        ensures count { OnOk result (torn_faults self.new ≡ torn_faults self.old) }
    {
        if self.plan.is_refused() {
            return Err(self.fail());
        }
        Ok(())
    }

    fn fail(&mut self) -> DiskFailed
        ensures rose { Rose (torn_faults self.old) (torn_faults self.new) }
        ensures later { torn_faults self.old ≤ torn_faults self.new }
        ensures same { IsSame self.old self.new }
        ensures plan { self.new.plan ≡ self.old.plan }
        ensures room { self.new.room ≡ self.old.room }
    {
        self.faults = self.faults.saturating_add(1);
        DiskFailed
    }

    fn is_too_far(&self, at: u64, count: usize) -> bool
        ensures { result ≡ torn_too_far self.now at count }
    {
        at > self.content.len() as u64 || count > self.room - at as usize
    }
}

impl Disk for TornDisk {
    ghost use Rattle.std.specs.Prelude.{[]};
    ghost use Rattle.ws_model.specs.Cause.{HasCause};
    ghost use Rattle.ws_disk.specs.Crash.{overwritten};
    ghost use Rattle.ws_disk.specs.Torn.{torn_faults, torn_refuses, torn_too_far, IsNextCall, Holds, IsSame, marked, unmarked};

    ghost seen = { λ _. [] };

    ghost faults = { torn_faults };

    ghost moment = { λ _. 0 };

    ghost images = { λ _ _ _. ⊥ };

    ghost honest = { λ _. ⊥ };

    ghost seen_is_image = { λ _ no. no };

    ghost images_grow = { λ _ _ _ _ no. absurd no };

    fn size(&mut self) -> Result<u64, DiskFailed>
        ensures size { IfOk result (λ n. n ≡ length self.old.content.items) }
        ensures refused { IsTrue (torn_refuses self.old) ↔ IsErr result }
        ensures next { IsNextCall self.old self.new }
        ensures same { IsSame self.old self.new }
        ensures cause { HasCause (torn_faults self.old) (torn_faults self.new) result }
    {
        self.begin()?;
        Ok(self.content.len() as u64)
    }

    fn read_at(&mut self, at: u64, into: &mut [u8]) -> Result<usize, DiskFailed>
        ensures room { IfOk result (λ n. n ≤ length into.old) }
        ensures count { IfOk result (λ n. n ≡ min (length into.old) (length self.old.content.items - at)) }
        ensures bytes { IfOk result (λ n. take n into.new ≡ take n (drop at self.old.content.items)) }
        ensures refused { IsTrue (torn_refuses self.old) ↔ IsErr result }
        ensures next { IsNextCall self.old self.new }
        ensures same { IsSame self.old self.new }
        ensures cause { HasCause (torn_faults self.old) (torn_faults self.new) result }
    {
        self.begin()?;
        Ok(copy_from(&self.content, at, into))
    }

    fn write_at(&mut self, at: u64, bytes: &[u8]) -> Result<(), DiskFailed>
        ensures written { OnOk result (Holds (overwritten at bytes.now self.old.content.items) self.old.confirmed.items (marked at (length bytes.now) self.old.written.items) self.new) }
        ensures unchanged { OnErr result (IsSame self.old self.new) }
        ensures refused { IsTrue (torn_refuses self.old || torn_too_far self.old at (length bytes.now)) ↔ IsErr result }
        ensures next { IsNextCall self.old self.new }
        ensures cause { HasCause (torn_faults self.old) (torn_faults self.new) result }
    {
        self.begin()?;
        // A caller of a disk that tells nothing proves nothing of its places.
        if self.is_too_far(at, bytes.len()) {
            return Err(self.fail());
        }
        let at = at as usize;
        overwrite(&mut self.content, at, bytes);
        mark(&mut self.written, at, bytes.len());
        Ok(())
    }

    fn cut(&mut self, size: u64) -> Result<(), DiskFailed>
        ensures cut { OnOk result (Holds (take size self.old.content.items) self.old.confirmed.items self.old.written.items self.new) }
        ensures unchanged { OnErr result (IsSame self.old self.new) }
        ensures refused { IsTrue (torn_refuses self.old) ↔ IsErr result }
        ensures next { IsNextCall self.old self.new }
        ensures cause { HasCause (torn_faults self.old) (torn_faults self.new) result }
    {
        self.begin()?;
        self.content.truncate(size as usize);
        Ok(())
    }

    fn sync(&mut self) -> Result<(), DiskFailed>
        ensures durable { OnOk result (Holds self.old.content.items self.old.content.items (unmarked self.old.room) self.new) }
        ensures unchanged { OnErr result (IsSame self.old self.new) }
        ensures refused { IsTrue (torn_refuses self.old) ↔ IsErr result }
        ensures next { IsNextCall self.old self.new }
        ensures cause { HasCause (torn_faults self.old) (torn_faults self.new) result }
    {
        self.begin()?;
        self.confirmed.clear();
        append(&mut self.confirmed, &self.content);
        self.written.fill(false);
        Ok(())
    }
}
