// A disk in memory, which is honest: it keeps every call, and a crash may leave all that the crash model allows.
ghost use Rattle.std.specs.Prelude.{◌≡◌, ◌+◌, ◌≤◌, ◌<◌, [], length, IsTrue, IsErr, IfOk, OnOk, vec_capacity, ◌↔◌, ◌||◌, ◌-◌, OnErr, min, take, drop};
ghost use Rattle.ws_disk.specs.Record.{content_after, steps_of, LeavesSince};

use crate::content::{copy_from, overwrite};
use crate::log::{Call, CallLog};
use crate::{Disk, DiskFailed};
use std::alloc::Global;
use ws_model::NoMemory;

/// A disk in memory. It keeps every call in a record, and tells by it what a crash might have left at
/// each moment. Its calls take no memory.
#[derive(Drop)]
pub struct MemDisk {
    /// What it held when it was made.
    first: Vec<u8>,
    content: Vec<u8>,
    log: CallLog,
    /// The numbers of the calls that are made to fail, from 0.
    failing: Vec<u64>,
    faults: u64,
    ghost held: { content.items ≡ content_after first.items (steps_of log.calls.items log.written.items) },
    ghost within: { length content.items ≤ log.room },
    ghost has_room: { log.room ≤ vec_capacity content },
}

impl MemDisk {
    ghost use Rattle.ws_model.specs.Cause.{HasCause, Rose};
    ghost use Rattle.ws_disk.specs.Crash.{Only};
    ghost use Rattle.ws_disk.specs.Memory.{disk_content, disk_steps, disk_moment, disk_images, disk_faults, is_refused, is_too_long, IsCalm, IsPlanned, IsNumbered};

    /// An empty disk with room for so many bytes. Its record has room for so many calls, and for as
    /// many written bytes as the disk. The calls whose numbers stand in `failing`, from 0, fail; so
    /// do a write past the room, a write whose bytes don't fit the record, and a call past the
    /// record. Each is counted as a fault and changes nothing.
    pub fn made(alloc: Global, room: u64, calls: u64, failing: &[u64]) -> Result<MemDisk, NoMemory>
        ensures content { IfOk result (λ disk. disk_content disk ≡ []) }
        ensures calls { IfOk result (λ disk. disk_steps disk ≡ []) }
        ensures confirmed { IfOk result (λ disk. Only (disk_content disk) (disk_images disk (disk_moment disk))) }
        ensures faults { IfOk result (λ disk. disk_faults disk ≡ 0) }
        ensures plan { IfOk result (IsPlanned room calls failing.now) }
    {
        MemDisk::holding(alloc, &[], room, calls, failing)
    }

    /// The same, of a disk that holds these bytes, all of them confirmed.
    pub fn holding(
        alloc: Global,
        bytes: &[u8],
        room: u64,
        calls: u64,
        failing: &[u64],
    ) -> Result<MemDisk, NoMemory>
        requires { length bytes.now ≤ room }
        ensures content { IfOk result (λ disk. disk_content disk ≡ bytes.now) }
        ensures calls { IfOk result (λ disk. disk_steps disk ≡ []) }
        ensures confirmed { IfOk result (λ disk. Only (disk_content disk) (disk_images disk (disk_moment disk))) }
        ensures faults { IfOk result (λ disk. disk_faults disk ≡ 0) }
        ensures plan { IfOk result (IsPlanned room calls failing.now) }
    {
        let mut content = Vec::with_capacity(alloc, room as usize)?;
        content.extend_from_slice(bytes)?;
        Ok(MemDisk {
            first: bytes.to_vec(alloc)?,
            content,
            log: CallLog::made(alloc, room as usize, calls as usize)?,
            failing: failing.to_vec(alloc)?,
            faults: 0,
        })
    }

    /// The bytes that a read gives.
    pub fn content(&self) -> &[u8]
        ensures { result.now ≡ disk_content self.now }
    {
        &self.content
    }

    /// How many calls failed.
    pub fn faults(&self) -> u64
        ensures { result ≡ disk_faults self.now }
    {
        self.faults
    }

    fn is_refused(&self) -> bool
        ensures { result ≡ is_refused self.now }
    {
        self.log.is_full() || self.failing.contains(&(self.log.calls.len() as u64))
    }

    fn is_too_long(&self, at: u64, count: usize) -> bool
        requires { at ≤ length (disk_content self.now) }
        ensures { result ≡ is_too_long self.now at count }
    {
        count > self.log.room - at as usize || count > self.log.room - self.log.written.len()
    }

    // A call that changes nothing.
    fn rest(&mut self)
        ensures content { disk_content self.new ≡ disk_content self.old }
        ensures faults { disk_faults self.new ≡ disk_faults self.old }
        ensures numbered { IsNumbered self.old self.new }
        ensures calm { IsCalm self.old self.new }
        ensures rises { length self.old.log.calls.items < self.old.log.most → disk_moment self.old < disk_moment self.new }
    {
        if !self.log.is_full() {
            self.log.note(Call::Idle, &[]);
        }
    }

    fn fail(&mut self) -> DiskFailed
        ensures content { disk_content self.new ≡ disk_content self.old }
        ensures rose { Rose (disk_faults self.old) (disk_faults self.new) }
        ensures later { disk_faults self.old ≤ disk_faults self.new }
        ensures numbered { IsNumbered self.old self.new }
        ensures calm { IsCalm self.old self.new }
    {
        self.faults = self.faults.saturating_add(1);
        self.rest();
        DiskFailed
    }

    // A look at the size or the bytes.
    fn look(&mut self) -> Result<(), DiskFailed>
        ensures content { disk_content self.new ≡ disk_content self.old }
        ensures numbered { IsNumbered self.old self.new }
        ensures calm { IsCalm self.old self.new }
        ensures rises { OnOk result (disk_moment self.old < disk_moment self.new) }
        ensures cause { HasCause (disk_faults self.old) (disk_faults self.new) result }
        ensures refused { IsTrue (is_refused self.old) ↔ IsErr result }
    {
        if self.is_refused() {
            return Err(self.fail());
        }
        self.rest();
        Ok(())
    }
}

impl Disk for MemDisk {
    ghost use Rattle.ws_disk.specs.Record.{content_image, LeavesSince-grow};
    ghost use Rattle.ws_model.specs.Cause.{HasCause};
    ghost use Rattle.ws_disk.specs.Crash.{overwritten, Torn, Cut, Follows, NoMore, Only, Elapses};
    ghost use Rattle.ws_disk.specs.Memory.{disk_content, disk_steps, disk_moment, disk_images, disk_faults, is_refused, is_too_long, IsCalm, IsNumbered};

    ghost seen = { disk_content };

    ghost faults = { disk_faults };

    ghost moment = { disk_moment };

    ghost images = { disk_images };

    ghost honest = { λ _. Unit {0} };

    ghost seen_is_image = { λ disk _. content_image disk.first.items disk.content.items (disk_steps disk) disk.held };

    ghost images_grow = { λ disk t later image _. LeavesSince-grow disk.first.items (disk_steps disk) t later image };

    fn size(&mut self) -> Result<u64, DiskFailed>
        ensures size { IfOk result (λ n. n ≡ length (disk_content self.old)) }
        ensures refused { IsTrue (is_refused self.old) ↔ IsErr result }
        ensures numbered { IsNumbered self.old self.new }
        ensures seen { disk_content self.new ≡ disk_content self.old }
        ensures calm { IsCalm self.old self.new }
        ensures rises { OnOk result (disk_moment self.old < disk_moment self.new) }
        ensures cause { HasCause (disk_faults self.old) (disk_faults self.new) result }
    {
        self.look()?;
        Ok(self.content.len() as u64)
    }

    fn read_at(&mut self, at: u64, into: &mut [u8]) -> Result<usize, DiskFailed>
        ensures room { IfOk result (λ n. n ≤ length into.old) }
        ensures count { IfOk result (λ n. n ≡ min (length into.old) (length (disk_content self.old) - at)) }
        ensures bytes { IfOk result (λ n. take n into.new ≡ take n (drop at (disk_content self.old))) }
        ensures refused { IsTrue (is_refused self.old) ↔ IsErr result }
        ensures numbered { IsNumbered self.old self.new }
        ensures seen { disk_content self.new ≡ disk_content self.old }
        ensures calm { IsCalm self.old self.new }
        ensures rises { OnOk result (disk_moment self.old < disk_moment self.new) }
        ensures cause { HasCause (disk_faults self.old) (disk_faults self.new) result }
    {
        self.look()?;
        Ok(copy_from(&self.content, at, into))
    }

    fn write_at(&mut self, at: u64, bytes: &[u8]) -> Result<(), DiskFailed>
        requires { at ≤ length (disk_content self.old) }
        ensures written { OnOk result (disk_content self.new ≡ overwritten at bytes.now (disk_content self.old)) }
        ensures unchanged { OnErr result (disk_content self.new ≡ disk_content self.old) }
        ensures partly { OnErr result (Torn at (length bytes.now) (disk_content self.old) (disk_content self.new)) }
        ensures refused { IsTrue (is_refused self.old || is_too_long self.old at (length bytes.now)) ↔ IsErr result }
        ensures crash { Follows (Torn at (length bytes.now)) (disk_images self.old (disk_moment self.old)) (disk_images self.new (disk_moment self.new)) }
        ensures time { Elapses (disk_moment self.old) (disk_moment self.new) (disk_images self.old) (disk_images self.new) }
        ensures rises { OnOk result (disk_moment self.old < disk_moment self.new) }
        ensures numbered { IsNumbered self.old self.new }
        ensures cause { HasCause (disk_faults self.old) (disk_faults self.new) result }
    {
        if self.is_refused() || self.is_too_long(at, bytes.len()) {
            return Err(self.fail());
        }
        overwrite(&mut self.content, at as usize, bytes);
        let count = bytes.len();
        self.log.note(Call::Wrote { at, count }, bytes);
        Ok(())
    }

    fn cut(&mut self, size: u64) -> Result<(), DiskFailed>
        requires { size ≤ length (disk_content self.old) }
        ensures cut { OnOk result (disk_content self.new ≡ take size (disk_content self.old)) }
        ensures unchanged { OnErr result (disk_content self.new ≡ disk_content self.old) }
        ensures partly { OnErr result (Cut size (disk_content self.old) (disk_content self.new)) }
        ensures refused { IsTrue (is_refused self.old) ↔ IsErr result }
        ensures crash { Follows (Cut size) (disk_images self.old (disk_moment self.old)) (disk_images self.new (disk_moment self.new)) }
        ensures time { Elapses (disk_moment self.old) (disk_moment self.new) (disk_images self.old) (disk_images self.new) }
        ensures rises { OnOk result (disk_moment self.old < disk_moment self.new) }
        ensures numbered { IsNumbered self.old self.new }
        ensures cause { HasCause (disk_faults self.old) (disk_faults self.new) result }
    {
        if self.is_refused() {
            return Err(self.fail());
        }
        self.content.truncate(size as usize);
        self.log.note(Call::Cut { size }, &[]);
        Ok(())
    }

    fn sync(&mut self) -> Result<(), DiskFailed>
        ensures durable { OnOk result (Only (disk_content self.old) (disk_images self.new (disk_moment self.new))) }
        ensures refused { IsTrue (is_refused self.old) ↔ IsErr result }
        ensures seen { disk_content self.new ≡ disk_content self.old }
        ensures crash { NoMore (disk_images self.old (disk_moment self.old)) (disk_images self.new (disk_moment self.new)) }
        ensures time { Elapses (disk_moment self.old) (disk_moment self.new) (disk_images self.old) (disk_images self.new) }
        ensures rises { OnOk result (disk_moment self.old < disk_moment self.new) }
        ensures numbered { IsNumbered self.old self.new }
        ensures cause { HasCause (disk_faults self.old) (disk_faults self.new) result }
    {
        if self.is_refused() {
            return Err(self.fail());
        }
        self.log.note(Call::Synced, &[]);
        Ok(())
    }
}
