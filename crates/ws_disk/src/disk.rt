// A disk as the journal sees it: what a read gives, how often it failed, and what a crash may leave.
ghost use Rattle.std.specs.Prelude.{◌≡◌, ◌<◌, ◌≤◌, ◌-◌, ◌↔◌, List, ℕ, min, length, take, drop, IfOk, OnOk, OnErr};
ghost use Rattle.ws_model.specs.Cause.{HasCause};
ghost use Rattle.ws_disk.specs.Crash.{overwritten, Torn, Cut, Follows, NoMore, Only, Elapses};

/// A disk failed.
#[derive(Clone, Copy, Debug, PartialEq, Eq, thiserror::Error)]
#[error("disk failed")]
pub struct DiskFailed;

/// One file of a disk. Its size and its places count bytes.
///
/// A disk that is honest keeps this crash model. Between two syncs each written range and the part
/// past the old end may hold any bytes, and the size may be any between the old and the new. After a
/// cut the bytes from the new size on may be there or not, and hold anything. Bytes outside stay. A
/// write or a cut that fails may have done any part. After a sync that succeeds a crash leaves what a
/// read gives. Of a disk that isn't honest only the clauses on its count of faults say anything.
pub trait Disk {
    /// The bytes that a read gives.
    ghost seen: { Self → List ℕ };

    /// How often it failed.
    ghost faults: { Self → ℕ };

    /// The moment, as a number that doesn't fall.
    ghost moment: { Self → ℕ };

    /// What a crash at some moment from that one on might have left, during a call or between two.
    ghost images: { Self → ℕ → List ℕ → Type 0 };

    /// It keeps the crash model.
    ghost honest: { Self → Type 0 };

    /// The size.
    fn size(&mut self) -> Result<u64, DiskFailed>
        ensures size { IfOk result (λ n. honest self.old → n ≡ length (seen self.old)) }
        ensures seen { seen self.new ≡ seen self.old }
        ensures crash { honest self.old → NoMore (images self.old (moment self.old)) (images self.new (moment self.new)) }
        ensures time { honest self.old → Elapses (moment self.old) (moment self.new) (images self.old) (images self.new) }
        ensures rises { OnOk result (honest self.old → moment self.old < moment self.new) }
        ensures honesty { honest self.new ↔ honest self.old }
        ensures cause { HasCause (faults self.old) (faults self.new) result };

    /// Reads the bytes from that place on, as many as there are and fit, and says how many.
    fn read_at(&mut self, at: u64, into: &mut [u8]) -> Result<usize, DiskFailed>
        ensures room { IfOk result (λ n. n ≤ length into.old) }
        ensures count { IfOk result (λ n. honest self.old → n ≡ min (length into.old) (length (seen self.old) - at)) }
        ensures bytes { IfOk result (λ n. honest self.old → take n into.new ≡ take n (drop at (seen self.old))) }
        ensures seen { seen self.new ≡ seen self.old }
        ensures crash { honest self.old → NoMore (images self.old (moment self.old)) (images self.new (moment self.new)) }
        ensures time { honest self.old → Elapses (moment self.old) (moment self.new) (images self.old) (images self.new) }
        ensures rises { OnOk result (honest self.old → moment self.old < moment self.new) }
        ensures honesty { honest self.new ↔ honest self.old }
        ensures cause { HasCause (faults self.old) (faults self.new) result };

    /// Writes over what is there, and past the end. At an error any part may be done.
    fn write_at(&mut self, at: u64, bytes: &[u8]) -> Result<(), DiskFailed>
        requires { honest self.old → at ≤ length (seen self.old) }
        ensures written { OnOk result (honest self.old → seen self.new ≡ overwritten at bytes.now (seen self.old)) }
        ensures partly { OnErr result (honest self.old → Torn at (length bytes.now) (seen self.old) (seen self.new)) }
        ensures crash { honest self.old → Follows (Torn at (length bytes.now)) (images self.old (moment self.old)) (images self.new (moment self.new)) }
        ensures time { honest self.old → Elapses (moment self.old) (moment self.new) (images self.old) (images self.new) }
        ensures rises { OnOk result (honest self.old → moment self.old < moment self.new) }
        ensures honesty { honest self.new ↔ honest self.old }
        ensures cause { HasCause (faults self.old) (faults self.new) result };

    /// Shortens to that size. At an error any part may be done.
    fn cut(&mut self, size: u64) -> Result<(), DiskFailed>
        requires { honest self.old → size ≤ length (seen self.old) }
        ensures cut { OnOk result (honest self.old → seen self.new ≡ take size (seen self.old)) }
        ensures partly { OnErr result (honest self.old → Cut size (seen self.old) (seen self.new)) }
        ensures crash { honest self.old → Follows (Cut size) (images self.old (moment self.old)) (images self.new (moment self.new)) }
        ensures time { honest self.old → Elapses (moment self.old) (moment self.new) (images self.old) (images self.new) }
        ensures rises { OnOk result (honest self.old → moment self.old < moment self.new) }
        ensures honesty { honest self.new ↔ honest self.old }
        ensures cause { HasCause (faults self.old) (faults self.new) result };

    /// Confirms all that was written: from its success on a crash leaves what a read gives.
    fn sync(&mut self) -> Result<(), DiskFailed>
        ensures durable { OnOk result (honest self.old → Only (seen self.old) (images self.new (moment self.new))) }
        ensures seen { seen self.new ≡ seen self.old }
        ensures crash { honest self.old → NoMore (images self.old (moment self.old)) (images self.new (moment self.new)) }
        ensures time { honest self.old → Elapses (moment self.old) (moment self.new) (images self.old) (images self.new) }
        ensures rises { OnOk result (honest self.old → moment self.old < moment self.new) }
        ensures honesty { honest self.new ↔ honest self.old }
        ensures cause { HasCause (faults self.old) (faults self.new) result };

    /// What a read gives is an image of the present moment, since a process that dies leaves it.
    ghost seen_is_image: { (disk : Self) → honest disk → images disk (moment disk) (seen disk) };

    /// The images since a moment are among those since an earlier one.
    ghost images_grow: { (disk : Self) (t later : ℕ) (image : List ℕ) → honest disk → t ≤ later → images disk later image → images disk t image };
}
