// The pairs of a new version, opened for the live leases of its topic, or closed again.
ghost use Rattle.std.specs.Prelude.{◌≡◌, ◌≤◌, ◌<◌, ◌^◌, ℕ, Some, None, IsSome, OnOk, OnErr, cond, true, false};
ghost use Rattle.ws_lease.specs.Table.{live_at};
ghost use Rattle.ws_delivery.specs.Table.{is_here, pair_at};
ghost use Rattle.ws_core_tables.specs.Births.{AreDistinct, IsBearer, born_for, is_among, member};

use ws_delivery::Deliveries;
use ws_lease::{Leases, LiveOf};
use ws_model::NoMemory;

/// Opens the pairs of a new version for live leases at `t`. At an error some of them are open.
pub(crate) fn open_all(
    deliveries: &mut Deliveries,
    leases: &Leases,
    numbers: LiveOf<'_>,
    ver: u64,
    t: u64,
) -> Result<(), NoMemory>
    requires in_time { t < 2 ^ 48 }
    requires distinct { AreDistinct numbers }
    requires live { (n : ℕ) → member n numbers ≡ true → IsSome (live_at n t leases.now) }
    requires new { (n : ℕ) → pair_at ver n deliveries.old ≡ None }
    requires bearers { (n : ℕ) → IsBearer t n leases.now deliveries.old }
    ensures look { OnOk result ((v n : ℕ) → pair_at v n deliveries.new ≡ cond (is_among ver numbers.entry v n) (born_for t (live_at n t leases.now)) (pair_at v n deliveries.old)) }
    ensures others { (v n : ℕ) → is_among ver numbers.entry v n ≡ false → pair_at v n deliveries.new ≡ pair_at v n deliveries.old }
{
    for n in numbers {
        open_one(deliveries, leases, n, ver, t)?;
    }
    Ok(())
}

/// Opens the pair of a version for a live lease at `t`. At an error the pairs are as before.
fn open_one(
    deliveries: &mut Deliveries,
    leases: &Leases,
    n: u64,
    ver: u64,
    t: u64,
) -> Result<(), NoMemory>
    requires in_time { t < 2 ^ 48 }
    requires live { IsSome (live_at n t leases.now) }
    requires new { pair_at ver n deliveries.old ≡ None }
    requires bearer { IsBearer t n leases.now deliveries.old }
    ensures look { OnOk result ((v m : ℕ) → pair_at v m deliveries.new ≡ cond (is_here ver n v m) (born_for t (live_at n t leases.now)) (pair_at v m deliveries.old)) }
    ensures err { OnErr result (deliveries.new ≡ deliveries.old) }
{
    match leases.get(n, t) {
        Some(lease) => {
            let exp = lease.sent + seconds(lease.intent.granted);
            deliveries.born(ver, n, exp, t)
        }
        None => unreachable!(),
    }
}

/// Closes the pairs of a version for these leases. It takes no memory.
pub(crate) fn close_all(deliveries: &mut Deliveries, numbers: LiveOf<'_>, ver: u64, t: u64)
    requires distinct { AreDistinct numbers }
    ensures { (v n : ℕ) → pair_at v n deliveries.new ≡ cond (is_among ver numbers.entry v n) None (pair_at v n deliveries.old) }
{
    for n in numbers {
        close_one(deliveries, n, ver, t);
    }
}

/// Closes the pair of a version and a lease, where it is open.
fn close_one(deliveries: &mut Deliveries, n: u64, ver: u64, t: u64)
    ensures { (v m : ℕ) → pair_at v m deliveries.new ≡ cond (is_here ver n v m) None (pair_at v m deliveries.old) }
{
    if deliveries.fate(ver, n, t).is_some() {
        deliveries.close(ver, n);
    }
}

/// A number of seconds as a time.
fn seconds(granted: u32) -> u64
    ensures value { result ≡ granted }
    ensures small { result < 2 ^ 32 }
{
    u64::from(granted)
}
