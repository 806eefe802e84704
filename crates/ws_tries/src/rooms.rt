// Rooms that are made for several pairs together or not at all, and given back.
ghost use Rattle.std.specs.Prelude.{◌≡◌, ◌<◌, ◌^◌, ◌==◌, ℕ, [], None, Some, cond, false, true, OnOk, OnErr};
ghost use Rattle.ws_tries.specs.Rows.{is_listed, tries_at};

use crate::held::Held;
use std::alloc::Global;
use ws_model::NoMemory;

/// Gives each of these pairs a room without tries, all of them or none.
pub(crate) fn make_all(alloc: Global, held: &mut Held, pairs: &[(u64, u64)]) -> Result<(), NoMemory>
    requires new { (v n : ℕ) → is_listed v n pairs.now ≡ true → tries_at v n held.old ≡ None }
    ensures look { OnOk result ((v n : ℕ) → tries_at v n held.new ≡ cond (is_listed v n pairs.now) (Some []) (tries_at v n held.old)) }
    ensures err { OnErr result (held.new ≡ held.old) }
{
    // How the pairs are held is known from their number.
    let _ = held.len();
    match make_each(alloc, held, pairs) {
        Ok(()) => Ok(()),
        Err(fault) => {
            give_back_each(held, pairs);
            let _ = held.len();
            Err(fault)
        }
    }
}

// At an error some of the pairs have one.
fn make_each(alloc: Global, held: &mut Held, pairs: &[(u64, u64)]) -> Result<(), NoMemory>
    ensures look { OnOk result ((v n : ℕ) → tries_at v n held.new ≡ cond (is_listed v n pairs.now) (Some []) (tries_at v n held.old)) }
    ensures others { (v n : ℕ) → is_listed v n pairs.now ≡ false → tries_at v n held.new ≡ tries_at v n held.old }
{
    for pair in pairs {
        held.make(alloc, pair.0, pair.1)?;
    }
    Ok(())
}

/// Takes the rooms of these pairs away, where they have one.
pub(crate) fn give_back_each(held: &mut Held, pairs: &[(u64, u64)])
    ensures look { (v n : ℕ) → tries_at v n held.new ≡ cond (is_listed v n pairs.now) None (tries_at v n held.old) }
{
    for pair in pairs {
        held.give_back(pair.0, pair.1);
    }
}

/// Takes the rooms of all pairs of a version away.
pub(crate) fn give_back_version(held: &mut Held, ver: u64)
    requires { ver < 2 ^ 63 }
    ensures look { (v n : ℕ) → tries_at v n held.new ≡ cond (ver == v) None (tries_at v n held.old) }
{
    while let Some(lease) = held.first_lease(ver) {
        held.give_back(ver, lease);
    }
}

/// Takes the rooms of all pairs of a lease away.
pub(crate) fn give_back_lease(held: &mut Held, lease: u64)
    ensures look { (v n : ℕ) → tries_at v n held.new ≡ cond (lease == n) None (tries_at v n held.old) }
{
    while let Some(ver) = held.next_version(lease, 0) {
        held.give_back(ver, lease);
    }
}
