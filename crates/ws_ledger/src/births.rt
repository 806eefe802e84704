// Pairs that are born, all or none of them.
ghost use Rattle.std.specs.Prelude.{◌≡◌, ◌+◌, ℕ, None, Some, IfSome, OnOk, OnErr, cond, true, false, length};
ghost use Rattle.ws_fate.specs.declared.totals.Standing.TheVariants.{Open};
ghost use Rattle.ws_fate.specs.Rows.{is_here, standing_at};
ghost use Rattle.ws_ledger.specs.Pairs.{AreApart, is_listed};

use ws_fate::Fates;
use ws_model::NoMemory;

/// Adds these pairs, each a version and a lease, which are open. At an error what is kept is as before.
pub(crate) fn bear_all(fates: &mut Fates, pairs: &[(u64, u64)]) -> Result<(), NoMemory>
    requires apart { AreApart pairs.now }
    requires new { (v n : ℕ) → is_listed v n pairs.now ≡ true → standing_at v n fates.old ≡ None }
    ensures look { OnOk result ((v n : ℕ) → standing_at v n fates.new ≡ cond (is_listed v n pairs.now) (Some Open) (standing_at v n fates.old)) }
    ensures totals { OnOk result (fates.new.totals ≡ fates.old.totals) }
    ensures err { OnErr result (fates.new ≡ fates.old) }
{
    // How the pairs are held is known from their number.
    let _ = fates.count();
    match bear_each(fates, pairs) {
        Ok(()) => Ok(()),
        Err(fault) => {
            unbear_all(fates, pairs);
            let _ = fates.count();
            Err(fault)
        }
    }
}

/// Adds these pairs, which are open. At an error some of them are there.
fn bear_each(fates: &mut Fates, pairs: &[(u64, u64)]) -> Result<(), NoMemory>
    requires apart { AreApart pairs.now }
    requires new { (v n : ℕ) → is_listed v n pairs.now ≡ true → standing_at v n fates.old ≡ None }
    ensures look { OnOk result ((v n : ℕ) → standing_at v n fates.new ≡ cond (is_listed v n pairs.now) (Some Open) (standing_at v n fates.old)) }
    ensures others { (v n : ℕ) → is_listed v n pairs.now ≡ false → standing_at v n fates.new ≡ standing_at v n fates.old }
    ensures are_open { (v n : ℕ) → is_listed v n pairs.now ≡ true → IfSome (standing_at v n fates.new) (λ s. s ≡ Open) }
    ensures totals { fates.new.totals ≡ fates.old.totals }
{
    for pair in pairs {
        fates.born(pair.0, pair.1)?;
    }
    Ok(())
}

/// Takes these pairs out, where they are there, as if they hadn't been born. It takes no memory.
pub(crate) fn unbear_all(fates: &mut Fates, pairs: &[(u64, u64)])
    requires apart { AreApart pairs.now }
    requires are_open { (v n : ℕ) → is_listed v n pairs.now ≡ true → IfSome (standing_at v n fates.old) (λ s. s ≡ Open) }
    ensures look { (v n : ℕ) → standing_at v n fates.new ≡ cond (is_listed v n pairs.now) None (standing_at v n fates.old) }
    ensures totals { fates.new.totals ≡ fates.old.totals }
{
    for pair in pairs {
        unbear_one(fates, pair.0, pair.1);
    }
}

/// Takes a pair out, where it is there.
fn unbear_one(fates: &mut Fates, ver: u64, lease: u64)
    requires is_open { IfSome (standing_at ver lease fates.old) (λ s. s ≡ Open) }
    ensures look { (v n : ℕ) → standing_at v n fates.new ≡ cond (is_here ver lease v n) None (standing_at v n fates.old) }
    ensures totals { fates.new.totals ≡ fates.old.totals }
{
    if fates.get(ver, lease).is_some() {
        fates.unborn(ver, lease);
    }
}
