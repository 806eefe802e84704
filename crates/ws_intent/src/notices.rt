// The owed denial notices, by number.
ghost use Rattle.std.specs.Prelude.{◌≡◌, not, ℕ, OnOk, OnErr, Some, None, false, find, cond, ◌==◌};
ghost use Rattle.std.specs.Map.{keys_of};
ghost use Rattle.std.specs.BTreeMap.{IsOrdered, IsUnchanged};
ghost use Rattle.std.specs.Ordering.{nat_cmp};
ghost use Rattle.ws_model.specs.Due.{is_out, same_work};
ghost use Rattle.ws_model.specs.declared.work.Work.TheVariants.{Notice};
ghost use Rattle.ws_intent.specs.Rows.{number_at, without, with_row, denied_intent, is_last_notice, missed_notice, after_notice_miss};

use crate::rows::Denial;
use std::collections::BTreeMap;
use ws_model::{Held, Intent, NoMemory, Work};

pub type Notices = BTreeMap<u64, Denial>;

/// Puts a notice at its number, or leaves all as it was.
pub fn put(notices: &mut Notices, n: u64, denial: Denial) -> Result<(), NoMemory>
    ensures entries { OnOk result (notices.new.entries ≡ with_row n denial notices.old.entries) }
    ensures rows { OnOk result ((q : ℕ) → number_at q notices.new.entries ≡ cond (q == n) (Some denial) (number_at q notices.old.entries)) }
    ensures ordered { IsOrdered nat_cmp notices.new }
    ensures err { OnErr result (IsUnchanged notices.old notices.new) }
{
    notices.insert(n, denial)?;
    Ok(())
}

/// Takes a notice out.
pub fn take(notices: &mut Notices, n: u64) -> Option<Intent>
    ensures left { result ≡ denied_intent (number_at n notices.old.entries) }
    ensures entries { notices.new.entries ≡ without n notices.old.entries }
    ensures rows { (q : ℕ) → number_at q notices.new.entries ≡ cond (q == n) None (number_at q notices.old.entries) }
    ensures ordered { IsOrdered nat_cmp notices.new }
{
    match notices.remove(&n) {
        Some(denial) => Some(denial.intent),
        None => None,
    }
}

/// Counts a notice without a reply, and gives the intent where it was the third and so left.
pub fn miss(notices: &mut Notices, n: u64) -> Option<Intent>
    ensures left { result ≡ cond (is_last_notice (number_at n notices.old.entries)) (denied_intent (number_at n notices.old.entries)) None }
    ensures entries { notices.new.entries ≡ after_notice_miss n notices.old.entries }
    ensures rows { (q : ℕ) → number_at q notices.new.entries ≡ cond (q == n) (missed_notice (number_at n notices.old.entries)) (number_at q notices.old.entries) }
    ensures ordered { IsOrdered nat_cmp notices.new }
{
    if is_last(notices, n) {
        return take(notices, n);
    }
    unheard_more(notices, n);
    None
}

// Whether the next notice without a reply is the third.
fn is_last(notices: &Notices, n: u64) -> bool
    ensures { result ≡ is_last_notice (number_at n notices.now.entries) }
{
    match notices.get(&n) {
        Some(denial) => denial.unheard >= 2,
        None => false,
    }
}

fn unheard_more(notices: &mut Notices, n: u64)
    requires more { is_last_notice (number_at n notices.old.entries) ≡ false }
    ensures entries { notices.new.entries ≡ after_notice_miss n notices.old.entries }
    ensures rows { (q : ℕ) → number_at q notices.new.entries ≡ cond (q == n) (missed_notice (number_at n notices.old.entries)) (number_at q notices.old.entries) }
    ensures ordered { IsOrdered nat_cmp notices.new }
{
    if let Some(denial) = notices.get_mut(&n) {
        denial.unheard += 1;
    }
}

/// The first number whose notice isn't held.
pub fn first_due(notices: &Notices, held: &Held) -> Option<u64>
    ensures { result ≡ find (λ n. not (is_out held.now (Notice n))) (keys_of notices.now.entries) }
{
    for (n, _) in notices {
        if !is_held(held.as_slice(), *n) {
            return Some(*n);
        }
    }
    None
}

fn is_held(held: &[Work], n: u64) -> bool
    ensures { result ≡ is_out held.now (Notice n) }
{
    held.iter().any(|work| is_notice(work, n))
}

fn is_notice(work: &Work, n: u64) -> bool
    ensures { result ≡ same_work (Notice n) work.now }
{
    match work {
        Work::Notice { n: other } => n == *other,
        _ => false,
    }
}
