// The numbers of an account, and what they leave.
ghost use Rattle.std.specs.Prelude.{◌≡◌};
ghost use Rattle.ws_fate.specs.Totals.{of_account};
ghost use Rattle.ws_forgotten.specs.Forgotten.{has_stopped, less};

use ws_fate::Totals;
use ws_model::Account;

/// How many pairs ended in each way, as the account says it.
pub(crate) fn totals_of(account: &Account) -> Totals
    ensures { result ≡ of_account account.now }
{
    Totals {
        answered: account.answered,
        expired: account.expired,
        unsubscribed: account.unsubscribed,
        replaced: account.replaced,
        gone: account.gone,
        spent: account.spent,
        revoked: account.revoked,
    }
}

/// Whether a number has stopped at 2^64 - 1, so that there may be more than it says.
pub(crate) fn has_stopped(totals: Totals) -> bool
    ensures { result ≡ has_stopped totals }
{
    totals.answered == u64::MAX
        || totals.expired == u64::MAX
        || totals.unsubscribed == u64::MAX
        || totals.replaced == u64::MAX
        || totals.gone == u64::MAX
        || totals.spent == u64::MAX
        || totals.revoked == u64::MAX
}

/// Of each number what is left without the other.
pub(crate) fn less(all: Totals, kept: Totals) -> Totals
    ensures { result ≡ less all kept }
{
    Totals {
        answered: all.answered.saturating_sub(kept.answered),
        expired: all.expired.saturating_sub(kept.expired),
        unsubscribed: all.unsubscribed.saturating_sub(kept.unsubscribed),
        replaced: all.replaced.saturating_sub(kept.replaced),
        gone: all.gone.saturating_sub(kept.gone),
        spent: all.spent.saturating_sub(kept.spent),
        revoked: all.revoked.saturating_sub(kept.revoked),
    }
}
