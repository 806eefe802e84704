// What became of pairs, and how many ended so.
ghost use Rattle.std.specs.Prelude.{◌≡◌};
ghost use Rattle.ws_fate.specs.Totals.{bump, none, with_one, of_tally};
ghost use Rattle.ws_fate.specs.declared.totals.Standing.TheVariants.{Ended};

use ws_model::{Cause, Tally};

/// What became of a pair: it is still open, it was answered, or it ended by a cause.
#[derive(Clone, Copy, Debug, PartialEq, Eq)]
pub enum Standing {
    Open,
    Answered,
    Ended(Cause),
}

/// How many pairs were answered, and how many ended by each cause. A number stops at 2^64 - 1.
#[derive(Clone, Copy, Debug, PartialEq, Eq)]
pub struct Totals {
    pub answered: u64,
    pub expired: u64,
    pub unsubscribed: u64,
    pub replaced: u64,
    pub gone: u64,
    pub spent: u64,
    pub revoked: u64,
}

impl Totals {
    /// No pairs.
    pub fn none() -> Totals
        ensures { result ≡ none }
    {
        Totals {
            answered: 0,
            expired: 0,
            unsubscribed: 0,
            replaced: 0,
            gone: 0,
            spent: 0,
            revoked: 0,
        }
    }

    /// The pairs that a compaction forgot.
    pub fn of_tally(tally: &Tally) -> Totals
        ensures { result ≡ of_tally tally.entry.now }
    {
        Totals {
            answered: tally.answered,
            expired: tally.expired,
            unsubscribed: tally.unsubscribed,
            replaced: tally.replaced,
            gone: tally.gone,
            spent: tally.spent,
            revoked: tally.revoked,
        }
    }

    /// Counts one more pair that was answered or ended. An open one isn't counted.
    pub fn add(&mut self, how: Standing)
        ensures { self.new ≡ with_one how self.old }
    {
        match how {
            Standing::Open => {}
            Standing::Answered => self.answered = self.answered.saturating_add(1),
            Standing::Ended(cause) => self.add_ended(cause),
        }
    }

    fn add_ended(&mut self, cause: Cause)
        ensures { self.new ≡ with_one (Ended cause) self.old }
    {
        match cause {
            Cause::Expired => self.expired = self.expired.saturating_add(1),
            Cause::Unsubscribed => self.unsubscribed = self.unsubscribed.saturating_add(1),
            Cause::Replaced => self.replaced = self.replaced.saturating_add(1),
            Cause::Gone => self.gone = self.gone.saturating_add(1),
            Cause::Spent => self.spent = self.spent.saturating_add(1),
            Cause::Revoked => self.revoked = self.revoked.saturating_add(1),
        }
    }
}
