// The rooms are gone over little by little, and those of versions that no compaction keeps are given back: so
// also where a version was owed to nobody any more because leases expired, which no event says. It takes no
// memory.
ghost use Rattle.std.specs.Prelude.{◌≡◌, false};
ghost use Rattle.ws_core.specs.Passing.{StayGone};
ghost use Rattle.ws_core.specs.Sweeping.{LeavesVersions};

use ws_kept::is_kept;
use ws_ledger::Ledger;
use ws_tries::Tries;

/// The number of a version is below it.
const NUMBER_LIMIT: u64 = 9_223_372_036_854_775_808;

/// Where a round over the rooms stands: it goes on with the first pair that has a room, by version and lease,
/// from this one on.
#[derive(Clone, Copy)]
pub(crate) struct Round {
    ver: u64,
    lease: u64,
    /// Whether a pair of the version was found that is owed.
    is_owed: bool,
}

impl Round {
    /// A round that begins with a version.
    pub(crate) fn at(ver: u64) -> Round
        ensures { result ≡ record { ver = ver; lease = 0; is_owed = false } }
    {
        Round {
            ver,
            lease: 0,
            is_owed: false,
        }
    }
}

/// Takes the rooms of a version away, where no compaction at `t`, in seconds, keeps it.
fn free_version(ledger: &Ledger, tries: &mut Tries, ver: u64, t: u64)
    ensures leaves { LeavesVersions t ledger.now tries.old tries.new }
    ensures none { StayGone tries.old tries.new }
{
    if ver < NUMBER_LIMIT && !is_kept(ledger.tables(), tries, ver, t) {
        tries.give_back_version(ver);
    }
}

/// Looks at the next room. Where it is of another version than the last one, and of that none was found that is
/// owed, all rooms of that one are taken away, if no compaction at `t`, in seconds, keeps it.
pub(crate) fn look_at_rooms(ledger: &Ledger, tries: &mut Tries, round: &mut Round, t: u64)
    ensures leaves { LeavesVersions t ledger.now tries.old tries.new }
    ensures none { StayGone tries.old tries.new }
{
    match tries.next_pair(round.ver, round.lease) {
        Some((ver, lease)) if ver == round.ver => {
            round.is_owed = round.is_owed || ledger.tables().is_owed(ver, lease, t);
            round.lease = lease.saturating_add(1);
        }
        next => {
            if !round.is_owed {
                free_version(ledger, tries, round.ver, t);
            }
            *round = Round::at(first_version(next));
        }
    }
}

/// The version of a pair, or 0.
fn first_version(pair: Option<(u64, u64)>) -> u64 {
    match pair {
        Some((ver, _)) => ver,
        None => 0,
    }
}
