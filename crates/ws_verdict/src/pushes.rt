// What the outcome of a push makes.
ghost use Rattle.std.specs.Prelude.{◌≡◌};
ghost use Rattle.ws_model.specs.Verdict.{fate_or_expired, push_answer, push_end, push_verdict};

use crate::outcomes::{is_success, miss_number};
use ws_model::{Cause, Fate, How, Outcome, Settled, What};

/// How a push ended that was answered so: a 2xx is done, a 410 ends the lease (WebSub, section 7), and
/// any other status is a miss.
fn how_answered(code: u16) -> How
    ensures { result ≡ push_answer code }
{
    if is_success(code) {
        return How::Done;
    }
    if code == 410 {
        How::Gone
    } else {
        How::Missed(code)
    }
}

/// How a push ended.
fn how_ended(outcome: &Outcome) -> How
    ensures { result ≡ push_end outcome.now }
{
    match outcome {
        Outcome::Reply(reply) => how_answered(reply.code),
        _ => How::Missed(miss_number(outcome)),
    }
}

/// What the outcome of a push of a version to a lease makes, by the fate of that pair: nothing where it
/// isn't owed any more.
pub(crate) fn push(fate: Option<Fate>, ver: u64, lease: u64, outcome: &Outcome) -> Settled
    ensures { result ≡ push_verdict (fate_or_expired fate) ver lease outcome.now }
{
    match fate {
        Some(Fate::Owed { .. }) => {
            let how = how_ended(outcome);
            Settled::Event(What::Pushed { ver, lease, how })
        }
        Some(fate) => Settled::Stale(fate),
        None => Settled::Stale(Fate::Ended(Cause::Expired)),
    }
}
