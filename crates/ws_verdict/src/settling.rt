// What the outcome of a ticket's exchange makes.
ghost use Rattle.std.specs.Prelude.{◌≡◌, ◌≤◌, ◌<◌, ◌^◌, ℕ, List, IfOk};
ghost use Rattle.ws_model.specs.declared.event.Event.{Event};
ghost use Rattle.ws_model.specs.Legal.{Legal};
ghost use Rattle.ws_model.specs.Verdict.{verdict};
ghost use Rattle.ws_core_tables.specs.Stands.{StandsFor};
ghost use Rattle.ws_verdict.specs.Settles.{CanSettle, IsLinkOf};

use crate::fetches::fetch;
use crate::notices::notice;
use crate::pushes::push;
use crate::verifications::verification;
use std::alloc::Global;
use ws_core_tables::Tables;
use ws_model::{Fate, NoMemory, Outcome, Settled, Work};

/// What the outcome of the exchange of a ticket makes at `t` of its work, that was drawn at `sent` with this
/// challenge (WebSub, sections 5.3 and 7; the misses, the limits and the own link are own).
///
/// `fate` is that at `t` of the pair of a push. It isn't looked at for other work.
pub fn settle(
    alloc: Global,
    tables: &Tables,
    fate: Option<Fate>,
    t: u64,
    work: &Work,
    sent: u64,
    challenge: &[u8; 40],
    outcome: &Outcome,
) -> Result<Settled, NoMemory>
    requires in_time { t < 2 ^ 48 }
    ensures stands { (h : List Event) (since : ℕ) (link : List ℕ) → StandsFor h since tables.now → Legal h → since ≤ t → CanSettle h t work.now fate → IsLinkOf work.now outcome.now link →
        IfOk result (λ s. s ≡ verdict h t work.now sent challenge.now link outcome.now) }
{
    match work {
        Work::Verify { n } => {
            let what = verification(tables, t, *n, sent, challenge, outcome);
            Ok(Settled::Event(what))
        }
        Work::Notice { n } => Ok(Settled::Event(notice(*n, outcome))),
        Work::Fetch { topic, upto } => {
            let what = fetch(alloc, tables, t, topic, *upto, outcome)?;
            Ok(Settled::Event(what))
        }
        Work::Push { ver, lease } => Ok(push(fate, *ver, *lease, outcome)),
    }
}
