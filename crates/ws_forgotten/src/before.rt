// What earlier compactions forgot.
ghost use Rattle.std.specs.Prelude.{◌≡◌};
ghost use Rattle.ws_forgotten.specs.Forgotten.{told, told_first};
ghost use Rattle.ws_sweep.specs.Rows.{members};

use ws_fate::Totals;
use ws_model::{Event, What};
use ws_sweep::Sweep;

/// How many pairs earlier compactions forgot: what the Tally says that the log begins with.
pub(crate) fn forgotten_before(log: &Sweep<Event>) -> Totals
    ensures { result ≡ told_first (members log.now) }
{
    match log.looked().first() {
        Some(event) => told(&event.what),
        None => told_by_first(log.left()),
    }
}

/// What the first of these events says of forgotten pairs.
fn told_by_first(events: &[Event]) -> Totals
    ensures { result ≡ told_first events.now }
{
    match events.first() {
        Some(event) => told(&event.what),
        None => Totals::none(),
    }
}

/// What a Tally says of forgotten pairs, and nothing where it is another kind of event.
fn told(what: &What) -> Totals
    ensures { result ≡ told what.now }
{
    match what {
        What::Tally(tally) => Totals::of_tally(tally),
        _ => Totals::none(),
    }
}
