// The events of pushes, made from the tries that their pairs have.
ghost use Rattle.std.specs.Prelude.{◌≡◌, ◌++◌, ℕ, List, map, IfOk, OnOk};
ghost use Rattle.ws_model.specs.declared.event.Event.{Event};
ghost use Rattle.ws_model.specs.Legal.{Legal};
ghost use Rattle.ws_tries.specs.Stands.{HaveRooms, StandsFor, event_of};
ghost use Rattle.ws_kept.specs.Stands.{AreKept};
ghost use Rattle.ws_gather.specs.Gathered.{AreGathered};
ghost use Rattle.ws_tried.specs.Kept.{is_kept_push};

use std::alloc::Global;
use ws_kept::Kept;
use ws_model::{Event, NoMemory, What};
use ws_tries::{Tries, Try};

/// The events of the pushes that are kept, those of a kept version to a kept lease, in any order.
pub fn kept_pushes(alloc: Global, tries: &Tries, kept: &Kept) -> Result<Vec<Event>, NoMemory>
    ensures gathered { (h : List Event) (t : ℕ) → Legal h → StandsFor h tries.now → HaveRooms h t tries.now → AreKept h t kept.now → IfOk result (λ events. AreGathered h (is_kept_push h t) events.items) }
{
    let mut events = Vec::new(alloc);
    for (pair, room) in tries.rooms() {
        if kept.has_pair(pair.0, pair.1) {
            add_pushes(&mut events, pair.0, pair.1, room.as_slice())?;
        }
    }
    Ok(events)
}

/// Adds the events of a pair's tries behind the others.
pub(crate) fn add_pushes(
    events: &mut Vec<Event>,
    ver: u64,
    lease: u64,
    tries: &[Try],
) -> Result<(), NoMemory>
    ensures { OnOk result (events.new.items ≡ events.old.items ++ map (event_of ver lease) tries.now) }
{
    for made in tries {
        let how = made.how;
        events.push(Event {
            serial: made.serial,
            t: made.t,
            what: What::Pushed { ver, lease, how },
        })?;
    }
    Ok(())
}
