// Gathered events in the order of their history.
ghost use Rattle.std.specs.Prelude.{◌≡◌, Bool, List, filter, reverse};
ghost use Rattle.std.specs.List.Sorted.{IsNonDecreasingBy, IsPermutation};
ghost use Rattle.ws_model.specs.Legal.{Legal};
ghost use Rattle.ws_model.specs.declared.event.Event.{Event};
ghost use Rattle.ws_gather.specs.Gathered.{AreGathered};

use ws_model::Event;

/// Puts events by their serials, the lowest first. Events that were gathered from one legal history
/// are then in its order, the oldest first. It takes no memory.
pub fn in_order(mut events: Vec<Event>) -> Vec<Event>
    ensures gathered { (h : List Event) (test : Event → Bool) → Legal h → AreGathered h test events.items → result.items ≡ reverse (filter test h) }
    ensures exchanged { (h : List Event) (test : Event → Bool) → Legal h → IsPermutation events.items (filter test h) → result.items ≡ reverse (filter test h) }
    ensures permutation { IsPermutation events.items result.items }
    ensures rising { IsNonDecreasingBy (λ e. e.serial) result.items }
{
    events.sort_unstable_by_key(|event| event.serial);
    events
}
