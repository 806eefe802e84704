// Walking back over a history.
ghost use Rattle.std.specs.Prelude.{◌≡◌, ◌+◌, [], ◌∷◌, length, MatchOption, IfSome, IfOk};
ghost use Rattle.ws_plain.specs.Past.{past};

use ws_model::{Event, NoMemory};

/// The newest event and those before it, where there are any.
pub(crate) fn newest(events: &[Event]) -> Option<(&Event, &[Event])>
    ensures past { MatchOption result (past events.now ≡ []) (λ p. past events.now ≡ p.0.now ∷ past p.1.now) }
    ensures shorter { IfSome result (λ p. length p.1.now + 1 ≡ length events.now) }
{
    let (event, earlier) = events.split_last()?;
    Some((event, earlier))
}

/// A list with one more item at its front.
pub(crate) fn in_front<T: Drop>(item: T, mut list: Vec<T>) -> Result<Vec<T>, NoMemory>
    ensures { IfOk result (λ v. v.items ≡ item ∷ list.items) }
{
    list.insert(0, item)?;
    Ok(list)
}
