// What the outcome of a verification makes (WebSub, section 5.3).
ghost use Rattle.std.specs.Prelude.{◌≡◌, ◌<◌, ◌^◌, ℕ, List, Option, ◌&&◌, bytes_eq, is_some, true};
ghost use Rattle.std.specs.Option.{option_copied};
ghost use Rattle.ws_model.specs.declared.event.Event.{Event};
ghost use Rattle.ws_model.specs.Legal.{is_confirmed_in_time, pending_of};
ghost use Rattle.ws_model.specs.Verdict.{in_time_one, is_success, verify_verdict};
ghost use Rattle.ws_core_tables.specs.Stands.{StandsFor};

use crate::outcomes::is_success;
use ws_core_tables::Tables;
use ws_model::{Intent, Mode, Outcome, Reply, What};

/// Whether an intent is confirmed in time at `t` by a verification that was drawn at `sent`: a
/// subscription before its lease has expired, which is measured from there (own).
fn is_in_time(intent: &Intent, sent: u64, t: u64) -> bool
    requires in_time { t < 2 ^ 48 }
    ensures { result ≡ is_confirmed_in_time sent t intent.now }
{
    match intent.mode {
        Mode::Off => true,
        Mode::On => t < sent.saturating_add(u64::from(intent.granted)),
    }
}

/// Whether a pending intent, where there is one, is confirmed in time.
fn is_one_in_time(intent: Option<&Intent>, sent: u64, t: u64) -> bool
    requires in_time { t < 2 ^ 48 }
    ensures { result ≡ in_time_one sent t (option_copied intent.entry) }
{
    match intent {
        Some(intent) => is_in_time(intent, sent, t),
        None => true,
    }
}

/// Whether a reply confirms: it is a 2xx whose body is the challenge, and it came in time.
fn is_confirmation(reply: &Reply, challenge: &[u8], in_time: bool) -> bool
    ensures { result ≡ (is_success reply.now.code && bytes_eq reply.now.body challenge.now && in_time) }
{
    is_success(reply.code) && reply.body.as_slice() == challenge && in_time
}

/// What the outcome of the verification of a pending intent makes: it is confirmed by a 2xx whose body
/// is the challenge, in time, and declined by any other reply.
pub(crate) fn verification(
    tables: &Tables,
    t: u64,
    n: u64,
    sent: u64,
    challenge: &[u8; 40],
    outcome: &Outcome,
) -> What
    requires in_time { t < 2 ^ 48 }
    ensures stands { (h : List Event) (since : ℕ) → StandsFor h since tables.now → is_some (pending_of h n) ≡ true → result ≡ verify_verdict h t n sent challenge.now outcome.now }
{
    let Outcome::Reply(reply) = outcome else {
        return What::Unheard { n };
    };
    let in_time = is_one_in_time(tables.pending_intent(n), sent, t);
    if is_confirmation(reply, challenge.as_slice(), in_time) {
        What::Confirmed { n, sent }
    } else {
        What::Declined {
            n,
            code: reply.code,
        }
    }
}
