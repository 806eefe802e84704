// Whether there is room for one more.
ghost use Rattle.std.specs.Prelude.{◌≡◌, ◌≤◌, ◌<◌, ◌^◌, ◌+◌, ◌-◌, ◌==◌, ℕ, suc, List, length, nat_lt, OnOk, IfOk};
ghost use Rattle.ws_model.specs.declared.event.Event.{Event};
ghost use Rattle.ws_model.specs.declared.answers.Kind.TheVariants.{Pending, Leases, Numbers};
ghost use Rattle.ws_model.specs.Answer.{held_leases, lease_limit, pending_limit};
ghost use Rattle.ws_model.specs.Intents.{pending};
ghost use Rattle.ws_model.specs.Legal.{Legal, number_limit};
ghost use Rattle.ws_model.specs.Moment.{intent_number, serial};
ghost use Rattle.ws_core_tables.specs.Stands.{StandsFor};
ghost use Rattle.ws_answer.specs.Judged.{IsRoom};

use crate::CoreFault;
use ws_core_tables::Tables;
use ws_model::Kind;

/// The greatest number of pending intents.
const PENDING_LIMIT: u64 = 65_536;

/// The greatest number of live leases and pending subscriptions together.
const LEASE_LIMIT: u64 = 262_144;

/// The greatest serial, and the greatest number of an intent.
const LAST_NUMBER: u64 = 9_223_372_036_854_775_807;

/// Whether one more intent may be pending.
pub(crate) fn pending_room(tables: &Tables) -> Result<(), CoreFault>
    ensures room { (h : List Event) (since : ℕ) → StandsFor h since tables.now → Legal h → IsRoom (nat_lt pending_limit (length (pending h) + 1)) Pending (length (pending h)) 1 pending_limit result }
    ensures few { OnOk result (length tables.now.intents.pending < 2 ^ 32) }
{
    let held = tables.pending();
    if held >= PENDING_LIMIT {
        return Err(CoreFault::Full {
            kind: Kind::Pending,
            held,
            asked: 1,
            limit: PENDING_LIMIT,
        });
    }
    Ok(())
}

/// Whether one more lease may be live, or asked for.
pub(crate) fn lease_room(tables: &Tables, t: u64) -> Result<(), CoreFault>
    requires in_time { t < 2 ^ 48 }
    requires few { length tables.now.intents.pending < 2 ^ 32 }
    ensures room { (h : List Event) (since : ℕ) → StandsFor h since tables.now → Legal h → since ≤ t → IsRoom (nat_lt lease_limit (held_leases h t + 1)) Leases (held_leases h t) 1 lease_limit result }
{
    let held = tables.held_leases(t);
    if held >= LEASE_LIMIT {
        return Err(CoreFault::Full {
            kind: Kind::Leases,
            held,
            asked: 1,
            limit: LEASE_LIMIT,
        });
    }
    Ok(())
}

/// Whether so many more events may get serials.
pub(crate) fn serial_room(tables: &Tables, asked: u64) -> Result<(), CoreFault>
    requires few { asked < 2 ^ 63 }
    ensures room { (h : List Event) (since : ℕ) → StandsFor h since tables.now → Legal h → IsRoom (nat_lt (number_limit - 1) (serial h + asked)) Numbers (serial h) asked (number_limit - 1) result }
{
    let held = tables.serial();
    if held > LAST_NUMBER - asked {
        return Err(CoreFault::Full {
            kind: Kind::Numbers,
            held,
            asked,
            limit: LAST_NUMBER,
        });
    }
    Ok(())
}

/// The number of the next intent, where there is one.
pub(crate) fn next_intent(tables: &Tables) -> Result<u64, CoreFault>
    ensures room { (h : List Event) (since : ℕ) → StandsFor h since tables.now → Legal h → IsRoom (intent_number h == number_limit - 1) Numbers (intent_number h) 1 (number_limit - 1) result }
    ensures next { (h : List Event) (since : ℕ) → StandsFor h since tables.now → IfOk result (λ n. n ≡ suc (intent_number h)) }
{
    let held = tables.intent_number();
    if held >= LAST_NUMBER {
        return Err(CoreFault::Full {
            kind: Kind::Numbers,
            held,
            asked: 1,
            limit: LAST_NUMBER,
        });
    }
    Ok(held + 1)
}
