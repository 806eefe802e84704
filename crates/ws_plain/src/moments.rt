// The greatest serial and numbers of a history, with those that a Tally carries.
ghost use Rattle.std.specs.Prelude.{◌≡◌};
ghost use Rattle.ws_model.specs.Account.{tallies};
ghost use Rattle.ws_model.specs.Moment.{intent_number, intent_number_in, serial, serial_in, version_number, version_number_in};
ghost use Rattle.ws_plain.specs.Past.{past};
ghost use Rattle.ws_plain.specs.Tallies.{no_tally, tally_in};

use crate::past::newest;
use ws_model::{Event, Tally, What};

fn serial_in(event: &Event) -> u64
    ensures { result ≡ serial_in event.now event.now.what }
{
    match &event.what {
        What::Tally(tally) => event.serial.max(tally.serial),
        _ => event.serial,
    }
}

/// The greatest serial, or 0.
pub(crate) fn serial(events: &[Event]) -> u64
    ensures { result ≡ serial (past events.now) }
{
    match newest(events) {
        None => 0,
        Some((event, earlier)) => serial_in(event).max(serial(earlier)),
    }
}

fn intent_number_in(what: &What) -> u64
    ensures { result ≡ intent_number_in what.now }
{
    match what {
        What::Asked(intent) => intent.n,
        What::Tally(tally) => tally.intent,
        _ => 0,
    }
}

/// The greatest number of an intent, or 0.
pub(crate) fn intent_number(events: &[Event]) -> u64
    ensures { result ≡ intent_number (past events.now) }
{
    match newest(events) {
        None => 0,
        Some((event, earlier)) => intent_number_in(&event.what).max(intent_number(earlier)),
    }
}

fn version_number_in(what: &What) -> u64
    ensures { result ≡ version_number_in what.now }
{
    match what {
        What::Fetched(version) => version.ver,
        What::Tally(tally) => tally.version,
        _ => 0,
    }
}

/// The greatest number of a version, or 0.
pub(crate) fn version_number(events: &[Event]) -> u64
    ensures { result ≡ version_number (past events.now) }
{
    match newest(events) {
        None => 0,
        Some((event, earlier)) => version_number_in(&event.what).max(version_number(earlier)),
    }
}

fn no_tally() -> Tally
    ensures { result ≡ no_tally }
{
    Tally {
        now: 0,
        serial: 0,
        intent: 0,
        version: 0,
        answered: 0,
        expired: 0,
        unsubscribed: 0,
        replaced: 0,
        gone: 0,
        spent: 0,
        revoked: 0,
    }
}

/// The Tally, or one of zeros.
pub(crate) fn tally_in(events: &[Event]) -> Tally
    ensures { result ≡ tally_in (tallies (past events.now)) }
{
    let Some((event, earlier)) = newest(events) else {
        return no_tally();
    };
    match &event.what {
        What::Tally(tally) => *tally,
        _ => tally_in(earlier),
    }
}
