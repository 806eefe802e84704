// The greatest time, serial and numbers so far.
ghost use Rattle.std.specs.Prelude.{◌≡◌, ◌<◌, ◌^◌, true, List, []};
ghost use Rattle.ws_model.specs.declared.event.Event.{Event};
ghost use Rattle.ws_model.specs.Legal.{is_in_order};
ghost use Rattle.ws_model.specs.Moment.{asked_number, fetched_number, intent_number_in, serial_in, time_in, version_number_in};
ghost use Rattle.ws_core_tables.specs.Numbers.{all_in, greater, numbers_of, own_in, with_event};

use ws_model::{Event, What};

/// Serials and numbers stay below this.
const NUMBER_LIMIT: u64 = 9_223_372_036_854_775_808;

/// Times stay below this.
const TIME_LIMIT: u64 = 281_474_976_710_656;

/// A time in seconds, a serial, a number of an intent and one of a version: of each the greatest.
#[derive(Clone, Copy, Debug, PartialEq, Eq)]
pub struct Greatest {
    pub time: u64,
    pub serial: u64,
    pub intent: u64,
    pub version: u64,
}

/// The greatest numbers of the events alone, and of them with what a Tally carries.
#[derive(Clone, Copy, Debug, PartialEq, Eq)]
pub struct Numbers {
    /// Whether anything has happened.
    pub begun: bool,
    pub own: Greatest,
    pub all: Greatest,
}

/// The numbers of an event itself.
fn own_in(event: &Event) -> Greatest
    ensures { result ≡ own_in event.now }
{
    let (intent, version) = match &event.what {
        What::Asked(intent) => (intent.n, 0),
        What::Fetched(version) => (0, version.ver),
        _ => (0, 0),
    };
    Greatest {
        time: event.t,
        serial: event.serial,
        intent,
        version,
    }
}

/// The numbers of an event, with those that it carries.
fn all_in(event: &Event) -> Greatest
    ensures { result ≡ all_in event.now }
{
    let own = own_in(event);
    match &event.what {
        What::Tally(tally) => Greatest {
            time: event.t.max(tally.now),
            serial: event.serial.max(tally.serial),
            intent: tally.intent,
            version: tally.version,
        },
        _ => own,
    }
}

impl Greatest {
    /// Of each the greater.
    fn greater(self, other: Greatest) -> Greatest
        ensures { result ≡ greater self other }
    {
        Greatest {
            time: self.time.max(other.time),
            serial: self.serial.max(other.serial),
            intent: self.intent.max(other.intent),
            version: self.version.max(other.version),
        }
    }
}

impl Numbers {
    /// Nothing has happened.
    pub fn empty() -> Numbers
        ensures { result ≡ numbers_of [] }
    {
        let none = Greatest {
            time: 0,
            serial: 0,
            intent: 0,
            version: 0,
        };
        Numbers {
            begun: false,
            own: none,
            all: none,
        }
    }

    /// The numbers once an event has happened.
    pub fn after(&self, event: &Event) -> Numbers
        ensures { result ≡ with_event event.now self.now }
    {
        Numbers {
            begun: true,
            own: own_in(event).greater(self.own),
            all: all_in(event).greater(self.all),
        }
    }

    /// Whether an event's serial and time may come next: the serial rises, the time doesn't fall, and
    /// both are within their limits.
    pub fn is_in_order(&self, event: &Event) -> bool
        ensures order { (h : List Event) → self.now ≡ numbers_of h → result ≡ is_in_order event.now h }
        ensures in_time { result ≡ true → event.now.t < 2 ^ 48 }
    {
        self.own.serial < event.serial
            && event.serial < NUMBER_LIMIT
            && self.own.time <= event.t
            && event.t < TIME_LIMIT
    }
}
