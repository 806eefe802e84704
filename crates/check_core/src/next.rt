// What may happen next, by the plain program's lists, beside what the core accepts.

use crate::applied::TIME_LIMIT;
use check_histories::{CB, Chance, History, X, asked, bytes, fetched, is_first, pinged, same};
use std::alloc::Global;
use ws_core::Core;
use ws_model::{Event, Fate, How, Intent, Lease, Mode, NoMemory, What};
use ws_plain::PairFate;

/// How many tries are made of what may happen or not.
const TRIES: u64 = 8;

/// What the plain program says of the history as it is.
#[derive(Drop)]
struct Now {
    pending: Vec<Intent>,
    notices: Vec<Intent>,
    live: Vec<Lease>,
    fates: Vec<PairFate>,
}

impl Now {
    fn of(alloc: Global, history: &History) -> Result<Now, NoMemory> {
        let events = &history.events;
        Ok(Now {
            pending: ws_plain::pending(alloc, events)?,
            notices: ws_plain::notices(alloc, events)?,
            live: ws_plain::live(alloc, events, history.t)?,
            fates: ws_plain::all_fates(alloc, events, history.t)?,
        })
    }

    // Whether this may happen to its number or its pair.
    fn allows(&self, what: &What) -> bool {
        match what {
            What::Barred { n, .. } => self.is_subscription(*n),
            What::Noticed { n, .. } => self.notices.iter().any(|intent| intent.n == *n),
            What::Revoked { n, .. } => self.live.iter().any(|lease| lease.intent.n == *n),
            What::Pushed { ver, lease, .. } => self.is_owed(*ver, *lease),
            What::Confirmed { n, .. } | What::Declined { n, .. } | What::Unheard { n } => {
                self.is_next(*n)
            }
            _ => false,
        }
    }

    fn is_next(&self, n: u64) -> bool {
        self.pending
            .iter()
            .any(|intent| intent.n == n && is_first(&self.pending, intent))
    }

    fn is_subscription(&self, n: u64) -> bool {
        self.pending
            .iter()
            .any(|intent| intent.n == n && intent.mode == Mode::On)
    }

    fn is_owed(&self, ver: u64, lease: u64) -> bool {
        self.fates.iter().any(|pair| {
            pair.ver == ver && pair.lease == lease && matches!(pair.fate, Fate::Owed { .. })
        })
    }
}

/// Whether the core accepts, of what could happen to numbers and pairs, what may happen, and nothing that is
/// wrong at any time.
pub fn next_agrees(
    alloc: Global,
    core: &Core,
    history: &History,
    chance: &mut Chance,
) -> Result<bool, NoMemory> {
    let now = Now::of(alloc, history)?;
    for _ in 0..TRIES {
        let what = tried(alloc, history, chance)?;
        let may_happen = now.allows(&what);
        if core.accepts(&next(history, what))? != may_happen {
            return Ok(false);
        }
    }
    accepts_none(alloc, core, history)
}

fn next(history: &History, what: What) -> Event {
    Event {
        serial: (history.events.len() as u64).saturating_add(1),
        t: history.t,
        what,
    }
}

// What could happen to a number or to a pair, also of those about the numbers that are given.
fn tried(alloc: Global, history: &History, chance: &mut Chance) -> Result<What, NoMemory> {
    let n = chance.below(history.intents.saturating_add(2));
    let ver = chance.below(history.versions.saturating_add(2));
    let reason = bytes(alloc, "no")?;
    Ok(match chance.below(9) {
        0 => What::Confirmed { n, sent: history.t },
        1 => What::Declined { n, code: 404 },
        2 => What::Unheard { n },
        3 => What::Barred { n, reason },
        4 => What::Noticed { n, heard: true },
        5 => What::Revoked { n, reason },
        6 => What::Pushed {
            ver,
            lease: n,
            how: How::Gone,
        },
        _ => What::Pushed {
            ver,
            lease: n,
            how: How::Done,
        },
    })
}

/// What is wrong about an event at any time.
#[derive(Clone, Copy)]
enum Wrong {
    Serial,
    Earlier,
    TooLate,
    Number,
    Granted,
    Version,
    Upto,
    Same,
    Sent,
}

const WRONG: [Wrong; 9] = [
    Wrong::Serial,
    Wrong::Earlier,
    Wrong::TooLate,
    Wrong::Number,
    Wrong::Granted,
    Wrong::Version,
    Wrong::Upto,
    Wrong::Same,
    Wrong::Sent,
];

// A number that was given, or what comes too early; or a ping.
fn wrong_what(alloc: Global, history: &History, wrong: Wrong) -> Result<What, NoMemory> {
    let n = history.intents;
    let ver = history.versions;
    let serial = (history.events.len() as u64).saturating_add(1);
    match wrong {
        Wrong::Serial | Wrong::Earlier | Wrong::TooLate => pinged(alloc, X),
        Wrong::Number => asked(alloc, n, X, CB, 60),
        Wrong::Granted => asked(alloc, n.saturating_add(1), X, CB, 59),
        Wrong::Version => fetched(alloc, ver, X, 0),
        Wrong::Upto => fetched(alloc, ver.saturating_add(1), X, serial),
        Wrong::Same => same(alloc, "http://pub.example/z", 0),
        Wrong::Sent => {
            let sent = history.t.saturating_add(1);
            Ok(What::Confirmed { n, sent })
        }
    }
}

// A serial or a time that doesn't follow, or else what is wrong itself.
fn wrong_event(alloc: Global, history: &History, wrong: Wrong) -> Result<Event, NoMemory> {
    let mut event = next(history, wrong_what(alloc, history, wrong)?);
    match wrong {
        Wrong::Serial => event.serial = history.events.len() as u64,
        Wrong::Earlier => event.t = before(history),
        Wrong::TooLate => event.t = TIME_LIMIT,
        _ => {}
    }
    Ok(event)
}

// A time before the last event's, or a time that no event has.
fn before(history: &History) -> u64 {
    match history.events.last() {
        Some(event) => event.t.saturating_sub(1),
        None => TIME_LIMIT,
    }
}

fn accepts_none(alloc: Global, core: &Core, history: &History) -> Result<bool, NoMemory> {
    for wrong in WRONG {
        if core.accepts(&wrong_event(alloc, history, wrong)?)? {
            return Ok(false);
        }
    }
    Ok(true)
}
