// The work that the core gives as due, and what it says of it, beside the plain program and the events.

use check_histories::copy;
use std::alloc::Global;
use ws_core::Core;
use ws_core_tables::DueWork;
use ws_model::{Bytes, Event, Held, Intent, NoMemory, Version, What, Work};

/// Whether the core's first due work is the definitions', with the tickets of the first due works out, of
/// none up to all, and what it goes by is what the events say.
pub fn due_agrees(alloc: Global, core: &Core, events: &[Event], t: u64) -> Result<bool, NoMemory> {
    let works = ws_plain::due(alloc, events, t, &[])?;
    let mut held = Held::empty(alloc);
    for work in &works {
        if !is_first(core.due(t, &held), work) || !is_told(core, events, work) {
            return Ok(false);
        }
        held.push(copy(alloc, work)?)?;
    }
    Ok(core.due(t, &held).is_none())
}

fn is_first(first: Option<DueWork<'_>>, work: &Work) -> bool {
    match (first, work) {
        (Some(DueWork::Verify { n }), Work::Verify { n: wanted }) => n == *wanted,
        (Some(DueWork::Notice { n }), Work::Notice { n: wanted }) => n == *wanted,
        (
            Some(DueWork::Fetch { topic, upto }),
            Work::Fetch {
                topic: key,
                upto: last,
            },
        ) => { topic == key && upto == *last }
        (
            Some(DueWork::Push { ver, lease }),
            Work::Push {
                ver: version,
                lease: of,
            },
        ) => { ver == *version && lease == *of }
        _ => false,
    }
}

fn is_told(core: &Core, events: &[Event], work: &Work) -> bool {
    match work {
        Work::Verify { n } => intent_agrees(core, events, *n),
        Work::Notice { n } => intent_agrees(core, events, *n) && reason_agrees(core, events, *n),
        Work::Fetch { .. } => true,
        Work::Push { ver, lease } => {
            intent_agrees(core, events, *lease) && version_agrees(core, events, *ver)
        }
    }
}

fn intent_agrees(core: &Core, events: &[Event], n: u64) -> bool {
    match (core.intent(n), intent_of(events, n)) {
        (Some(told), Some(asked)) => told == asked,
        _ => false,
    }
}

fn intent_of(events: &[Event], n: u64) -> Option<&Intent> {
    for event in events {
        if let What::Asked(intent) = &event.what {
            if intent.n == n {
                return Some(intent);
            }
        }
    }
    None
}

fn reason_agrees(core: &Core, events: &[Event], n: u64) -> bool {
    match (core.reason(n), reason_of(events, n)) {
        (Some(told), Some(reason)) => told == reason,
        _ => false,
    }
}

// An intent is barred or its lease revoked once at most.
fn reason_of(events: &[Event], of: u64) -> Option<&Bytes> {
    for event in events {
        match &event.what {
            What::Barred { n, reason } | What::Revoked { n, reason } if *n == of => {
                return Some(reason);
            }
            _ => {}
        }
    }
    None
}

fn version_agrees(core: &Core, events: &[Event], ver: u64) -> bool {
    match (core.version(ver), version_of(events, ver)) {
        (Some(told), Some(fetched)) => told == fetched,
        _ => false,
    }
}

fn version_of(events: &[Event], ver: u64) -> Option<&Version> {
    for event in events {
        if let What::Fetched(version) = &event.what {
            if version.ver == ver {
                return Some(version);
            }
        }
    }
    None
}
