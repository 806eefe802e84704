// The work that the tables give as due, beside what the plain program computes.

use crate::tables::Tables;
use check_histories::copy;
use std::alloc::Global;
use ws_intent::Due;
use ws_model::{Event, Held, NoMemory, Work};

/// Whether each table's first due work is the definitions', with the tickets of the first due works out, of
/// none up to all. No work is due twice, so what is left beside them is what comes behind.
pub fn due_agrees(
    alloc: Global,
    tables: &Tables,
    events: &[Event],
    t: u64,
) -> Result<bool, NoMemory> {
    let works = ws_plain::due(alloc, events, t, &[])?;
    let mut held = Held::empty(alloc);
    for (at, work) in works.iter().enumerate() {
        if !firsts_agree(tables, &works[at..], &held, t) {
            return Ok(false);
        }
        held.push(copy(alloc, work)?)?;
    }
    Ok(firsts_agree(tables, &[], &held, t))
}

fn firsts_agree(tables: &Tables, left: &[Work], held: &Held, t: u64) -> bool {
    first_of_intents(left) == tables.intents.next_due(held)
        && first_push(left) == tables.deliveries.next_due(t, held)
        && fetch_agrees(tables, left, held)
}

fn first_of_intents(works: &[Work]) -> Option<Due> {
    for work in works {
        match work {
            Work::Verify { n } => return Some(Due::Verify(*n)),
            Work::Notice { n } => return Some(Due::Notice(*n)),
            _ => {}
        }
    }
    None
}

fn first_push(works: &[Work]) -> Option<(u64, u64)> {
    for work in works {
        if let Work::Push { ver, lease } = work {
            return Some((*ver, *lease));
        }
    }
    None
}

fn first_fetch(works: &[Work]) -> Option<&[u8]> {
    for work in works {
        if let Work::Fetch { topic, .. } = work {
            return Some(topic.as_slice());
        }
    }
    None
}

fn fetch_agrees(tables: &Tables, left: &[Work], held: &Held) -> bool {
    match (first_fetch(left), tables.topics.next_due(held)) {
        (Some(topic), Some(key)) => topic == key.as_slice(),
        (None, None) => true,
        _ => false,
    }
}
