//! Measures the journal over two files, `a.journal` and `b.journal` in the folder that it runs in.
//!
//! `bench_journal fill BYTES EACH` has batches of EACH bytes that come to about BYTES in the store,
//! `bench_journal append COUNT` appends COUNT batches of 100 bytes and prints the nanoseconds of one, and
//! `bench_journal open` prints how many batches the store has, and the journal's tail.
//! `bench/journal.sh` runs it and prints ratios. Without words it does nothing.
#![tactic(auto)]

ghost use Rattle.std.specs.Prelude.{◌≡◌, All, IfOk};
ghost use Rattle.ws_journal.specs.declared.store.Edition.TheVariants.{Second};
ghost use Rattle.ws_journal.specs.Text.{IsPayload};
ghost use Rattle.ws_journal.specs.Stands.{HasTail};

use anyhow::{Result, bail};
use std::alloc::Global;
use std::env;
use std::rt::Clock;
use std::time::Instant;
use ws_disk::{Disk, FileDisk};
use ws_journal::{Journal, Store};
use ws_model::{Bytes, Event, What};
use ws_record::{batch_len, write_batch};

/// What a journal may come to, in bytes.
const LIMIT: u64 = 1 << 30;

/// What a batch's text has beside the reason of its event.
const FRONT_BYTES: usize = 33;

/// The bytes of a batch that is appended.
const APPENDED_BYTES: usize = 100;

fn main(rt: HostRuntime) -> Result<()> {
    let mut words = env::args(&rt)?;
    let _program = words.next();
    let Some(word) = words.next() else {
        return Ok(());
    };
    let mut numbers = Vec::new(rt.alloc());
    for number in words {
        numbers.push(number.as_str().parse::<u32>()?)?;
    }
    let mut store = Store {
        a: FileDisk::made(rt, "a.journal"),
        b: FileDisk::made(rt, "b.journal"),
    };
    match (word.as_str(), numbers.as_slice()) {
        ("fill", [bytes, each]) => fill(rt.alloc(), &mut store, *bytes, *each),
        ("append", [count]) => append(&rt, rt.alloc(), &mut store, *count),
        ("open", []) => open(&rt, rt.alloc(), &mut store),
        _ => bail!("no such words: {word}"),
    }
}

/// Opens the store, upgraded where it was of edition 1, with the number of its batches.
fn opened<D: Disk>(alloc: Global, store: &mut Store<D>) -> Result<(Journal, usize)>
    ensures edition { IfOk result (λ one. one.0.edition ≡ Second) }
    ensures place { IfOk result (λ one. HasTail D.honest D.moment D.images one.0 store.new) }
{
    let (mut journal, batches) = Journal::recover(alloc, store, LIMIT)?;
    if journal.edition() == 1 {
        journal.upgrade(alloc, store, &batches)?;
    }
    Ok((journal, batches.len()))
}

/// The text of a batch of one event, of so many bytes.
fn batch(alloc: Global, bytes: usize) -> Result<Bytes>
    ensures { IfOk result IsPayload }
{
    let reason = vec![in alloc; 7; bytes.saturating_sub(FRONT_BYTES)]?;
    let events = [Event {
        serial: 1,
        t: 1,
        what: What::Barred {
            n: 1,
            reason: Bytes::from_vec(reason),
        },
    }];
    if batch_len(&events) > 16_777_216 {
        bail!("a batch is too long");
    }
    Ok(write_batch(alloc, &events)?)
}

/// So many batches.
fn batches(alloc: Global, count: u32, each: usize) -> Result<Vec<Bytes>>
    ensures { IfOk result (λ made. All IsPayload made.items) }
{
    let mut made = Vec::new(alloc);
    for _ in 0..count {
        made.push(batch(alloc, each)?)?;
    }
    Ok(made)
}

fn fill<D: Disk>(alloc: Global, store: &mut Store<D>, bytes: u32, each: u32) -> Result<()> {
    let (mut journal, _) = opened(alloc, store)?;
    let made = batches(alloc, bytes / each.max(1), each as usize)?;
    Ok(journal.replace(store, &made)?)
}

fn append<D: Disk>(
    rt: &(impl Clock + Print),
    alloc: Global,
    store: &mut Store<D>,
    count: u32,
) -> Result<()> {
    let (mut journal, _) = opened(alloc, store)?;
    let text = batch(alloc, APPENDED_BYTES)?;
    let start = Instant::now(rt)?;
    for _ in 0..count {
        journal.append(store, text.as_slice())?;
    }
    let spent = start.elapsed(rt)?.as_nanos() / u128::from(count.max(1));
    println!(rt; "{spent}")?;
    Ok(())
}

fn open<D: Disk>(rt: &(impl Clock + Print), alloc: Global, store: &mut Store<D>) -> Result<()> {
    let (journal, count) = opened(alloc, store)?;
    let tail = journal.tail();
    println!(rt; "{count} {tail}")?;
    Ok(())
}
