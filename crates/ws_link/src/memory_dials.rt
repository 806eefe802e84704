// A dial in memory, for tests.
ghost use Rattle.std.specs.Prelude.{◌≡◌, ◌≤◌, ◌<◌, ◌+◌, ◌++◌, ◌∷◌, [], true, sum, length, vec_len, vec_capacity};
ghost use Rattle.std.specs.List.{list_all};
ghost use Rattle.std.specs.VecDeque.{deque_len};
ghost use Rattle.ws_link.specs.MemoryLinks.{is_unused};

use crate::{Dial, DialFailed, LinkCounts, MemLink};
use std::alloc::Global;
use std::collections::VecDeque;
use ws_model::NoMemory;

/// A dial in memory: it gives links in their order, and keeps those that are given back.
#[derive(Drop)]
pub struct MemDial {
    /// The links that are left.
    links: VecDeque<MemLink>,
    /// Each host that was dialled, and behind it its port in 2 bytes.
    dialed: Vec<u8>,
    /// How long each of these is.
    lengths: Vec<usize>,
    room: usize,
    back: Vec<MemLink>,
    counts_back: LinkCounts,
    failing: Vec<u64>,
    calls: u64,
    faults: u64,
    ghost in_room: { vec_len dialed ≤ room },
    ghost has_room: { room ≤ vec_capacity dialed },
    ghost whole: { sum lengths.items ≡ length dialed.items },
    ghost has_lengths: { vec_len lengths + deque_len links ≤ vec_capacity lengths },
    ghost has_back: { vec_len lengths + deque_len links ≤ vec_capacity back },
    ghost unused: { list_all is_unused links.items ≡ true },
}

impl MemDial {
    ghost use Rattle.std.specs.Prelude.{IfOk};
    ghost use Rattle.std.specs.List.{concat};
    ghost use Rattle.ws_link.specs.Links.{no_counts};
    ghost use Rattle.ws_link.specs.Dials.{DialContent, address};
    ghost use Rattle.ws_link.specs.MemoryDials.{dial_content, dial_left, dial_back, dial_counts_back, dial_faults, dial_calls, dial_refuses, is_too_long, dial_plan};

    /// Gives these links, in their order, where none was used yet.
    ///
    /// There is room for `room` bytes of hosts and ports, all taken now. Calls have numbers from 0.
    /// The calls of the numbers in `failing` fail, and so does each for which no link is left or
    /// whose host and port don't fit.
    pub fn made(
        alloc: Global,
        links: Vec<MemLink>,
        room: u32,
        failing: &[u64],
    ) -> Result<MemDial, NoMemory>
        requires { list_all is_unused links.items ≡ true }
        ensures content { IfOk result (λ dial. dial_content dial ≡ record { dialed = []; back = [] }) }
        ensures left { IfOk result (λ dial. dial_left dial ≡ links.items) }
        ensures counts { IfOk result (λ dial. dial_counts_back dial ≡ no_counts) }
        ensures calls { IfOk result (λ dial. dial_calls dial ≡ 0) }
        ensures faults { IfOk result (λ dial. dial_faults dial ≡ 0) }
        ensures plan { IfOk result (λ dial. dial_plan dial ≡ record { room = room; failing = failing.now }) }
    {
        let room = room as usize;
        let count = links.len();
        Ok(MemDial {
            dialed: Vec::with_capacity(alloc, room)?,
            lengths: Vec::with_capacity(alloc, count)?,
            room,
            back: Vec::with_capacity(alloc, count)?,
            counts_back: LinkCounts::none(),
            failing: failing.to_vec(alloc)?,
            calls: 0,
            faults: 0,
            links: VecDeque::from(links),
        })
    }

    /// Each host that was dialled, and behind it its port in 2 bytes, the greater one first.
    #[tactic(auto, using(crate::proofs::Cuts::cut_whole))]
    pub fn dialed(&self) -> &[u8]
        ensures { result.now ≡ concat (dial_content self.now).dialed }
    {
        &self.dialed
    }

    /// The links that were given back.
    pub fn back(&self) -> &[MemLink]
        ensures { result.now ≡ dial_back self.now }
    {
        &self.back
    }

    fn is_too_long(&self, host: &[u8]) -> bool
        ensures { result ≡ is_too_long self.now (length host.now) }
    {
        let left = self.room.saturating_sub(self.dialed.len());
        left < 2 || host.len() > left - 2
    }

    // Whether the next call fails.
    fn refuses(&self, host: &[u8]) -> bool
        ensures { result ≡ dial_refuses self.now (length host.now) }
    {
        self.failing.contains(&self.calls) || self.links.is_empty() || self.is_too_long(host)
    }
}

// Puts bytes behind others, for which there is room.
fn put(kept: &mut Vec<u8>, bytes: &[u8])
    requires { vec_len kept.old + length bytes.now ≤ vec_capacity kept.old }
    ensures items { kept.new.items ≡ kept.old.items ++ bytes.now }
    ensures capacity { vec_capacity kept.old ≤ vec_capacity kept.new }
{
    match kept.extend_from_slice(bytes) {
        Ok(()) => {}
        Err(_) => unreachable!(),
    }
}

// Puts a value behind others, for which there is room.
fn put_one<T: Drop>(kept: &mut Vec<T>, value: T)
    requires { vec_len kept.old < vec_capacity kept.old }
    ensures items { kept.new.items ≡ kept.old.items ++ value ∷ [] }
    ensures capacity { vec_capacity kept.old ≤ vec_capacity kept.new }
{
    match kept.push(value) {
        Ok(()) => {}
        Err(_) => unreachable!(),
    }
}

impl Dial for MemDial {
    ghost use Rattle.std.specs.Prelude.{Some, IfOk, OnOk, OnErr, is_ok, not};
    ghost use Rattle.ws_model.specs.Cause.{HasCause};
    ghost use Rattle.ws_link.specs.Links.{IsUnused, added_counts};
    ghost use Rattle.ws_link.specs.Dials.{after_dial, HangsUp};
    ghost use Rattle.ws_link.specs.MemoryLinks.{link_content, link_counts};
    ghost use Rattle.ws_link.specs.MemoryDials.{dial_content, dial_left, dial_back, dial_counts_back, dial_faults, dial_refuses, dial_plan};

    type Conn = MemLink;

    ghost content = { λ dial. Some (dial_content dial) };

    ghost faults = { dial_faults };

    ghost counts_back = { dial_counts_back };

    #[tactic(auto, using(crate::proofs::Cuts::cut_joined))]
    fn dial(&mut self, host: &[u8], port: u16) -> Result<MemLink, DialFailed>
        ensures dialed { OnOk result (Some (dial_content self.new) ≡ after_dial host.now port (Some (dial_content self.old))) }
        ensures unused { IfOk result (λ conn. IsUnused (Some (link_content conn)) (link_counts conn)) }
        ensures err { OnErr result (Some (dial_content self.new) ≡ Some (dial_content self.old)) }
        ensures back { dial_counts_back self.new ≡ dial_counts_back self.old }
        ensures cause { HasCause (dial_faults self.old) (dial_faults self.new) result }

        ensures fails { is_ok result ≡ not (dial_refuses self.old (length host.now)) }
        ensures order { IfOk result (λ conn. dial_left self.old ≡ conn ∷ dial_left self.new) }
        ensures left { OnErr result (dial_left self.new ≡ dial_left self.old) }
        ensures links_back { dial_back self.new ≡ dial_back self.old }
        ensures plan { dial_plan self.new ≡ dial_plan self.old }
    {
        let refused = self.refuses(host);
        self.calls = self.calls.saturating_add(1);
        if refused {
            self.faults = self.faults.saturating_add(1);
            return Err(DialFailed);
        }
        match self.links.pop_front() {
            Some(link) => {
                put(&mut self.dialed, host);
                put(&mut self.dialed, &port.to_be_bytes());
                put_one(&mut self.lengths, host.len() + 2);
                Ok(link)
            }
            None => unreachable!(),
        }
    }

    #[tactic(auto, using(crate::proofs::Cuts::cut_count))]
    fn hang_up(&mut self, conn: MemLink)
        requires { length (dial_back self.old) < length (dial_content self.old).dialed }
        ensures back { HangsUp (Some (dial_content self.old)) (Some (dial_content self.new)) (Some (link_content conn)) }
        ensures counts { dial_counts_back self.new ≡ added_counts (dial_counts_back self.old) (link_counts conn) }
        ensures faults { dial_faults self.new ≡ dial_faults self.old }

        ensures links_back { dial_back self.new ≡ dial_back self.old ++ conn ∷ [] }
        ensures left { dial_left self.new ≡ dial_left self.old }
        ensures plan { dial_plan self.new ≡ dial_plan self.old }
    {
        self.counts_back.add(conn.counts());
        put_one(&mut self.back, conn);
    }
}
