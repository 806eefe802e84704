// Links in memory, for tests and for scripts.
ghost use Rattle.std.specs.Prelude.{◌≡◌, ◌≤◌, ◌+◌, ◌++◌, [], ◌||◌, IfOk, OnErr, OnOk, length, take, true, false, nat_lt, vec_len, vec_capacity};

use crate::memory::{fill, piece_size};
use crate::{Link, LinkCounts, Step};
use std::alloc::Global;
use ws_model::NoMemory;

/// A link in memory: it gives bytes in pieces, and takes all that is sent.
#[derive(Drop)]
pub struct MemLink {
    /// All bytes to give.
    content: Vec<u8>,
    /// How many of them were given.
    at: usize,
    /// The peer gives no more behind them.
    finished: bool,
    /// It has answered End.
    ended: bool,
    /// Every later call fails.
    broken: bool,
    pieces: Vec<u32>,
    sent: Vec<u8>,
    room: usize,
    failing: Vec<u64>,
    counts: LinkCounts,
    ghost in_range: { at ≤ vec_len content },
    ghost has_room: { room ≤ vec_capacity sent },
    ghost in_room: { vec_len sent ≤ room },
}

impl MemLink {
    ghost use Rattle.ws_link.specs.Links.{LinkContent, no_counts, raised};
    ghost use Rattle.ws_link.specs.MemoryLinks.{link_content, link_counts, link_left, link_sent, link_fails, link_refuses, LinkPlan, link_plan, is_unused, step_at_end, content_at_end, counts_at_end};

    /// A link that gives these bytes, and then the end where `finished`.
    ///
    /// Calls have numbers from 0, polls to send counted too. A poll to take gives at most the size
    /// that `pieces` has at its number, a size of 0 being 1, and behind that list all that fits.
    /// There is room for `room` bytes to be sent, all taken now. The calls of the numbers in
    /// `failing` fail, and so does each that sends a piece that doesn't fit.
    pub fn made(
        alloc: Global,
        bytes: &[u8],
        finished: bool,
        pieces: &[u32],
        room: u64,
        failing: &[u64],
    ) -> Result<MemLink, NoMemory>
        ensures content { IfOk result (λ link. link_content link ≡ record { given = []; sent = []; ended = false }) }
        ensures left { IfOk result (λ link. link_left link ≡ bytes.now) }
        ensures counts { IfOk result (λ link. link_counts link ≡ no_counts) }
        ensures unused { IfOk result (λ link. is_unused link ≡ true) }
        ensures plan { IfOk result (λ link. link_plan link ≡ record { finished = finished; broken = false; pieces = pieces.now; room = room; failing = failing.now }) }
    {
        let room = room as usize;
        Ok(MemLink {
            content: bytes.to_vec(alloc)?,
            at: 0,
            finished,
            ended: false,
            broken: false,
            pieces: pieces.to_vec(alloc)?,
            sent: Vec::with_capacity(alloc, room)?,
            room,
            failing: failing.to_vec(alloc)?,
            counts: LinkCounts::none(),
        })
    }

    /// Adds bytes to give. At an error the link is as it was.
    pub fn arrive(&mut self, bytes: &[u8]) -> Result<(), NoMemory>
        ensures content { link_content self.new ≡ link_content self.old }
        ensures left { OnOk result (link_left self.new ≡ link_left self.old ++ bytes.now) }
        ensures err { OnErr result (link_left self.new ≡ link_left self.old) }
        ensures counts { link_counts self.new ≡ link_counts self.old }
        ensures plan { link_plan self.new ≡ link_plan self.old }
    {
        self.content.extend_from_slice(bytes)?;
        Ok(())
    }

    /// Marks that the peer gives no more behind the bytes that are there.
    pub fn finish(&mut self)
        ensures content { link_content self.new ≡ link_content self.old }
        ensures left { link_left self.new ≡ link_left self.old }
        ensures counts { link_counts self.new ≡ link_counts self.old }
        ensures plan { link_plan self.new ≡ record (link_plan self.old) { finished = true } }
    {
        self.finished = true;
    }

    /// Makes every later call fail.
    pub fn fail(&mut self)
        ensures content { link_content self.new ≡ link_content self.old }
        ensures left { link_left self.new ≡ link_left self.old }
        ensures counts { link_counts self.new ≡ link_counts self.old }
        ensures plan { link_plan self.new ≡ record (link_plan self.old) { broken = true } }
    {
        self.broken = true;
    }

    /// How often it failed, answered NotYet and was polled.
    pub fn counts(&self) -> LinkCounts
        ensures { result ≡ link_counts self.now }
    {
        self.counts
    }

    /// The bytes that it was sent.
    pub fn sent(&self) -> &[u8]
        ensures { result.now ≡ link_sent self.now }
    {
        &self.sent
    }

    // Whether the next call is made to fail.
    fn fails(&self) -> bool
        ensures { result ≡ link_fails self.now }
    {
        self.broken || self.failing.contains(&self.counts.asks)
    }

    fn is_too_long(&self, bytes: &[u8]) -> bool
        ensures { result ≡ nat_lt (link_plan self.now).room (length (link_sent self.now) + length bytes.now) }
    {
        bytes.len() > self.room.saturating_sub(self.sent.len())
    }

    // Whether the next call fails, where it sends these bytes.
    fn refuses(&self, bytes: &[u8]) -> bool
        ensures { result ≡ link_refuses self.now (length bytes.now) }
    {
        self.fails() || self.is_too_long(bytes)
    }

    // Puts bytes behind those that were sent, for which there is room.
    fn keep(&mut self, bytes: &[u8])
        requires { length (link_sent self.old) + length bytes.now ≤ (link_plan self.old).room }
        ensures content { link_content self.new ≡ record (link_content self.old) { sent = link_sent self.old ++ bytes.now } }
        ensures left { link_left self.new ≡ link_left self.old }
        ensures counts { link_counts self.new ≡ link_counts self.old }
        ensures plan { link_plan self.new ≡ link_plan self.old }
    {
        match self.sent.extend_from_slice(bytes) {
            Ok(()) => {}
            // There is room, so this doesn't happen.
            Err(_) => unreachable!(),
        }
    }

    // Answers a poll to take where nothing is left.
    fn at_end(&mut self) -> Step
        ensures step { result ≡ step_at_end (link_plan self.old).finished }
        ensures content { link_content self.new ≡ content_at_end (link_plan self.old).finished (link_content self.old) }
        ensures left { link_left self.new ≡ link_left self.old }
        ensures counts { link_counts self.new ≡ counts_at_end (link_plan self.old).finished (link_counts self.old) }
        ensures plan { link_plan self.new ≡ link_plan self.old }
    {
        if self.finished {
            self.ended = true;
            return Step::End;
        }
        self.counts.wait();
        Step::NotYet
    }
}

impl Link for MemLink {
    ghost use Rattle.std.specs.Prelude.{Some, ◌<◌};
    ghost use Rattle.ws_link.specs.Links.{Moves, Sends, Takes, HasStepCause};
    ghost use Rattle.ws_link.specs.MemoryLinks.{link_content, link_counts, GivesSend, GivesTake};

    ghost content = { λ link. Some (link_content link) };

    ghost counts = { link_counts };

    ghost send_gives = { GivesSend };

    ghost take_gives = { GivesTake };

    fn poll_send(&mut self, bytes: &[u8]) -> Step
        requires { 0 < length bytes.now }
        ensures count { Moves (length bytes.now) result }
        ensures sends { Sends (Some (link_content self.old)) (Some (link_content self.new)) bytes.now result }
        ensures gives { GivesSend self.old bytes.now result self.new }
        ensures cause { HasStepCause (link_counts self.old) (link_counts self.new) result }
    {
        let refused = self.refuses(bytes);
        self.counts.ask();
        if refused {
            self.counts.fail();
            return Step::Failed;
        }
        self.keep(bytes);
        Step::Took(bytes.len())
    }

    fn poll_take(&mut self, into: &mut [u8]) -> Step
        requires { 0 < length into.old }
        ensures count { Moves (length into.old) result }
        ensures takes { Takes (Some (link_content self.old)) (Some (link_content self.new)) into.new result }
        ensures gives { GivesTake self.old result into.new self.new }
        ensures cause { HasStepCause (link_counts self.old) (link_counts self.new) result }
    {
        let refused = self.fails();
        let size = piece_size(&self.pieces, self.counts.asks);
        self.counts.ask();
        if refused {
            self.counts.fail();
            return Step::Failed;
        }
        if self.at == self.content.len() {
            return self.at_end();
        }
        let n = fill(into, &self.content[self.at..], size);
        self.at += n;
        Step::Took(n)
    }
}
