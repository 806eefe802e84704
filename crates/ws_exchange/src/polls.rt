// The exchange as a state that sends, then takes, then has ended.
ghost use Rattle.std.specs.Prelude.{◌≡◌, ◌<◌, ◌≤◌, IfOk, IfErr, true, false, length};
ghost use Rattle.ws_link.specs.Links.{IsUntouched};
ghost use Rattle.ws_http.specs.ResponseStages.{fresh_reply};

use crate::hear::{Heard, hear};
use std::alloc::Global;
use std::marker::Model;
use std::mem::replace;
use ws_http::{Need, ResponseReader};
use ws_link::{Link, Step};
use ws_model::{Bytes, Outcome};

// The most bytes that one poll takes.
const ROOM: usize = 8192;

/// How far an exchange is.
#[derive(Drop)]
pub enum Stage {
    /// It sends, or reads the reply by this reader.
    Open(ResponseReader),
    /// It found no memory.
    Starved,
    /// It has ended.
    Over,
}

/// What one poll of an exchange came to.
#[derive(Drop)]
pub enum Polled {
    /// The exchange goes on.
    Pending,
    /// It has ended, so.
    Ended(Outcome),
    /// There was no memory. Later polls say so again, until the exchange is late.
    NoMemory,
}

/// There was no memory for an exchange. It hands back what was given.
#[derive(Drop)]
pub struct ExchangeUnmade<L: Link + Drop> {
    pub link: L,
    pub bytes: Bytes,
}

/// One exchange: it sends its bytes over a link and reads the reply, one call of the link at each poll.
///
/// It never waits, and looks at no clock: `set_now` tells it the time.
#[derive(Drop)]
pub struct Exchange<L: Link + Drop> {
    link: L,
    bytes: Bytes,
    sent: usize,
    need: Need,
    until: u64,
    time: u64,
    stage: Stage,
}

impl<L: Link + Drop> Model for Exchange<L> {
    ghost use Rattle.ws_exchange.specs.Polls.{Talk, IsTalk};

    ghost Value = { Talk L };

    ghost view = { λ e. record { link = e.link; bytes = e.bytes; sent = e.sent; need = e.need; until = e.until; time = e.time; stage = e.stage } };

    ghost invariant = { λ e. IsTalk (L.content e.link) e.bytes e.sent e.need e.stage };
}

impl<L: Link + Drop> Exchange<L> {
    ghost use Rattle.ws_exchange.specs.Polls.{Talk, fresh_talk, is_over, IsSent, Reads, Answers, Comes, Keeps, Leaves, IsFit, IsAt, stage_after, polled_after};

    /// An exchange over a link that has given and sent nothing yet. It ends as Late from the time
    /// `until` on, in seconds, and starts at the time 0.
    pub fn made(
        alloc: Global,
        link: L,
        bytes: Bytes,
        need: Need,
        until: u64,
    ) -> Result<Exchange<L>, ExchangeUnmade<L>>
        requires { IsUntouched (L.content link) }
        ensures ok { IfOk result (λ e. e ≡ fresh_talk link bytes need until) }
        ensures err { IfErr result (λ u. u ≡ record { link = link; bytes = bytes }) }
    {
        match ResponseReader::made(alloc, need) {
            Ok(reader) => Ok(Exchange {
                link,
                bytes,
                sent: 0,
                need,
                until,
                time: 0,
                stage: Stage::Open(reader),
            }),
            Err(_) => Err(ExchangeUnmade { link, bytes }),
        }
    }

    /// Tells the time, in seconds.
    pub fn set_now(&mut self, now: u64)
        ensures { self.new ≡ record self.old { time = now } }
    {
        self.time = now;
    }

    /// The link.
    pub fn link(&self) -> &L
        ensures { result.now ≡ self.now.link }
    {
        &self.link
    }

    /// Gives the link back.
    pub fn into_link(self) -> L
        ensures link { result ≡ self.link }
        ensures sent { IsSent (L.content self.link) self.bytes self.sent }
    {
        self.link
    }

    /// Makes one step: one send while bytes remain, or one take.
    ///
    /// It ends as Late where the time has come, with no call of the link; as Lost where the link
    /// fails, or ends before a whole reply; and else by the bytes that the link gave.
    pub fn poll(&mut self) -> Polled
        requires { is_over self.old.stage ≡ false }
        ensures answers { Answers L.content L.counts L.send_gives L.take_gives self.old self.new result }
        ensures sent { IsSent (L.content self.new.link) self.new.bytes self.new.sent }
        ensures fit { IsFit result }
        ensures leaves { Leaves result self.new.stage }
        ensures keeps { Keeps self.old self.new }
    {
        if self.time >= self.until {
            self.stage = Stage::Over;
            return Polled::Ended(Outcome::Late);
        }
        match replace(&mut self.stage, Stage::Over) {
            Stage::Open(reader) => self.step(reader),
            Stage::Starved => {
                self.stage = Stage::Starved;
                Polled::NoMemory
            }
            Stage::Over => unreachable!(),
        }
    }

    // One call of the link.
    fn step(&mut self, reader: ResponseReader) -> Polled
        requires reads { Reads self.old.need (L.content self.old.link) reader }
        requires over { is_over self.old.stage ≡ true }
        ensures comes { Comes L.content L.counts L.send_gives L.take_gives self.old self.new result }
        ensures sent { IsSent (L.content self.new.link) self.new.bytes self.new.sent }
        ensures fit { IsFit result }
        ensures leaves { Leaves result self.new.stage }
        ensures keeps { Keeps self.old self.new }
    {
        if self.sent < self.bytes.as_slice().len() {
            self.send(reader)
        } else {
            self.take(reader)
        }
    }

    // One send of the bytes that remain.
    fn send(&mut self, reader: ResponseReader) -> Polled
        requires reads { Reads self.old.need (L.content self.old.link) reader }
        requires over { is_over self.old.stage ≡ true }
        requires more { self.old.sent < length self.old.bytes }
        ensures comes { Comes L.content L.counts L.send_gives L.take_gives self.old self.new result }
        ensures sent { IsSent (L.content self.new.link) self.new.bytes self.new.sent }
        ensures fit { IsFit result }
        ensures leaves { Leaves result self.new.stage }
        ensures keeps { Keeps self.old self.new }
    {
        let (_, rest) = self.bytes.as_slice().split_at(self.sent);
        match self.link.poll_send(rest) {
            Step::Took(n) => {
                self.sent += n;
                self.settle(Heard::More(reader))
            }
            Step::NotYet => self.settle(Heard::More(reader)),
            Step::Failed => self.settle(Heard::Ended(Outcome::Lost)),
            Step::End => unreachable!(),
        }
    }

    // One take.
    fn take(&mut self, reader: ResponseReader) -> Polled
        requires reads { Reads self.old.need (L.content self.old.link) reader }
        requires over { is_over self.old.stage ≡ true }
        requires all { length self.old.bytes ≤ self.old.sent }
        ensures comes { Comes L.content L.counts L.send_gives L.take_gives self.old self.new result }
        ensures sent { IsSent (L.content self.new.link) self.new.bytes self.new.sent }
        ensures fit { IsFit result }
        ensures leaves { Leaves result self.new.stage }
        ensures keeps { Keeps self.old self.new }
    {
        let mut room = [0; ROOM];
        match self.link.poll_take(&mut room) {
            Step::Took(n) => self.settle(hear(reader, &room[..n], false)),
            Step::End => self.settle(hear(reader, &[], true)),
            Step::NotYet => self.settle(Heard::More(reader)),
            Step::Failed => self.settle(Heard::Ended(Outcome::Lost)),
        }
    }

    // Keeps what was heard.
    fn settle(&mut self, heard: Heard) -> Polled
        requires { IsAt self.old.need (L.content self.old.link) (stage_after heard) }
        ensures kept { self.new ≡ record self.old { stage = stage_after heard } }
        ensures polled { result ≡ polled_after heard }
    {
        match heard {
            Heard::More(reader) => {
                self.stage = Stage::Open(reader);
                Polled::Pending
            }
            Heard::Ended(outcome) => {
                self.stage = Stage::Over;
                Polled::Ended(outcome)
            }
            Heard::NoMemory => {
                self.stage = Stage::Starved;
                Polled::NoMemory
            }
        }
    }
}
