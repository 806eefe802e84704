// The reader of a response that comes in any pieces.
ghost use Rattle.std.specs.Prelude.{◌≡◌, ◌≤◌, ◌++◌, IfOk, IsOk, ℕ, List, [], Bool, true, false, length};
ghost use Rattle.ws_model.specs.declared.work.Outcome.TheVariants as outcome;
ghost use Rattle.ws_model.specs.Fit.{is_fit_reply};
ghost use Rattle.ws_http.specs.Responses.{Got, fault_outcome};
ghost use Rattle.ws_http.specs.declared.reply_stage.ReplyStage.TheVariants as stage;
ghost use Rattle.ws_http.specs.ResponseStages.{IsSplit, is_full, is_status, is_whole, is_last, room_of, kept_content};

use crate::head::front_of;
use crate::reply::build;
use crate::reply_data::{SHORT, first};
use crate::reply_head::FinalHead;
use crate::reply_stage::{
    ReplyStage, closed, is_full, is_status, reply_again, reply_told, room_of,
};
use crate::reply_tail::{count, count_of, take_next};
use crate::{Fed, Need};
use std::alloc::Global;
use std::marker::Model;
use ws_model::{Bytes, NoMemory, Reply};

/// A reader of one response, which comes in any pieces (RFC 9112).
///
/// Interim heads (100 to 199) are read over. The heads have at most 16,384 bytes together, a body has
/// at most 4,194,304, and a chunked one at most 8,388,608 with its chunk lines and trailers.
#[derive(Drop)]
pub struct ResponseReader {
    alloc: Global,
    need: Need,
    /// The bytes that came, up to a body that is kept apart; behind the heads of a chunked one what is held back of it.
    raw: Vec<u8>,
    /// The bytes behind the heads, where the whole of a body is asked for that isn't chunked.
    tail: Vec<u8>,
    /// The data of a chunked body.
    body: Vec<u8>,
    stage: ReplyStage,
}

impl Model for ResponseReader {
    ghost use Rattle.ws_http.specs.ResponseStages.{ReplyReading};
    ghost use Rattle.ws_http.specs.ResponseStages.{IsReplyReader};
    ghost use Rattle.std.specs.Prelude.{◌++◌};
    ghost use Rattle.std.specs.Vec.{vec_capacity};

    ghost Value = { ReplyReading };

    ghost view = { λ r. record { need = r.need; bytes = r.raw.items ++ r.tail.items; content = r.body.items; stage = r.stage } };

    ghost invariant = { λ r. IsReplyReader r.need r.raw.items r.tail.items r.body.items r.stage
        (vec_capacity r.raw) (vec_capacity r.body) };
}

// How much room is made beforehand for the bytes that are kept as they came.
fn first_room(need: Need) -> usize
    ensures { is_full need ≡ false → room_of need ≤ result }
{
    if is_full(need) { 0 } else { room_of(need) }
}

// How much room is made beforehand for the data of a chunked body.
fn data_room(need: Need) -> usize
    ensures { is_full need ≡ false → 41 ≤ result }
{
    if is_full(need) { 0 } else { SHORT }
}

// The part of the body that is kept. A whole body is given away as it is kept; of a short one the first bytes are copied.
fn content(
    alloc: Global,
    need: Need,
    raw: &[u8],
    mut tail: Vec<u8>,
    body: Vec<u8>,
    head: FinalHead,
    total: usize,
    chunked: bool,
) -> Result<Bytes, NoMemory>
    requires ordered { head.start ≤ total }
    requires inside { chunked ≡ false → total ≤ length (raw.now ++ tail.items) }
    requires split { IsSplit need raw.now tail.items (stage.Whole head total chunked) }
    ensures value { IfOk result (λ b. b ≡ kept_content need (raw.now ++ tail.items) body.items head.start total chunked) }
    ensures status { is_status need ≡ true → IsOk result }
{
    if is_status(need) {
        return Ok(Bytes::from_vec(Vec::new(alloc)));
    }
    if chunked {
        return Ok(Bytes::from_vec(body));
    }
    if is_full(need) {
        tail.truncate(total - head.start);
        return Ok(Bytes::from_vec(tail));
    }
    Bytes::copy(alloc, first(&raw[head.start..total], SHORT))
}

impl ResponseReader {
    ghost use Rattle.ws_http.specs.ResponseStages.{ReplyReading, FeedsReply, Stands, TellsReply, fresh_reply};

    /// A reader that keeps so much of the response.
    ///
    /// It takes its memory when it is made, but for a whole body. A chunk line has no limit of its
    /// own, so for a short body that is room for 8,404,992 bytes.
    pub fn made(alloc: Global, need: Need) -> Result<ResponseReader, NoMemory>
        ensures fresh { IfOk result (λ r. r ≡ fresh_reply need) }
        ensures stands { IfOk result (λ r. Stands r [] false) }
    {
        let raw = Vec::with_capacity(alloc, first_room(need))?;
        let body = Vec::with_capacity(alloc, data_room(need))?;
        Ok(ResponseReader {
            alloc,
            need,
            raw,
            tail: Vec::new(alloc),
            body,
            stage: ReplyStage::Head(0),
        })
    }

    /// Takes the next piece of the bytes, with the connection's end behind it or not, and says what
    /// the bytes so far are.
    ///
    /// After Whole or Bad each later feed says the same, with `used` 0. NoMemory comes only where all
    /// of the body is kept, and then each later feed says it again.
    pub fn feed(&mut self, piece: &[u8], end: bool) -> Fed
        ensures feeds { FeedsReply self.old piece.now end self.new result }
        ensures tells { TellsReply result self.new.stage }
    {
        if let Some(answer) = reply_again(self.stage) {
            return answer;
        }
        let before = count_of(&self.raw, &self.tail, self.stage);
        let old = self.stage;
        let new = take_next(
            &mut self.raw,
            &mut self.tail,
            &mut self.body,
            self.need,
            piece,
            old,
        );
        self.stage = closed(end, count(&self.raw, &self.tail), new);
        reply_told(before, old, self.stage)
    }

    /// The reply of a whole message. NoMemory is the one error, and doesn't come of the status alone.
    pub fn into_reply(self) -> Result<Reply, NoMemory>
        requires { is_whole self.stage ≡ true }
        ensures got { IfOk result (λ r. (came : List ℕ) (ended : Bool) → Stands self came ended → Got self.need came ended (outcome.Reply r)) }
        ensures fit { IfOk result (λ r. is_fit_reply r ≡ true) }
        ensures status { is_status self.need ≡ true → IsOk result }
    {
        let ResponseReader {
            alloc,
            need,
            raw,
            tail,
            body,
            stage,
        } = self;
        match stage {
            ReplyStage::Whole(head, total, chunked) => {
                let kept = content(alloc, need, &raw, tail, body, head, total, chunked)?;
                let (_, rest) = front_of(&raw).split_at(head.at);
                let reply = build(alloc, need, rest, kept)?;
                Ok(reply)
            }
            _ => unreachable!(),
        }
    }
}
