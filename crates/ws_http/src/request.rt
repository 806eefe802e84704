// The reader of a request that comes in any pieces.
ghost use Rattle.std.specs.Prelude.{◌≡◌, ◌≤◌, IfOk, ℕ, List, [], take, true};
ghost use Rattle.std.specs.Option.{option_copied};
ghost use Rattle.httparse.specs.Grammar.{RequestHead, ReadsRequest};
ghost use Rattle.ws_http.specs.Fields.{first_value, fields_of, expects_continue};
ghost use Rattle.ws_http.specs.Requests.{is_headed, IsWhole, Tells, whole};

use crate::Fed;
use crate::head::MAX_HEAD;
use crate::parts::{expects_of, field_of, method_of, target_of};
use crate::request_next::take_next;
use crate::stage::{Stage, again, count_of, is_sound, told};
use std::alloc::Global;
use std::marker::Model;
use ws_model::NoMemory;

/// A reader of one request, which comes in any pieces (RFC 9112).
///
/// It takes all its memory when it is made. A head has at most 16,384 bytes, and a message at most
/// the room.
#[derive(Drop)]
pub struct RequestReader {
    /// The bytes that came; behind the head of a chunked body what is held back of it.
    raw: Vec<u8>,
    /// The data of a chunked body.
    body: Vec<u8>,
    room: usize,
    stage: Stage,
}

impl Model for RequestReader {
    ghost use Rattle.ws_http.specs.RequestStages.{Reading};
    ghost use Rattle.ws_http.specs.RequestStages.{IsReader};
    ghost use Rattle.std.specs.Vec.{vec_capacity};

    ghost Value = { Reading };

    ghost view = { λ r. record { room = r.room; bytes = r.raw.items; content = r.body.items; stage = r.stage } };

    ghost invariant = { λ r. IsReader r.room r.raw.items r.body.items r.stage (vec_capacity r.raw) (vec_capacity r.body) };
}

impl RequestReader {
    ghost use Rattle.ws_http.specs.RequestStages.{Reading, Feeds, Stands, fresh, verdict};

    /// A reader with a room of 16,384 bytes.
    pub fn made(alloc: Global) -> Result<RequestReader, NoMemory>
        ensures fresh { IfOk result (λ r. r ≡ fresh 16384) }
        ensures stands { IfOk result (λ r. Stands r []) }
    {
        RequestReader::made_for(alloc, 16_384)
    }

    /// A reader with a room of so many bytes for a message. Its feeds take no memory.
    pub fn made_for(alloc: Global, room: u32) -> Result<RequestReader, NoMemory>
        requires least { 16384 ≤ room }
        requires most { room ≤ 4210688 }
        ensures fresh { IfOk result (λ r. r ≡ fresh room) }
        ensures stands { IfOk result (λ r. Stands r []) }
    {
        let room = room as usize;
        let raw = Vec::with_capacity(alloc, room)?;
        let body = Vec::with_capacity(alloc, room)?;
        Ok(RequestReader {
            raw,
            body,
            room,
            stage: Stage::Head,
        })
    }

    /// Takes the next piece of the bytes, and says what the bytes so far are.
    ///
    /// After Whole or Bad each later feed says the same, with `used` 0. It doesn't answer NoMemory.
    pub fn feed(&mut self, piece: &[u8]) -> Fed
        ensures feeds { Feeds self.old piece.now self.new result }
        ensures tells { Tells result (verdict self.new) }
    {
        if let Some(answer) = again(self.stage) {
            return answer;
        }
        let before = count_of(&self.raw, self.stage);
        let old = self.stage;
        self.stage = take_next(&mut self.raw, &mut self.body, self.room, piece, old);
        told(before, old, self.stage)
    }

    /// Whether the head is whole and sound, whatever came behind it.
    pub fn headed(&self) -> bool
        ensures { result ≡ is_headed (verdict self.now) }
    {
        is_sound(self.stage)
    }

    /// The method.
    pub fn method(&self) -> &[u8]
        requires { is_headed (verdict self.now) ≡ true }
        ensures { (h : RequestHead) (rest : List ℕ) → ReadsRequest (take 16384 self.now.bytes) h rest → result.now ≡ h.method }
    {
        method_of(&self.raw)
    }

    /// The target.
    pub fn target(&self) -> &[u8]
        requires { is_headed (verdict self.now) ≡ true }
        ensures { (h : RequestHead) (rest : List ℕ) → ReadsRequest (take 16384 self.now.bytes) h rest → result.now ≡ h.target }
    {
        target_of(&self.raw)
    }

    /// The value of the first field of that name, whatever the case of its letters, without white
    /// space at its ends.
    pub fn field(&self, name: &[u8]) -> Option<&[u8]>
        requires { is_headed (verdict self.now) ≡ true }
        ensures { (h : RequestHead) (rest : List ℕ) → ReadsRequest (take 16384 self.now.bytes) h rest
            → option_copied result ≡ first_value name.now (fields_of h.fields) }
    {
        field_of(&self.raw, name)
    }

    /// Whether the sender waits for an interim answer before it sends the body (RFC 9110, section 10.1.1).
    pub fn expects(&self) -> bool
        requires { is_headed (verdict self.now) ≡ true }
        ensures { (h : RequestHead) (rest : List ℕ) → ReadsRequest (take 16384 self.now.bytes) h rest
            → result ≡ expects_continue h.minor (fields_of h.fields) }
    {
        expects_of(&self.raw)
    }

    /// The body of a whole message.
    pub fn body(&self) -> &[u8]
        requires { IsWhole (verdict self.now) }
        ensures { (n : ℕ) (body : List ℕ) → verdict self.now ≡ whole n body → result.now ≡ body }
    {
        match self.stage {
            Stage::Whole(head, total, false) => &self.raw[head..total],
            _ => &self.body,
        }
    }
}
