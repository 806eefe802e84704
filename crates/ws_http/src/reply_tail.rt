// A body of a response that is kept apart from the heads, so that it can be given away as it is.
ghost use Rattle.std.specs.Prelude.{◌≡◌, ◌≤◌, ◌<◌, ◌^◌, ◌++◌, length, take, List, ℕ, Bool, [], nat_lt, true, false, OnOk, MatchBool};
ghost use Rattle.std.specs.Vec.{vec_capacity};
ghost use Rattle.ws_http.specs.declared.reply_stage.ReplyStage.TheVariants as stage;
ghost use Rattle.ws_http.specs.ResponseStages.{Ready, Small, Judged, IsSplit, Stands, count_of, is_apart, apart_from, room_of, is_full, is_last, is_chunked, is_starved};

use crate::Need;
use crate::head::head_end;
use crate::reply_chunks::{begin_chunks, take_chunks};
use crate::reply_data::grow;
use crate::reply_stage::{
    ReplyStage, is_full, is_last, read_fixed, read_front, read_lasting, room_of,
};
use ws_model::NoMemory;

/// How many bytes came up to this stage.
pub fn count_of(raw: &[u8], tail: &[u8], stage: ReplyStage) -> usize
    requires short { length (raw.now ++ tail.now) < 2 ^ 32 }
    requires fits { count_of (raw.now ++ tail.now) stage < 2 ^ 32 }
    ensures { result ≡ count_of (raw.now ++ tail.now) stage }
{
    match stage {
        ReplyStage::Chunked(head, point) => head.start + point.count,
        _ => count(raw, tail),
    }
}

/// How many bytes both have.
pub fn count(raw: &[u8], tail: &[u8]) -> usize
    requires { length (raw.now ++ tail.now) < 2 ^ 32 }
    ensures { result ≡ length (raw.now ++ tail.now) }
{
    raw.len() + tail.len()
}

// Whether the message goes on with a body that is kept apart.
fn is_apart(need: Need, stage: ReplyStage) -> bool
    ensures { result ≡ is_apart need stage }
{
    match stage {
        ReplyStage::Fixed(..) => is_full(need),
        ReplyStage::Lasting(..) => is_full(need),
        _ => false,
    }
}

// Where a body that is to be kept apart begins.
fn apart_from(need: Need, stage: ReplyStage) -> Option<usize>
    ensures { result ≡ apart_from need stage }
{
    if !is_full(need) {
        return None;
    }
    match stage {
        ReplyStage::Fixed(head, _) => Some(head.start),
        ReplyStage::Lasting(head) => Some(head.start),
        ReplyStage::Whole(head, _, false) => Some(head.start),
        _ => None,
    }
}

// Moves the bytes from a place on behind others.
fn cut(raw: &mut Vec<u8>, tail: &mut Vec<u8>, start: usize) -> Result<(), NoMemory>
    requires inside { start ≤ length raw.old.items }
    requires empty { tail.old.items ≡ [] }
    ensures bytes { raw.new.items ++ tail.new.items ≡ raw.old.items }
    ensures place { OnOk result (length raw.new.items ≡ start) }
    ensures capacity { vec_capacity raw.old ≤ vec_capacity raw.new }
{
    grow(tail, &raw[start..])?;
    raw.truncate(start);
    Ok(())
}

// Keeps apart from the heads what came of a body that isn't chunked, where all of it is asked for.
fn part(raw: &mut Vec<u8>, tail: &mut Vec<u8>, need: Need, stage: ReplyStage) -> ReplyStage
    requires ready { (body : List ℕ) × Ready need raw.old.items body stage }
    requires empty { tail.old.items ≡ [] }
    ensures bytes { raw.new.items ++ tail.new.items ≡ raw.old.items }
    ensures stage { MatchBool (is_starved result) (is_full need ≡ true) (result ≡ stage) }
    ensures apart { IsSplit need raw.new.items tail.new.items result }
    ensures capacity { vec_capacity raw.old ≤ vec_capacity raw.new }
{
    match apart_from(need, stage) {
        None => stage,
        Some(start) => match cut(raw, tail, start) {
            Ok(()) => stage,
            Err(NoMemory) => ReplyStage::NoMemory,
        },
    }
}

// Reads on in a body that is kept apart.
fn read_apart(raw: &[u8], tail: &[u8], need: Need, from: ReplyStage) -> ReplyStage
    requires short { length (raw.now ++ tail.now) ≤ room_of need }
    requires apart { is_apart need from ≡ true }
    requires ready { (body : List ℕ) × Ready need (raw.now ++ tail.now) body from }
    requires split { IsSplit need raw.now tail.now from }
    ensures judged { (over : Bool) (body : List ℕ) → Judged need (raw.now ++ tail.now) over body result }
    ensures ready { (body : List ℕ) → Ready need (raw.now ++ tail.now) body result }
    ensures small { (body : List ℕ) → Small (raw.now ++ tail.now) body result }
    ensures closes { length (raw.now ++ tail.now) ≡ room_of need → is_last result ≡ true }
    ensures plain { is_chunked result ≡ false }
    ensures split { IsSplit need raw.now tail.now result }
{
    let came = count(raw, tail);
    match from {
        ReplyStage::Fixed(head, total) => read_fixed(came, head, total),
        ReplyStage::Lasting(head) => read_lasting(came, head),
        _ => unreachable!(),
    }
}

// Takes the next piece of a body that is kept apart, and reads on.
fn take_apart(
    raw: &[u8],
    tail: &mut Vec<u8>,
    need: Need,
    piece: &[u8],
    from: ReplyStage,
) -> ReplyStage
    requires short { length (raw.now ++ tail.old.items) ≤ room_of need }
    requires apart { is_apart need from ≡ true }
    requires ready { (body : List ℕ) × Ready need (raw.now ++ tail.old.items) body from }
    requires split { IsSplit need raw.now tail.old.items from }
    ensures took { is_starved result ≡ false → raw.now ++ tail.new.items ≡ take (room_of need) ((raw.now ++ tail.old.items) ++ piece.now) }
    ensures judged { is_starved result ≡ false → (body : List ℕ)
        → Judged need (raw.now ++ tail.new.items) (nat_lt (room_of need) (length ((raw.now ++ tail.old.items) ++ piece.now))) body result }
    ensures ready { (body : List ℕ) → Ready need (raw.now ++ tail.new.items) body result }
    ensures small { (body : List ℕ) → Small (raw.now ++ tail.new.items) body result }
    ensures closes { nat_lt (room_of need) (length ((raw.now ++ tail.old.items) ++ piece.now)) ≡ true → is_last result ≡ true }
    ensures plain { is_chunked result ≡ false }
    ensures short { length (raw.now ++ tail.new.items) ≤ room_of need }
    ensures split { IsSplit need raw.now tail.new.items result }
{
    let room = room_of(need) - count(raw, tail);
    let (taken, _) = piece.split_at(room.min(piece.len()));
    match grow(tail, taken) {
        Err(NoMemory) => ReplyStage::NoMemory,
        Ok(()) => read_apart(raw, tail, need, from),
    }
}

// Takes the next piece where no chunked body has begun, and reads on.
fn take_piece(
    raw: &mut Vec<u8>,
    body: &mut Vec<u8>,
    need: Need,
    piece: &[u8],
    from: ReplyStage,
) -> ReplyStage
    requires short { length raw.old.items ≤ room_of need }
    requires kept { is_full need ≡ false → room_of need ≤ vec_capacity raw.old }
    requires fits { is_full need ≡ false → 41 ≤ vec_capacity body.old }
    requires open { is_last from ≡ false }
    requires plain { is_chunked from ≡ false }
    requires ready { Ready need raw.old.items body.old.items from }
    ensures stands { is_starved result ≡ false
        → Stands (record { need = need; bytes = raw.new.items; content = body.new.items; stage = result }) (raw.old.items ++ piece.now) false }
    ensures ready { Ready need raw.new.items body.new.items result }
    ensures small { Small raw.new.items body.new.items result }
    ensures short { length raw.new.items ≤ room_of need }
    ensures raw_capacity { vec_capacity raw.old ≤ vec_capacity raw.new }
    ensures body_capacity { vec_capacity body.old ≤ vec_capacity body.new }
{
    let before = raw.len();
    let (taken, left) = piece.split_at((room_of(need) - before).min(piece.len()));
    if let Err(NoMemory) = grow(raw, taken) {
        return ReplyStage::NoMemory;
    }
    let came = raw.len();
    match from {
        ReplyStage::Fixed(head, total) => read_fixed(came, head, total),
        ReplyStage::Lasting(head) => read_lasting(came, head),
        ReplyStage::Head(at) => match read_front(raw, need, !left.is_empty(), at) {
            ReplyStage::Chunked(head, _) => begin_chunks(raw, body, need, head, piece, before),
            stage => stage,
        },
        _ => unreachable!(),
    }
}

// Takes a part of a piece, and reads on.
fn take_part(
    raw: &mut Vec<u8>,
    tail: &mut Vec<u8>,
    body: &mut Vec<u8>,
    need: Need,
    piece: &[u8],
    from: ReplyStage,
) -> ReplyStage
    requires short { length (raw.old.items ++ tail.old.items) ≤ room_of need }
    requires kept { is_full need ≡ false → room_of need ≤ vec_capacity raw.old }
    requires fits { is_full need ≡ false → 41 ≤ vec_capacity body.old }
    requires open { is_last from ≡ false }
    requires ready { Ready need (raw.old.items ++ tail.old.items) body.old.items from }
    requires split { IsSplit need raw.old.items tail.old.items from }
    ensures stands { is_starved result ≡ false → (came : List ℕ)
        → Stands (record { need = need; bytes = raw.old.items ++ tail.old.items; content = body.old.items; stage = from }) came false
        → Stands (record { need = need; bytes = raw.new.items ++ tail.new.items; content = body.new.items; stage = result }) (came ++ piece.now) false }
    ensures ready { Ready need (raw.new.items ++ tail.new.items) body.new.items result }
    ensures small { Small (raw.new.items ++ tail.new.items) body.new.items result }
    ensures short { length (raw.new.items ++ tail.new.items) ≤ room_of need }
    ensures split { IsSplit need raw.new.items tail.new.items result }
    ensures raw_capacity { vec_capacity raw.old ≤ vec_capacity raw.new }
    ensures body_capacity { vec_capacity body.old ≤ vec_capacity body.new }
{
    if is_apart(need, from) {
        return take_apart(raw, tail, need, piece, from);
    }
    if let ReplyStage::Chunked(head, point) = from {
        return take_chunks(raw, body, need, head, piece, point);
    }
    let new = take_piece(raw, body, need, piece, from);
    part(raw, tail, need, new)
}

// Takes the next piece where the final head isn't whole. What stands up to the first empty line comes first, so that of a
// body behind a head that ends there nothing is kept with the heads.
fn take_head(
    raw: &mut Vec<u8>,
    tail: &mut Vec<u8>,
    body: &mut Vec<u8>,
    need: Need,
    piece: &[u8],
    from: ReplyStage,
) -> ReplyStage
    requires short { length (raw.old.items ++ tail.old.items) ≤ room_of need }
    requires kept { is_full need ≡ false → room_of need ≤ vec_capacity raw.old }
    requires fits { is_full need ≡ false → 41 ≤ vec_capacity body.old }
    requires open { is_last from ≡ false }
    requires ready { Ready need (raw.old.items ++ tail.old.items) body.old.items from }
    requires split { IsSplit need raw.old.items tail.old.items from }
    ensures stands { is_starved result ≡ false → (came : List ℕ)
        → Stands (record { need = need; bytes = raw.old.items ++ tail.old.items; content = body.old.items; stage = from }) came false
        → Stands (record { need = need; bytes = raw.new.items ++ tail.new.items; content = body.new.items; stage = result }) (came ++ piece.now) false }
    ensures ready { Ready need (raw.new.items ++ tail.new.items) body.new.items result }
    ensures small { Small (raw.new.items ++ tail.new.items) body.new.items result }
    ensures short { length (raw.new.items ++ tail.new.items) ≤ room_of need }
    ensures split { IsSplit need raw.new.items tail.new.items result }
    ensures raw_capacity { vec_capacity raw.old ≤ vec_capacity raw.new }
    ensures body_capacity { vec_capacity body.old ≤ vec_capacity body.new }
{
    let (front, behind) = piece.split_at(head_end(piece));
    let stage = take_part(raw, tail, body, need, front, from);
    if behind.is_empty() || is_last(stage) {
        return stage;
    }
    take_part(raw, tail, body, need, behind, stage)
}

/// Takes the next piece of the bytes, and reads on.
pub fn take_next(
    raw: &mut Vec<u8>,
    tail: &mut Vec<u8>,
    body: &mut Vec<u8>,
    need: Need,
    piece: &[u8],
    from: ReplyStage,
) -> ReplyStage
    requires short { length (raw.old.items ++ tail.old.items) ≤ room_of need }
    requires kept { is_full need ≡ false → room_of need ≤ vec_capacity raw.old }
    requires fits { is_full need ≡ false → 41 ≤ vec_capacity body.old }
    requires open { is_last from ≡ false }
    requires ready { Ready need (raw.old.items ++ tail.old.items) body.old.items from }
    requires split { IsSplit need raw.old.items tail.old.items from }
    ensures stands { is_starved result ≡ false → (came : List ℕ)
        → Stands (record { need = need; bytes = raw.old.items ++ tail.old.items; content = body.old.items; stage = from }) came false
        → Stands (record { need = need; bytes = raw.new.items ++ tail.new.items; content = body.new.items; stage = result }) (came ++ piece.now) false }
    ensures ready { Ready need (raw.new.items ++ tail.new.items) body.new.items result }
    ensures small { Small (raw.new.items ++ tail.new.items) body.new.items result }
    ensures short { length (raw.new.items ++ tail.new.items) ≤ room_of need }
    ensures split { IsSplit need raw.new.items tail.new.items result }
    ensures raw_capacity { vec_capacity raw.old ≤ vec_capacity raw.new }
    ensures body_capacity { vec_capacity body.old ≤ vec_capacity body.new }
{
    match from {
        ReplyStage::Head(_) => take_head(raw, tail, body, need, piece, from),
        _ => take_part(raw, tail, body, need, piece, from),
    }
}
