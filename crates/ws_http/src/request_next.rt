// The next piece of a request.
ghost use Rattle.std.specs.Prelude.{◌≡◌, ◌≤◌, ℕ, List, ◌++◌, length, false};
ghost use Rattle.std.specs.Vec.{vec_capacity};
ghost use Rattle.ws_http.specs.declared.stage.Stage.TheVariants as stage;
ghost use Rattle.ws_http.specs.RequestStages.{Ready, Stands, is_last, is_chunked};

use crate::head::{MAX_HEAD, head_end};
use crate::request_chunks::{begin_chunks, take_chunks};
use crate::stage::{Stage, is_last, keep, read_fixed, read_head};

// Takes the next piece where no chunked body has begun, and reads on.
fn take_piece(
    raw: &mut Vec<u8>,
    body: &mut Vec<u8>,
    room: usize,
    piece: &[u8],
    from: Stage,
) -> Stage
    requires least { MAX_HEAD ≤ room }
    requires most { room ≤ 4210688 }
    requires short { length raw.old.items ≤ room }
    requires kept { room ≤ vec_capacity raw.old }
    requires fits { room ≤ vec_capacity body.old }
    requires open { is_last from ≡ false }
    requires plain { is_chunked from ≡ false }
    requires ready { Ready room raw.old.items body.old.items from }
    ensures stands { Stands (record { room = room; bytes = raw.new.items; content = body.new.items; stage = result }) (raw.old.items ++ piece.now) }
    ensures ready { Ready room raw.new.items body.new.items result }
    ensures short { length raw.new.items ≤ room }
    ensures raw_capacity { vec_capacity raw.old ≤ vec_capacity raw.new }
    ensures body_capacity { vec_capacity body.old ≤ vec_capacity body.new }
{
    let before = raw.len();
    let (taken, left) = piece.split_at((room - before).min(piece.len()));
    keep(raw, taken);
    let over = !left.is_empty();
    match from {
        Stage::Fixed(head, total) => read_fixed(raw, room, over, head, total),
        Stage::Head => match read_head(raw, room, over) {
            Stage::Chunked(head, _) => begin_chunks(raw, body, room, head, piece, before),
            stage => stage,
        },
        _ => unreachable!(),
    }
}

// Takes a part of a piece, and reads on.
fn take_part(raw: &mut Vec<u8>, body: &mut Vec<u8>, room: usize, piece: &[u8], from: Stage) -> Stage
    requires least { MAX_HEAD ≤ room }
    requires most { room ≤ 4210688 }
    requires short { length raw.old.items ≤ room }
    requires kept { room ≤ vec_capacity raw.old }
    requires fits { room ≤ vec_capacity body.old }
    requires open { is_last from ≡ false }
    requires ready { Ready room raw.old.items body.old.items from }
    ensures stands { (came : List ℕ)
        → Stands (record { room = room; bytes = raw.old.items; content = body.old.items; stage = from }) came
        → Stands (record { room = room; bytes = raw.new.items; content = body.new.items; stage = result }) (came ++ piece.now) }
    ensures ready { Ready room raw.new.items body.new.items result }
    ensures short { length raw.new.items ≤ room }
    ensures raw_capacity { vec_capacity raw.old ≤ vec_capacity raw.new }
    ensures body_capacity { vec_capacity body.old ≤ vec_capacity body.new }
{
    if let Stage::Chunked(head, point) = from {
        return take_chunks(raw, body, room, head, piece, point);
    }
    take_piece(raw, body, room, piece, from)
}

// Takes the next piece where no head is whole. What stands up to the first empty line comes first, so that of a body
// behind a head that ends there nothing is kept with the head.
fn take_head(raw: &mut Vec<u8>, body: &mut Vec<u8>, room: usize, piece: &[u8]) -> Stage
    requires least { MAX_HEAD ≤ room }
    requires most { room ≤ 4210688 }
    requires short { length raw.old.items ≤ room }
    requires kept { room ≤ vec_capacity raw.old }
    requires fits { room ≤ vec_capacity body.old }
    requires ready { Ready room raw.old.items body.old.items stage.Head }
    ensures stands { (came : List ℕ)
        → Stands (record { room = room; bytes = raw.old.items; content = body.old.items; stage = stage.Head }) came
        → Stands (record { room = room; bytes = raw.new.items; content = body.new.items; stage = result }) (came ++ piece.now) }
    ensures ready { Ready room raw.new.items body.new.items result }
    ensures short { length raw.new.items ≤ room }
    ensures raw_capacity { vec_capacity raw.old ≤ vec_capacity raw.new }
    ensures body_capacity { vec_capacity body.old ≤ vec_capacity body.new }
{
    let (front, behind) = piece.split_at(head_end(piece));
    let stage = take_part(raw, body, room, front, Stage::Head);
    if behind.is_empty() || is_last(stage) {
        return stage;
    }
    take_part(raw, body, room, behind, stage)
}

/// Takes the next piece of the bytes, and reads on. It takes no memory.
pub fn take_next(
    raw: &mut Vec<u8>,
    body: &mut Vec<u8>,
    room: usize,
    piece: &[u8],
    from: Stage,
) -> Stage
    requires least { MAX_HEAD ≤ room }
    requires most { room ≤ 4210688 }
    requires short { length raw.old.items ≤ room }
    requires kept { room ≤ vec_capacity raw.old }
    requires fits { room ≤ vec_capacity body.old }
    requires open { is_last from ≡ false }
    requires ready { Ready room raw.old.items body.old.items from }
    ensures stands { (came : List ℕ)
        → Stands (record { room = room; bytes = raw.old.items; content = body.old.items; stage = from }) came
        → Stands (record { room = room; bytes = raw.new.items; content = body.new.items; stage = result }) (came ++ piece.now) }
    ensures ready { Ready room raw.new.items body.new.items result }
    ensures short { length raw.new.items ≤ room }
    ensures raw_capacity { vec_capacity raw.old ≤ vec_capacity raw.new }
    ensures body_capacity { vec_capacity body.old ≤ vec_capacity body.new }
{
    match from {
        Stage::Head => take_head(raw, body, room, piece),
        _ => take_part(raw, body, room, piece, from),
    }
}
