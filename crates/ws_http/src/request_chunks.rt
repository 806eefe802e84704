// A request with a chunked body.
ghost use Rattle.std.specs.Prelude.{◌≡◌, ◌≤◌, ℕ, List, [], ◌++◌, length, take};
ghost use Rattle.std.specs.Vec.{vec_capacity};
ghost use Rattle.ws_http.specs.declared.head.Framing.TheVariants as framing;
ghost use Rattle.ws_http.specs.RequestStages.{Ready, Chunking, Stands, HasHead};

use crate::flow::{DataEnd, Point, Quota, read_data};
use crate::reply_data::first;
use crate::stage::Stage;
use crate::{BadWhy, Need};

/// Takes the next piece of a chunked body behind a head of so many bytes, and reads on. It takes no memory.
pub fn take_chunks(
    raw: &mut Vec<u8>,
    body: &mut Vec<u8>,
    room: usize,
    head: usize,
    piece: &[u8],
    point: Point,
) -> Stage
    requires live { (came : List ℕ) × Chunking room raw.old.items body.old.items head point came }
    requires most { room ≤ 4210688 }
    requires kept { room ≤ vec_capacity raw.old }
    requires fits { room ≤ vec_capacity body.old }
    ensures stands { (came : List ℕ) → Chunking room raw.old.items body.old.items head point came
        → Stands (record { room = room; bytes = raw.new.items; content = body.new.items; stage = result }) (came ++ piece.now) }
    ensures ready { Ready room raw.new.items body.new.items result }
    ensures short { length raw.new.items ≤ room }
    ensures raw_capacity { vec_capacity raw.old ≤ vec_capacity raw.new }
    ensures body_capacity { vec_capacity body.old ≤ vec_capacity body.new }
{
    let part = first(piece, room - head - point.count);
    let quota = Quota {
        need: Need::Full,
        limit: room,
    };
    match read_data(raw, head, body, quota, part, point) {
        DataEnd::Open(point) => {
            if part.len() < piece.len() {
                Stage::Bad(BadWhy::TooLong, true)
            } else {
                Stage::Chunked(head, point)
            }
        }
        DataEnd::Wrong => Stage::Bad(BadWhy::Chunk, true),
        DataEnd::Last(total) => Stage::Whole(head, head + total, true),
        DataEnd::Over => unreachable!(),
        DataEnd::NoMemory => unreachable!(),
    }
}

/// Begins a chunked body behind a head of so many bytes, which became whole with the piece that stands behind `before`
/// bytes. It takes no memory.
pub fn begin_chunks(
    raw: &mut Vec<u8>,
    body: &mut Vec<u8>,
    room: usize,
    head: usize,
    piece: &[u8],
    before: usize,
) -> Stage
    requires heads { HasHead raw.old.items head framing.Chunked }
    requires took { raw.old.items ≡ take room (take before raw.old.items ++ piece.now) }
    requires first { before ≤ head }
    requires least { 16384 ≤ room }
    requires most { room ≤ 4210688 }
    requires kept { room ≤ vec_capacity raw.old }
    requires fits { room ≤ vec_capacity body.old }
    requires empty { body.old.items ≡ [] }
    ensures stands { Stands (record { room = room; bytes = raw.new.items; content = body.new.items; stage = result })
        (take before raw.old.items ++ piece.now) }
    ensures ready { Ready room raw.new.items body.new.items result }
    ensures short { length raw.new.items ≤ room }
    ensures raw_capacity { vec_capacity raw.old ≤ vec_capacity raw.new }
    ensures body_capacity { vec_capacity body.old ≤ vec_capacity body.new }
{
    raw.truncate(head);
    let (_, behind) = piece.split_at(head - before);
    take_chunks(raw, body, room, head, behind, Point::begin())
}
