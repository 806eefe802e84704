// A response with a chunked body.
ghost use Rattle.std.specs.Prelude.{◌≡◌, ◌≤◌, ℕ, List, [], ◌++◌, length, take, Some, None, false};
ghost use Rattle.std.specs.Vec.{vec_capacity};
ghost use Rattle.httparse.specs.Grammar.{ResponseHead};
ghost use Rattle.ws_http.specs.declared.extent.Extent.TheVariants as extent;
ghost use Rattle.ws_http.specs.ResponseStages.{Ready, Small, Chunking, apart_from, Stands, HasFinal, extent_by, front, room_of, is_full, is_status, is_starved};

use crate::flow::{DataEnd, Point, Quota, read_data};
use crate::reply_data::{BODY_LIMIT, first};
use crate::reply_head::FinalHead;
use crate::reply_stage::{RAW_LIMIT, ReplyStage};
use crate::{BadWhy, Need};

/// Takes the next piece of a chunked body, and reads on.
pub fn take_chunks(
    raw: &mut Vec<u8>,
    body: &mut Vec<u8>,
    need: Need,
    head: FinalHead,
    piece: &[u8],
    point: Point,
) -> ReplyStage
    requires live { (came : List ℕ) × Chunking need raw.old.items body.old.items head point came }
    requires kept { is_full need ≡ false → room_of need ≤ vec_capacity raw.old }
    requires fits { is_full need ≡ false → 41 ≤ vec_capacity body.old }
    ensures stands { is_starved result ≡ false → (came : List ℕ) → Chunking need raw.old.items body.old.items head point came
        → Stands (record { need = need; bytes = raw.new.items; content = body.new.items; stage = result }) (came ++ piece.now) false }
    ensures ready { Ready need raw.new.items body.new.items result }
    ensures small { Small raw.new.items body.new.items result }
    ensures short { length raw.new.items ≤ room_of need }
    ensures together { apart_from need result ≡ None }
    ensures raw_capacity { vec_capacity raw.old ≤ vec_capacity raw.new }
    ensures body_capacity { vec_capacity body.old ≤ vec_capacity body.new }
{
    let part = first(piece, RAW_LIMIT - point.count);
    let quota = Quota {
        need,
        limit: BODY_LIMIT,
    };
    match read_data(raw, head.start, body, quota, part, point) {
        DataEnd::Open(point) => {
            if part.len() < piece.len() {
                ReplyStage::Bad(BadWhy::TooLong)
            } else {
                ReplyStage::Chunked(head, point)
            }
        }
        DataEnd::Over => ReplyStage::Bad(BadWhy::TooLong),
        DataEnd::Wrong => ReplyStage::Bad(BadWhy::Chunk),
        DataEnd::Last(total) => ReplyStage::Whole(head, head.start + total, true),
        DataEnd::NoMemory => ReplyStage::NoMemory,
    }
}

/// Begins a chunked body behind the final head, which became whole with the piece that stands behind so many bytes.
pub fn begin_chunks(
    raw: &mut Vec<u8>,
    body: &mut Vec<u8>,
    need: Need,
    head: FinalHead,
    piece: &[u8],
    before: usize,
) -> ReplyStage
    requires heads { (h : ResponseHead) × HasFinal (front raw.old.items) head h × (extent_by h ≡ Some extent.Chunked) × (is_status need ≡ false) }
    requires took { raw.old.items ≡ take (room_of need) (take before raw.old.items ++ piece.now) }
    requires first { before ≤ head.start }
    requires kept { is_full need ≡ false → room_of need ≤ vec_capacity raw.old }
    requires fits { is_full need ≡ false → 41 ≤ vec_capacity body.old }
    requires empty { body.old.items ≡ [] }
    ensures stands { is_starved result ≡ false → Stands (record { need = need; bytes = raw.new.items; content = body.new.items; stage = result })
        (take before raw.old.items ++ piece.now) false }
    ensures ready { Ready need raw.new.items body.new.items result }
    ensures small { Small raw.new.items body.new.items result }
    ensures short { length raw.new.items ≤ room_of need }
    ensures raw_capacity { vec_capacity raw.old ≤ vec_capacity raw.new }
    ensures body_capacity { vec_capacity body.old ≤ vec_capacity body.new }
{
    raw.truncate(head.start);
    let (_, behind) = piece.split_at(head.start - before);
    take_chunks(raw, body, need, head, behind, Point::begin())
}
