// The answer 503, which takes no memory once there is room for it.
ghost use Rattle.std.specs.Prelude.{◌≡◌, ◌+◌, ◌≤◌, ◌<◌, ◌^◌, ◌++◌, [], length, decimal, codes, vec_len};
ghost use Rattle.std.specs.Vec.{vec_capacity};
ghost use Rattle.ws_front.specs.Answers.{kind_text, full_text, response_bytes};

use itoa::Buffer;
use ws_model::{Bytes, Kind};

/// Room for the text of what is full.
pub const TEXT_ROOM: usize = 64;

/// Room for the whole answer.
pub const ANSWER_ROOM: usize = 256;

const HEAD: &[u8] =
    b"HTTP/1.1 503 Service Unavailable\r\nContent-Type: text/plain; charset=utf-8\r\nContent-Length: ";

// Puts the bytes behind others, for which there is room.
fn keep(kept: &mut Vec<u8>, bytes: &[u8])
    requires { vec_len kept.old + length bytes.now ≤ vec_capacity kept.old }
    ensures items { kept.new.items ≡ kept.old.items ++ bytes.now }
    ensures len { vec_len kept.new ≡ vec_len kept.old + length bytes.now }
    ensures capacity { vec_capacity kept.old ≤ vec_capacity kept.new }
{
    match kept.extend_from_slice(bytes) {
        Ok(()) => {}
        Err(_) => unreachable!(),
    }
}

// Puts a number behind the bytes, in at most 20 decimal digits.
fn keep_number(kept: &mut Vec<u8>, number: u64)
    requires { vec_len kept.old + 20 ≤ vec_capacity kept.old }
    ensures items { kept.new.items ≡ kept.old.items ++ decimal number }
    ensures len { vec_len kept.new ≤ vec_len kept.old + 20 }
    ensures capacity { vec_capacity kept.old ≤ vec_capacity kept.new }
{
    keep(kept, Buffer::new().format(number).as_bytes());
}

// The name of what is full.
fn kind_text(kind: Kind) -> &'static [u8]
    ensures text { result.now ≡ kind_text kind }
    ensures short { length result.now ≤ 7 }
{
    match kind {
        Kind::Pending => b"pending",
        Kind::Leases => b"leases",
        Kind::Numbers => b"numbers",
        Kind::Journal => b"journal",
    }
}

// Puts the text of what is full: how many are held, and the limit.
fn keep_full_text(text: &mut Vec<u8>, kind: Kind, held: u64, limit: u64)
    requires empty { text.old.items ≡ [] }
    requires fresh { vec_len text.old ≡ 0 }
    requires room { TEXT_ROOM ≤ vec_capacity text.old }
    ensures text { text.new.items ≡ full_text kind held limit }
    ensures short { vec_len text.new ≤ 58 }
{
    keep(text, b"full: ");
    keep(text, kind_text(kind));
    keep(text, b" ");
    keep_number(text, held);
    keep(text, b" of ");
    keep_number(text, limit);
}

/// The bytes of the answer 503, which says what is full (RFC 9110, section 15.6.4). The vectors are its room.
#[tactic(auto, unfolding(ws_http::specs::Texts::response_text))]
pub fn full_answer(
    mut text: Vec<u8>,
    mut answer: Vec<u8>,
    kind: Kind,
    held: u64,
    limit: u64,
) -> Bytes
    requires text_empty { text.items ≡ [] }
    requires text_fresh { vec_len text ≡ 0 }
    requires text_room { TEXT_ROOM ≤ vec_capacity text }
    requires answer_empty { answer.items ≡ [] }
    requires answer_fresh { vec_len answer ≡ 0 }
    requires answer_room { ANSWER_ROOM ≤ vec_capacity answer }
    ensures { result ≡ response_bytes (record { code = 503; text = full_text kind held limit }) }
{
    keep_full_text(&mut text, kind, held, limit);
    keep(&mut answer, HEAD);
    keep_number(&mut answer, text.len() as u64 + 1);
    keep(&mut answer, b"\r\nConnection: close\r\n\r\n");
    keep(&mut answer, &text);
    keep(&mut answer, b"\n");
    Bytes::from_vec(answer)
}
