// The parts of a request's head, for which it is parsed once more.
ghost use Rattle.std.specs.Prelude.{◌≡◌, ◌≤◌, ℕ, List, All, length, map, take, codes};
ghost use Rattle.std.specs.Option.{option_copied};
ghost use Rattle.httparse.specs.Grammar.{RequestHead, ReadsRequest};
ghost use Rattle.httparse.specs.Spans.{header_bytes, IsHeaderWithin};
ghost use Rattle.ws_http.specs.Fields.{first_value, fields_of, is_value, has_body, expects_continue};

use crate::head::{Framing, MAX_FIELDS, Seen, first_named, framing_of, front_of, parse};
use httparse::spans::HeaderSpan;

/// The method.
pub fn method_of(raw: &[u8]) -> &[u8]
    ensures { (h : RequestHead) (rest : List ℕ) → ReadsRequest (take 16384 raw.now) h rest → result.now ≡ h.method }
{
    let front = front_of(raw);
    let mut headers = [HeaderSpan::default(); MAX_FIELDS];
    match parse(front, &mut headers) {
        Seen::Head(spans) => spans.method.of(front),
        Seen::Open => front,
        Seen::Never => front,
    }
}

/// The target.
pub fn target_of(raw: &[u8]) -> &[u8]
    ensures { (h : RequestHead) (rest : List ℕ) → ReadsRequest (take 16384 raw.now) h rest → result.now ≡ h.target }
{
    let front = front_of(raw);
    let mut headers = [HeaderSpan::default(); MAX_FIELDS];
    match parse(front, &mut headers) {
        Seen::Head(spans) => spans.path.of(front),
        Seen::Open => front,
        Seen::Never => front,
    }
}

/// The value of the first field of that name.
pub fn field_of<'b>(raw: &'b [u8], name: &[u8]) -> Option<&'b [u8]>
    ensures { (h : RequestHead) (rest : List ℕ) → ReadsRequest (take 16384 raw.now) h rest
        → option_copied result ≡ first_value name.now (fields_of h.fields) }
{
    let front = front_of(raw);
    let mut headers = [HeaderSpan::default(); MAX_FIELDS];
    match parse(front, &mut headers) {
        Seen::Head(spans) => first_named(front, &headers[..spans.headers], name),
        Seen::Open => None,
        Seen::Never => None,
    }
}

/// Whether the sender waits for an interim answer.
pub fn expects_of(raw: &[u8]) -> bool
    ensures { (h : RequestHead) (rest : List ℕ) → ReadsRequest (take 16384 raw.now) h rest
        → result ≡ expects_continue h.minor (fields_of h.fields) }
{
    let front = front_of(raw);
    let mut headers = [HeaderSpan::default(); MAX_FIELDS];
    match parse(front, &mut headers) {
        Seen::Head(spans) => awaits(front, spans.version, &headers[..spans.headers]),
        Seen::Open => false,
        Seen::Never => false,
    }
}

// The same by the fields.
#[tactic(auto, unfolding(crate::specs::Fields::expects_continue))]
fn awaits(buf: &[u8], version: u8, headers: &[HeaderSpan]) -> bool
    requires { All (IsHeaderWithin (length buf.now)) headers.now }
    ensures { result ≡ expects_continue version (map (header_bytes buf.now) headers.now) }
{
    version == 1
        && names_continue(first_named(buf, headers, b"expect"))
        && comes(framing_of(buf, headers))
}

// Whether the value names the interim answer 100.
fn names_continue(value: Option<&[u8]>) -> bool
    ensures { result ≡ is_value (option_copied value.entry) (codes "100-continue") }
{
    match value {
        None => false,
        Some(value) => value.eq_ignore_ascii_case(b"100-continue"),
    }
}

// Whether there is a body to wait for.
fn comes(framing: Option<Framing>) -> bool
    ensures { result ≡ has_body framing }
{
    match framing {
        None => false,
        Some(Framing::Fixed(length)) => length > 0,
        Some(Framing::Chunked) => true,
    }
}
