// What the head of a request says: whether it is one, and how long its body is.
ghost use Rattle.std.specs.Prelude.{◌≡◌, ◌≤◌, ◌<◌, ◌^◌, All, length, map, take, Some, None, IfSome};
ghost use Rattle.std.specs.Option.{option_copied};
ghost use Rattle.httparse.specs.Spans.{header_bytes, IsHeaderWithin, IsRequestWithin};
ghost use Rattle.ws_http.specs.Fields.{is_named, is_other_value, how_many, first_value, all_are, length_value, declared_length, request_framing, has_host};
ghost use Rattle.ws_http.specs.Heads.{Sees, Judges, EndsAt};

use crate::BadWhy;
use httparse::spans::{HeaderSpan, RequestSpans, parse_request};
use httparse::{Error, Status};
use memchr::memmem;

/// The most bytes that a head has.
pub const MAX_HEAD: usize = 16_384;

/// Room for more fields than a head of `MAX_HEAD` bytes can have.
pub const MAX_FIELDS: usize = 5462;

/// How long a body is: so many bytes, or as its chunks say.
#[derive(Clone, Copy, Debug, PartialEq, Eq)]
pub enum Framing {
    Fixed(u64),
    Chunked,
}

/// What stands at the front of the bytes: a head, the begin of one, or what can't become one.
pub enum Seen {
    Head(RequestSpans),
    Open,
    Never,
}

/// The verdict on the front of a request.
pub enum Judged {
    /// No whole head has come.
    Open,
    /// The head is refused.
    Bad(BadWhy),
    /// A sound head of so many bytes.
    Head(usize, Framing),
}

/// The first 16,384 bytes, or all.
pub fn front_of(bytes: &[u8]) -> &[u8]
    ensures value { result.now ≡ take MAX_HEAD bytes.now }
    ensures bound { length result.now ≤ MAX_HEAD }
{
    if bytes.len() > MAX_HEAD {
        &bytes[..MAX_HEAD]
    } else {
        bytes
    }
}

/// How many bytes stand up to the first empty line and with it, or all. A head ends there, or goes on from there.
pub fn head_end(piece: &[u8]) -> usize
    ensures ends { EndsAt piece.now result }
    ensures most { result ≤ length piece.now }
{
    match memmem::find(piece, b"\r\n\r\n") {
        Some(at) => at + 4,
        None => piece.len(),
    }
}

/// Whether a field has that name, whatever the case of its letters.
pub fn is_called(buf: &[u8], header: &HeaderSpan, name: &[u8]) -> bool
    requires { IsHeaderWithin (length buf.now) header.now }
    ensures { result ≡ is_named name.now (header_bytes buf.now header.now) }
{
    header.name.of(buf).eq_ignore_ascii_case(name)
}

// Whether a field of that name has another value, whatever the case of the letters.
fn is_other(buf: &[u8], header: &HeaderSpan, name: &[u8], value: &[u8]) -> bool
    requires { IsHeaderWithin (length buf.now) header.now }
    ensures { result ≡ is_other_value name.now value.now (header_bytes buf.now header.now) }
{
    is_called(buf, header, name) && !header.value.of(buf).eq_ignore_ascii_case(value)
}

/// How many fields have that name, whatever the case of its letters.
pub fn count_named(buf: &[u8], headers: &[HeaderSpan], name: &[u8]) -> usize
    requires { All (IsHeaderWithin (length buf.now)) headers.now }
    ensures value { result ≡ how_many name.now (map (header_bytes buf.now) headers.now) }
    ensures bound { result ≤ length headers.now }
{
    let mut count: usize = 0;
    for header in headers {
        if is_called(buf, header, name) {
            count += 1;
        }
    }
    count
}

/// The value of the first field of that name.
pub fn first_named<'b>(buf: &'b [u8], headers: &[HeaderSpan], name: &[u8]) -> Option<&'b [u8]>
    requires { All (IsHeaderWithin (length buf.now)) headers.now }
    ensures { option_copied result ≡ first_value name.now (map (header_bytes buf.now) headers.now) }
{
    for header in headers {
        if is_called(buf, header, name) {
            return Some(header.value.of(buf));
        }
    }
    None
}

/// Whether each field of that name has that value, whatever the case of its letters.
pub fn all_have(buf: &[u8], headers: &[HeaderSpan], name: &[u8], value: &[u8]) -> bool
    requires { All (IsHeaderWithin (length buf.now)) headers.now }
    ensures { result ≡ all_are name.now value.now (map (header_bytes buf.now) headers.now) }
{
    for header in headers {
        if is_other(buf, header, name, value) {
            return false;
        }
    }
    true
}

/// The number that 1 to 18 digits write.
pub fn length_of(value: &[u8]) -> Option<u64>
    ensures { result ≡ length_value value.now }
{
    if value.is_empty() || value.len() > 18 {
        return None;
    }
    let mut number: u64 = 0;
    for byte in value {
        if !byte.is_ascii_digit() {
            return None;
        }
        number = number * 10 + u64::from(*byte - b'0');
    }
    Some(number)
}

/// How long the body of a request is, where its fields say so in a sound way.
#[tactic(auto, unfolding(crate::specs::Fields::request_framing))]
pub fn framing_of(buf: &[u8], headers: &[HeaderSpan]) -> Option<Framing>
    requires { All (IsHeaderWithin (length buf.now)) headers.now }
    ensures { result ≡ request_framing (map (header_bytes buf.now) headers.now) }
{
    let lengths = count_named(buf, headers, b"content-length");
    if count_named(buf, headers, b"transfer-encoding") > 0 {
        if lengths > 0 || !all_have(buf, headers, b"transfer-encoding", b"chunked") {
            return None;
        }
        return Some(Framing::Chunked);
    }
    if lengths > 1 {
        return None;
    }
    match first_named(buf, headers, b"content-length") {
        None => Some(Framing::Fixed(0)),
        Some(value) => length_of(value).map(Framing::Fixed),
    }
}

/// Whether the request has one Host, or is of HTTP/1.0.
#[tactic(auto, unfolding(crate::specs::Fields::has_host))]
pub fn is_hosted(buf: &[u8], version: u8, headers: &[HeaderSpan]) -> bool
    requires { All (IsHeaderWithin (length buf.now)) headers.now }
    ensures { result ≡ has_host version (map (header_bytes buf.now) headers.now) }
{
    version == 0 || count_named(buf, headers, b"host") == 1
}

/// What stands at the front of the bytes.
pub fn parse(front: &[u8], headers: &mut [HeaderSpan]) -> Seen
    requires short { length front.now ≤ MAX_HEAD }
    requires room { length headers.old ≡ MAX_FIELDS }
    ensures sees { Sees front.now headers.new result }
{
    match parse_request(front, headers) {
        Ok(Status::Complete(spans)) => Seen::Head(spans),
        Ok(Status::Partial) => Seen::Open,
        Err(Error::TooManyHeaders) => unreachable!(),
        Err(_) => Seen::Never,
    }
}

/// The verdict on the front of a request.
pub fn judge(front: &[u8]) -> Judged
    requires { length front.now ≤ MAX_HEAD }
    ensures { Judges front.now result }
{
    let mut headers = [HeaderSpan::default(); MAX_FIELDS];
    match parse(front, &mut headers) {
        Seen::Open => Judged::Open,
        Seen::Never => Judged::Bad(BadWhy::Head),
        Seen::Head(spans) => judge_head(front, &headers, spans),
    }
}

// The verdict on a whole head.
fn judge_head(front: &[u8], headers: &[HeaderSpan], spans: RequestSpans) -> Judged
    requires { Sees front.now headers.now (Seen.Head spans) }
    ensures { Judges front.now result }
{
    let headers = &headers[..spans.headers];
    if !is_hosted(front, spans.version, headers) {
        return Judged::Bad(BadWhy::Host);
    }
    match framing_of(front, headers) {
        None => Judged::Bad(BadWhy::Framing),
        Some(framing) => Judged::Head(spans.len, framing),
    }
}
