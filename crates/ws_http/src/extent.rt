// How long the body of a response is, by the fields of its head.
ghost use Rattle.std.specs.Prelude.{◌≡◌, All, length, map};
ghost use Rattle.httparse.specs.Grammar.{trim_ows, skip_ows, is_ows};
ghost use Rattle.httparse.specs.Spans.{header_bytes, IsHeaderWithin};
ghost use Rattle.std.specs.Prelude.{reverse};
ghost use Rattle.std.specs.Option.{option_copied};
ghost use Rattle.ws_http.specs.ResponseFields.{writes, all_write, is_other_length, all_lengths, until_comma, first_length, agreed, is_bodiless, or_empty, response_extent, has_blank, ends_blank, goes_on};

use crate::head::{all_have, count_named, first_named, is_called, length_of};
use httparse::spans::HeaderSpan;

/// How long a body is: so many bytes, as its chunks say, or up to the end of the connection.
#[derive(Clone, Copy, Debug, PartialEq, Eq)]
pub enum Extent {
    Fixed(u64),
    Chunked,
    Lasting,
}

// Whether a byte is a space or a tab.
fn is_blank(byte: u8) -> bool
    ensures { result ≡ is_ows byte }
{
    byte == b' ' || byte == b'\t'
}

// Whether a space or a tab stands at the place.
fn has_blank(text: &[u8], at: usize) -> bool
    ensures { result ≡ has_blank text.now at }
{
    at < text.len() && is_blank(text[at])
}

// The text without the white space in front.
fn skip_blank(text: &[u8]) -> &[u8]
    ensures { result.now ≡ skip_ows text.now }
{
    let mut start: usize = 0;
    'blank: while has_blank(text, start) {
        start += 1;
    }
    &text[start..]
}

// Whether a space or a tab stands before the place.
fn ends_blank(text: &[u8], end: usize) -> bool
    ensures { result ≡ ends_blank text.now end }
{
    end > 0 && has_blank(text, end - 1)
}

// The text without the white space behind.
fn cut_blank(text: &[u8]) -> &[u8]
    ensures { result.now ≡ reverse (skip_ows (reverse text.now)) }
{
    let mut end: usize = text.len();
    'blank: while ends_blank(text, end) {
        end -= 1;
    }
    &text[..end]
}

// The text without the white space at its ends.
#[tactic(auto, unfolding(httparse::specs::Grammar::trim_ows))]
fn trimmed(text: &[u8]) -> &[u8]
    ensures { result.now ≡ trim_ows text.now }
{
    cut_blank(skip_blank(text))
}

// Whether the element of a list writes the number.
fn is_written(number: u64, element: &[u8]) -> bool
    ensures { result ≡ writes number element.now }
{
    match length_of(trimmed(element)) {
        None => false,
        Some(written) => written == number,
    }
}

// Whether each element of the list writes the number.
fn all_written(number: u64, value: &[u8]) -> bool
    ensures { result ≡ all_write number value.now }
{
    value
        .split(|b| *b == b',')
        .all(|element| is_written(number, element))
}

// Whether the field is a Content-Length of another number.
fn is_other(buf: &[u8], header: &HeaderSpan, number: u64) -> bool
    requires { IsHeaderWithin (length buf.now) header.now }
    ensures { result ≡ is_other_length number (header_bytes buf.now header.now) }
{
    is_called(buf, header, b"content-length") && !all_written(number, header.value.of(buf))
}

// Whether each Content-Length is the number.
fn all_are_length(buf: &[u8], headers: &[HeaderSpan], number: u64) -> bool
    requires { All (IsHeaderWithin (length buf.now)) headers.now }
    ensures { result ≡ all_lengths number (map (header_bytes buf.now) headers.now) }
{
    for header in headers {
        if is_other(buf, header, number) {
            return false;
        }
    }
    true
}

// Whether a byte other than a comma stands at the place.
fn goes_on(value: &[u8], at: usize) -> bool
    ensures { result ≡ goes_on value.now at }
{
    at < value.len() && value[at] != b','
}

// The bytes before the first comma.
fn first_element(value: &[u8]) -> &[u8]
    ensures { result.now ≡ until_comma value.now }
{
    let mut end: usize = 0;
    'bytes: while goes_on(value, end) {
        end += 1;
    }
    &value[..end]
}

// The first number that a Content-Length writes.
fn first_length_of(buf: &[u8], headers: &[HeaderSpan]) -> Option<u64>
    requires { All (IsHeaderWithin (length buf.now)) headers.now }
    ensures { result ≡ first_length (map (header_bytes buf.now) headers.now) }
{
    let value = value_or_empty(first_named(buf, headers, b"content-length"));
    length_of(trimmed(first_element(value)))
}

/// The value, or nothing where there is none.
pub fn value_or_empty(value: Option<&[u8]>) -> &[u8]
    ensures { result.now ≡ or_empty (option_copied value.entry) }
{
    match value {
        None => b"",
        Some(value) => value,
    }
}

// The one number that each Content-Length writes.
fn agreed_length(buf: &[u8], headers: &[HeaderSpan]) -> Option<u64>
    requires { All (IsHeaderWithin (length buf.now)) headers.now }
    ensures { result ≡ agreed (first_length (map (header_bytes buf.now) headers.now)) (map (header_bytes buf.now) headers.now) }
{
    match first_length_of(buf, headers) {
        None => None,
        Some(number) => {
            if all_are_length(buf, headers, number) {
                Some(number)
            } else {
                None
            }
        }
    }
}

// Whether a response of this code has no body.
fn is_bodiless(code: u16) -> bool
    ensures { result ≡ is_bodiless code }
{
    code == 204 || code == 304
}

/// How long the body of a response is, where its head says so in a sound way.
#[tactic(auto, unfolding(crate::specs::ResponseFields::response_extent))]
pub fn extent_of(code: u16, buf: &[u8], headers: &[HeaderSpan]) -> Option<Extent>
    requires { All (IsHeaderWithin (length buf.now)) headers.now }
    ensures { result ≡ response_extent code (map (header_bytes buf.now) headers.now) }
{
    if is_bodiless(code) {
        return Some(Extent::Fixed(0));
    }
    if count_named(buf, headers, b"transfer-encoding") > 0 {
        if all_have(buf, headers, b"transfer-encoding", b"chunked") {
            return Some(Extent::Chunked);
        }
        return None;
    }
    if count_named(buf, headers, b"content-length") > 0 {
        return agreed_length(buf, headers).map(Extent::Fixed);
    }
    Some(Extent::Lasting)
}
