// The reply that a whole message makes.
ghost use Rattle.std.specs.Prelude.{◌≡◌, ◌++◌, ◌≤◌, All, List, ℕ, length, map, codes, IfOk, OnOk, IsOk, true, if◌then◌else◌};
ghost use Rattle.httparse.specs.Grammar.{ResponseHead, ReadsResponse};
ghost use Rattle.httparse.specs.Spans.{header_bytes, IsHeaderWithin};
ghost use Rattle.ws_http.specs.Fields.{first_value};
ghost use Rattle.ws_http.specs.ResponseFields.{or_empty, values_of, joined, told_reply, bare_reply};
ghost use Rattle.ws_http.specs.ResponseHeads.{built_of};
ghost use Rattle.ws_http.specs.ResponseStages.{is_status};

use crate::Need;
use crate::extent::value_or_empty;
use crate::head::{MAX_FIELDS, MAX_HEAD, first_named, is_called};
use crate::reply_head::{SeenReply, parse_reply};
use crate::reply_stage::is_status;
use crate::write::put;
use httparse::spans::HeaderSpan;
use std::alloc::Global;
use ws_model::{Bytes, NoMemory, Reply};

// A copy of the value of the first field of that name, or of nothing.
fn copy_named(
    alloc: Global,
    buf: &[u8],
    headers: &[HeaderSpan],
    name: &[u8],
) -> Result<Bytes, NoMemory>
    requires { All (IsHeaderWithin (length buf.now)) headers.now }
    ensures { IfOk result (λ b. b ≡ or_empty (first_value name.now (map (header_bytes buf.now) headers.now))) }
{
    Bytes::copy(alloc, value_or_empty(first_named(buf, headers, name)))
}

// Puts a value behind the text, behind `, ` where others stand before it.
fn put_joined(text: &mut Vec<u8>, some: bool, value: &[u8]) -> Result<(), NoMemory>
    ensures { OnOk result (text.new.items ≡ text.old.items ++ (if some then codes ", " ++ value.now else value.now)) }
{
    if some {
        put(text, b", ")?;
    }
    put(text, value)
}

// The values of all Link fields, joined by `, `.
fn join_links(alloc: Global, buf: &[u8], headers: &[HeaderSpan]) -> Result<Bytes, NoMemory>
    requires { All (IsHeaderWithin (length buf.now)) headers.now }
    ensures { IfOk result (λ b. b ≡ joined (values_of (codes "link") (map (header_bytes buf.now) headers.now))) }
{
    let mut text = Vec::new(alloc);
    let mut some = false;
    for header in headers {
        if is_called(buf, header, b"link") {
            put_joined(&mut text, some, header.value.of(buf))?;
            some = true;
        }
    }
    Ok(Bytes::from_vec(text))
}

// A reply that tells its fields.
fn told(
    alloc: Global,
    code: u16,
    buf: &[u8],
    headers: &[HeaderSpan],
    body: Bytes,
) -> Result<Reply, NoMemory>
    requires { All (IsHeaderWithin (length buf.now)) headers.now }
    ensures { IfOk result (λ r. r ≡ told_reply code (map (header_bytes buf.now) headers.now) body) }
{
    Ok(Reply {
        code,
        media: copy_named(alloc, buf, headers, b"content-type")?,
        coding: copy_named(alloc, buf, headers, b"content-encoding")?,
        links: join_links(alloc, buf, headers)?,
        body,
    })
}

// A reply that tells its status alone. It takes no memory.
fn bare(alloc: Global, code: u16) -> Reply
    ensures { result ≡ bare_reply code }
{
    Reply {
        code,
        media: Bytes::from_vec(Vec::new(alloc)),
        coding: Bytes::from_vec(Vec::new(alloc)),
        links: Bytes::from_vec(Vec::new(alloc)),
        body: Bytes::from_vec(Vec::new(alloc)),
    }
}

/// The reply that is asked for, of the head that stands at the front of the bytes, and of the part of
/// the body that is kept. Of the status alone it takes no memory.
pub fn build(alloc: Global, need: Need, front: &[u8], content: Bytes) -> Result<Reply, NoMemory>
    requires short { length front.now ≤ MAX_HEAD }
    requires head { (h : ResponseHead) × (rest : List ℕ) × ReadsResponse front.now h rest }
    ensures value { IfOk result (λ r. (h : ResponseHead) (rest : List ℕ) → ReadsResponse front.now h rest → r ≡ built_of need h content) }
    ensures status { is_status need ≡ true → IsOk result }
{
    let mut headers = [HeaderSpan::default(); MAX_FIELDS];
    match parse_reply(front, &mut headers) {
        SeenReply::Head(spans) => {
            if is_status(need) {
                return Ok(bare(alloc, spans.code));
            }
            let reply = told(alloc, spans.code, front, &headers[..spans.headers], content)?;
            Ok(reply)
        }
        SeenReply::Open => unreachable!(),
        SeenReply::Never => unreachable!(),
    }
}
