// The texts of the requests and the answers that are written.
ghost use Rattle.std.specs.Prelude.{◌≡◌, ◌==◌, ◌++◌, IfOk, OnOk, IsTrue, codes, true, false};
ghost use Rattle.std.specs.Fmt.{decimal};
ghost use Rattle.std.specs.List.{flat_map};
ghost use Rattle.ws_http.specs.Texts.{request_text, response_text, phrase, is_answer_code, field_line, allow_line};

use crate::code::phrase_of;
use std::alloc::Global;
use ws_model::{Bytes, NoMemory, Pair};

/// Puts the bytes behind the text.
pub fn put(text: &mut Vec<u8>, bytes: &[u8]) -> Result<(), NoMemory>
    ensures { OnOk result (text.new.items ≡ text.old.items ++ bytes.now) }
{
    text.extend_from_slice(bytes)?;
    Ok(())
}

// Puts a number behind the text, in decimal digits.
fn put_number(alloc: Global, text: &mut Vec<u8>, number: usize) -> Result<(), NoMemory>
    ensures { OnOk result (text.new.items ≡ text.old.items ++ decimal number) }
{
    let digits = number.to_string(alloc)?;
    put(text, digits.as_bytes())
}

// Puts a field line behind the text.
fn put_field(text: &mut Vec<u8>, field: &Pair) -> Result<(), NoMemory>
    ensures { OnOk result (text.new.items ≡ text.old.items ++ field_line field.now) }
{
    put(text, field.name.as_slice())?;
    put(text, b": ")?;
    put(text, field.value.as_slice())?;
    put(text, b"\r\n")
}

// Puts the field lines behind the text.
fn put_fields(text: &mut Vec<u8>, fields: &[Pair]) -> Result<(), NoMemory>
    ensures { OnOk result (text.new.items ≡ text.old.items ++ flat_map field_line fields.now) }
{
    for field in fields {
        put_field(text, field)?;
    }
    Ok(())
}

/// The text of a request: its line, the fields, `Connection: close`, and the body
/// (RFC 9112, sections 3, 5 and 9.6).
///
/// What the body needs, as Host and Content-Length, stands among `fields`. NoMemory is the one error.
#[tactic(auto, unfolding(crate::specs::Texts::request_text))]
pub fn write_request(
    alloc: Global,
    method: &[u8],
    target: &[u8],
    fields: &[Pair],
    body: &[u8],
) -> Result<Bytes, NoMemory>
    ensures { IfOk result (λ text. text ≡ request_text method.now target.now fields.now body.now) }
{
    let mut text = Vec::new(alloc);
    put(&mut text, method)?;
    put(&mut text, b" ")?;
    put(&mut text, target)?;
    put(&mut text, b" HTTP/1.1\r\n")?;
    put_fields(&mut text, fields)?;
    put(&mut text, b"Connection: close\r\n\r\n")?;
    put(&mut text, body)?;
    Ok(Bytes::from_vec(text))
}

// Puts the status line behind the text.
fn put_status(alloc: Global, text: &mut Vec<u8>, code: u16) -> Result<(), NoMemory>
    requires { is_answer_code code ≡ true }
    ensures { OnOk result (text.new.items ≡ text.old.items ++ (codes "HTTP/1.1 " ++ decimal code ++ codes " " ++ phrase code ++ codes "\r\n")) }
{
    put(text, b"HTTP/1.1 ")?;
    put_number(alloc, text, usize::from(code))?;
    put(text, b" ")?;
    put(text, phrase_of(code))?;
    put(text, b"\r\n")
}

/// The text of an answer: its status line, its fields, and `text` with a line feed (RFC 9112,
/// sections 4 and 6.2). `allow` adds the field `Allow: POST`, which a 405 has.
///
/// NoMemory is the one error.
#[tactic(auto, unfolding(crate::specs::Texts::response_text))]
pub fn write_response(alloc: Global, code: u16, allow: bool, text: &[u8]) -> Result<Bytes, NoMemory>
    requires known { is_answer_code code ≡ true }
    requires allows { allow ≡ (code == 405) }
    ensures { IfOk result (λ answer. answer ≡ response_text code allow text.now) }
{
    let mut answer = Vec::new(alloc);
    put_status(alloc, &mut answer, code)?;
    if allow {
        put(&mut answer, b"Allow: POST\r\n")?;
    }
    put(
        &mut answer,
        b"Content-Type: text/plain; charset=utf-8\r\nContent-Length: ",
    )?;
    put_number(alloc, &mut answer, text.len() + 1)?;
    put(&mut answer, b"\r\nConnection: close\r\n\r\n")?;
    put(&mut answer, text)?;
    put(&mut answer, b"\n")?;
    Ok(Bytes::from_vec(answer))
}

const NO_MEMORY_TEXT: &[u8] =
    b"HTTP/1.1 507 Insufficient Storage\r\nContent-Type: text/plain; charset=utf-8\r\nContent-Length: 10\r\nConnection: close\r\n\r\nno memory\n";

/// The answer 507 `no memory`, which takes no memory.
pub fn no_memory_answer() -> &'static [u8]
    ensures { result.now ≡ response_text 507 false (codes "no memory") }
{
    NO_MEMORY_TEXT
}
