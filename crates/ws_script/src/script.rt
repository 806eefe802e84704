// The lines of a script.
ghost use Rattle.std.specs.Prelude.{◌≡◌, ◌≢◌, ◌≤◌, ◌^◌, ◌<◌, ◌++◌, ◌↔◌, ℕ, Bool, List, IsTrue, decimal, IfSome, IfNone, MatchOption};
ghost use Rattle.ws_script.specs.declared.script.Line.TheVariants as lines;
ghost use Rattle.ws_script.specs.Script.{line_text};
ghost use Rattle.ws_script.specs.Words.{SaysLine, SaysPlain, SaysRevoke};

use crate::words::{Word, topic_and_callback};
use itoa::Buffer;
use std::alloc::Global;
use std::str;
use ws_model::{Bytes, NoMemory};

/// A line of a script: `at T`, `form N`, `in N`, `revoke TOPIC CALLBACK`, `sum` or `end`.
#[derive(Debug, Drop)]
pub enum Line {
    At(u64),
    Form(u64),
    In(u64),
    Revoke { topic: Word, callback: Word },
    Sum,
    End,
}

/// What a script lets happen. The time of At is in seconds.
#[derive(Debug, Drop)]
pub enum Happening {
    At(u64),
    Form(Bytes),
    In(Bytes),
    Revoke { topic: Word, callback: Word },
    Sum,
    End,
}

/// The greatest hub time, in seconds.
pub const MAX_TIME: u64 = (1 << 48) - 1;

// The most bytes of a form.
const MAX_FORM: u64 = 16_384;

// The most bytes of a connection.
const MAX_IN: u64 = 16_777_216;

// Whether the text is the number as it is written in decimal.
fn is_decimal(text: &str, n: u64) -> bool
    ensures { IsTrue result ↔ (text.now ≡ decimal n) }
{
    Buffer::new().format(n) == text
}

// The number that the text is in decimal, where it is at most `most`.
fn number(text: &[u8], most: u64) -> Option<u64>
    ensures some { IfSome result (λ n. (n ≤ most) × (text.now ≡ decimal n)) }
    ensures none { IfNone result ((n : ℕ) → n ≤ most → text.now ≢ decimal n) }
{
    let Ok(text) = str::from_utf8(text) else {
        return None;
    };
    let Ok(n) = text.parse::<u64>() else {
        return None;
    };
    if n <= most && is_decimal(text, n) {
        Some(n)
    } else {
        None
    }
}

// What follows the word at the front of a line, where it stands there.
fn behind<'a>(line: &'a [u8], word: &[u8]) -> Option<&'a [u8]>
    ensures { MatchOption result ((rest : List ℕ) → line.now ≢ word.now ++ rest) (λ rest. line.now ≡ word.now ++ rest.now) }
{
    line.strip_prefix(word)
}

fn read_at(line: &[u8]) -> Option<u64>
    ensures some { IfSome result (λ t. (t < 2 ^ 48) × (line.now ≡ line_text (lines.At t))) }
    ensures none { IfNone result ((t : ℕ) → t < 2 ^ 48 → line.now ≢ line_text (lines.At t)) }
{
    number(behind(line, b"at ")?, MAX_TIME)
}

fn read_form(line: &[u8]) -> Option<u64>
    ensures some { IfSome result (λ size. (size ≤ 16384) × (line.now ≡ line_text (lines.Form size))) }
    ensures none { IfNone result ((size : ℕ) → size ≤ 16384 → line.now ≢ line_text (lines.Form size)) }
{
    number(behind(line, b"form ")?, MAX_FORM)
}

fn read_in(line: &[u8]) -> Option<u64>
    ensures some { IfSome result (λ size. (size ≤ 16777216) × (line.now ≡ line_text (lines.In size))) }
    ensures none { IfNone result ((size : ℕ) → size ≤ 16777216 → line.now ≢ line_text (lines.In size)) }
{
    number(behind(line, b"in ")?, MAX_IN)
}

// What a line says, where it is one other than `revoke`.
fn read_plain(line: &[u8]) -> Option<Line>
    ensures { SaysPlain line.now result }
{
    if line == b"sum".as_slice() {
        return Some(Line::Sum);
    }
    if line == b"end".as_slice() {
        return Some(Line::End);
    }
    if let Some(t) = read_at(line) {
        return Some(Line::At(t));
    }
    if let Some(size) = read_form(line) {
        return Some(Line::Form(size));
    }
    Some(Line::In(read_in(line)?))
}

// What a line says, where it is a `revoke`.
fn read_revoke(alloc: Global, line: &[u8], gateway: bool) -> Result<Option<Line>, NoMemory>
    ensures { SaysRevoke gateway line.now result }
{
    let Some(words) = behind(line, b"revoke ") else {
        return Ok(None);
    };
    let Some((topic, callback)) = topic_and_callback(alloc, words, gateway)? else {
        return Ok(None);
    };
    Ok(Some(Line::Revoke { topic, callback }))
}

/// What a line says, where it is one of a script, of any length: a number has no leading zero, and the words
/// of a `revoke` have keys.
pub fn read_line(alloc: Global, line: &[u8], gateway: bool) -> Result<Option<Line>, NoMemory>
    ensures { SaysLine gateway line.now result }
{
    match read_plain(line) {
        Some(plain) => Ok(Some(plain)),
        None => read_revoke(alloc, line, gateway),
    }
}
