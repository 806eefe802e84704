// Reads the happenings of a script, one after another.
ghost use Rattle.std.specs.Prelude.{◌≡◌, ◌<◌, length};
ghost use Rattle.ws_model.specs.Cause.{HasCause};
ghost use Rattle.ws_script.specs.Moves.{TakesByte, TakesBytes, TakesPiece, Reads};
ghost use Rattle.ws_script.specs.Reading.{HasReadCause, HasSize, IsShortLine, with_line_feed};
ghost use Rattle.ws_script.specs.Script.{IsHappening, HasLine, bytes_behind, text};
ghost use Rattle.ws_script.specs.declared.script.Line.TheVariants as lines;
ghost use Rattle.ws_script.specs.declared.take.ReadFault.TheVariants.{Failed, NoMemory as Wanting};

use crate::script::{Happening, Line, read_line};
use std::alloc::{AllocError, AllocFailed, Global};
use ws_link::{ReadFailed, Source};
use ws_model::{Bytes, NoMemory};

/// Why nothing was read.
#[derive(Clone, Copy, Debug, PartialEq, Eq, thiserror::Error)]
pub enum ReadFault {
    /// The source failed.
    #[error("read failed")]
    Failed,
    /// There was no memory.
    #[error("no memory")]
    NoMemory,
}

impl From<ReadFailed> for ReadFault {
    ghost from_gives = { λ _ e. e ≡ Failed };

    fn from(_: ReadFailed) -> Self {
        ReadFault::Failed
    }
}

impl From<NoMemory> for ReadFault {
    ghost from_gives = { λ _ e. e ≡ Wanting };

    fn from(_: NoMemory) -> Self {
        ReadFault::NoMemory
    }
}

impl From<AllocError> for ReadFault {
    ghost from_gives = { λ _ e. e ≡ Wanting };

    fn from(_: AllocError) -> Self {
        ReadFault::NoMemory
    }
}

impl<T: Drop> From<AllocFailed<T>> for ReadFault {
    ghost from_gives = { λ _ e. e ≡ Wanting };

    fn from(_: AllocFailed<T>) -> Self {
        ReadFault::NoMemory
    }
}

// The longest line in bytes, its line feed not counted.
const MAX_LINE: usize = 4096;

// The most bytes of a body that one call of the source gives.
const PIECE: usize = 4096;

fn take_byte<S: Source>(source: &mut S) -> Result<Option<u8>, ReadFailed>
    ensures byte { TakesByte (S.left source.old) (S.left source.new) result }
    ensures cause { HasCause (S.faults source.old) (S.faults source.new) result }
{
    let mut one = [0];
    match source.take(&mut one)? {
        0 => Ok(None),
        _ => Ok(Some(one[0])),
    }
}

// Reads a line and its line feed. None where no short line follows.
fn take_line<S: Source>(alloc: Global, source: &mut S) -> Result<Option<Vec<u8>>, ReadFault>
    ensures line { Reads with_line_feed IsShortLine (λ line. line.items) (S.left source.old) (S.left source.new) result }
    ensures cause { HasReadCause (S.faults source.old) (S.faults source.new) result }
{
    let mut line = Vec::new(alloc);
    'bytes: for _ in 0..=MAX_LINE {
        let Some(b) = take_byte(source)? else {
            return Ok(None);
        };
        if b == b'\n' {
            return Ok(Some(line));
        }
        line.push(b)?;
    }
    Ok(None)
}

// Puts what the source gives into the room, and then behind the body.
fn take_into<S: Source>(
    source: &mut S,
    room: &mut [u8],
    body: &mut Vec<u8>,
) -> Result<usize, ReadFault>
    requires { 0 < length room.old }
    ensures piece { TakesPiece (length room.old) body.old.items body.new.items (S.left source.old) (S.left source.new) result }
    ensures cause { HasReadCause (S.faults source.old) (S.faults source.new) result }
{
    let n = source.take(room)?;
    body.extend_from_slice(&room[..n])?;
    Ok(n)
}

// Puts a piece of at most `most` bytes behind the body, and says its size: 0 only at the end.
fn take_piece<S: Source>(
    source: &mut S,
    body: &mut Vec<u8>,
    most: usize,
) -> Result<usize, ReadFault>
    requires { 0 < most }
    ensures piece { TakesPiece most body.old.items body.new.items (S.left source.old) (S.left source.new) result }
    ensures cause { HasReadCause (S.faults source.old) (S.faults source.new) result }
{
    let mut buffer = [0; PIECE];
    take_into(source, &mut buffer[..most.min(PIECE)], body)
}

// Reads `size` bytes, in pieces as large as the source gives. None where it ends before.
fn take_bytes<S: Source>(
    alloc: Global,
    source: &mut S,
    size: usize,
) -> Result<Option<Vec<u8>>, ReadFault>
    ensures bytes { TakesBytes size (S.left source.old) (S.left source.new) result }
    ensures cause { HasReadCause (S.faults source.old) (S.faults source.new) result }
{
    let mut bytes = Vec::new(alloc);
    while bytes.len() < size {
        let missing = size - bytes.len();
        if take_piece(source, &mut bytes, missing)? == 0 {
            return Ok(None);
        }
    }
    Ok(Some(bytes))
}

// Reads `size` bytes and a line feed behind them. None where they aren't there.
fn take_body<S: Source>(
    alloc: Global,
    source: &mut S,
    size: usize,
) -> Result<Option<Bytes>, ReadFault>
    ensures body { Reads with_line_feed (HasSize size) (λ body. body) (S.left source.old) (S.left source.new) result }
    ensures cause { HasReadCause (S.faults source.old) (S.faults source.new) result }
{
    let Some(bytes) = take_bytes(alloc, source, size)? else {
        return Ok(None);
    };
    let Some(end) = take_byte(source)? else {
        return Ok(None);
    };
    if end != b'\n' {
        return Ok(None);
    }
    Ok(Some(Bytes::from_vec(bytes)))
}

fn take_form<S: Source>(
    alloc: Global,
    source: &mut S,
    size: usize,
) -> Result<Option<Happening>, ReadFault>
    ensures behind { Reads bytes_behind (HasLine (lines.Form size)) (λ h. h) (S.left source.old) (S.left source.new) result }
    ensures cause { HasReadCause (S.faults source.old) (S.faults source.new) result }
{
    let Some(body) = take_body(alloc, source, size)? else {
        return Ok(None);
    };
    Ok(Some(Happening::Form(body)))
}

fn take_in<S: Source>(
    alloc: Global,
    source: &mut S,
    size: usize,
) -> Result<Option<Happening>, ReadFault>
    ensures behind { Reads bytes_behind (HasLine (lines.In size)) (λ h. h) (S.left source.old) (S.left source.new) result }
    ensures cause { HasReadCause (S.faults source.old) (S.faults source.new) result }
{
    let Some(body) = take_body(alloc, source, size)? else {
        return Ok(None);
    };
    Ok(Some(Happening::In(body)))
}

// Reads what stands behind a line, which says how much that is.
fn take_behind<S: Source>(
    alloc: Global,
    source: &mut S,
    line: Line,
) -> Result<Option<Happening>, ReadFault>
    ensures behind { Reads bytes_behind (HasLine line) (λ h. h) (S.left source.old) (S.left source.new) result }
    ensures cause { HasReadCause (S.faults source.old) (S.faults source.new) result }
{
    match line {
        Line::At(t) => Ok(Some(Happening::At(t))),
        Line::Sum => Ok(Some(Happening::Sum)),
        Line::End => Ok(Some(Happening::End)),
        Line::Form(size) => take_form(alloc, source, size as usize),
        Line::In(size) => take_in(alloc, source, size as usize),
        Line::Revoke { topic, callback } => Ok(Some(Happening::Revoke { topic, callback })),
    }
}

/// Reads the next happening, with the keys that its words have with or without the gateway. None where
/// the script leaves its grammar or is cut off.
///
/// At an error no more was read than one happening has, and at a failure of the source not the whole of it.
pub fn take_happening<S: Source>(
    alloc: Global,
    source: &mut S,
    gateway: bool,
) -> Result<Option<Happening>, ReadFault>
    ensures happening { Reads text (IsHappening gateway) (λ h. h) (S.left source.old) (S.left source.new) result }
    ensures cause { HasReadCause (S.faults source.old) (S.faults source.new) result }
{
    let Some(line) = take_line(alloc, source)? else {
        return Ok(None);
    };
    let Some(line) = read_line(alloc, &line, gateway)? else {
        return Ok(None);
    };
    take_behind(alloc, source, line)
}
