// A chunked body as it comes: the data of a chunk goes from the piece straight to where it is kept.
// Behind the heads only what is still open is held back: a chunk line, a trailer section with the last chunk's
// line, or the CR behind a chunk's data.
ghost use Rattle.std.specs.Prelude.{◌≡◌, ◌≤◌, ◌<◌, ◌^◌, ◌+◌, ℕ, List, ◌++◌, length, take, drop, true, false};
ghost use Rattle.std.specs.Vec.{vec_capacity};
ghost use Rattle.ws_http.specs.declared.flow.Quota.{Quota};
ghost use Rattle.ws_http.specs.declared.chunk.Line.TheVariants as line;
ghost use Rattle.ws_http.specs.declared.flow.Place.TheVariants as place;
ghost use Rattle.ws_http.specs.Chunks.{LineIs};
ghost use Rattle.ws_http.specs.Flow.{Flows, begin};
ghost use Rattle.ws_http.specs.FlowEnds.{IsDataEnd, IsStep, Advances, IsShort, HasMemory, lacks_memory, most_of};

use crate::Need;
use crate::chunk::{Line, Next, line_end, read_line, trailer};
use crate::reply_data::{grow, kept_part};
use memchr::memchr;
use ws_model::NoMemory;

/// Where the bytes of a chunked body that came end.
#[derive(Clone, Copy)]
pub enum Place {
    /// In a chunk line or behind the last one; all bytes from the line's first on are held back.
    Line,
    /// In a chunk, with so many bytes of its data missing; where none are, at the line's end behind it.
    Data(usize),
}

/// How far a chunked body has been read.
#[derive(Clone, Copy)]
pub struct Point {
    pub place: Place,
    /// How many bytes of the body came, with its chunk lines and trailers.
    pub count: usize,
    /// How many bytes of data came.
    pub size: usize,
}

impl Point {
    /// Where no byte of the body came.
    pub fn begin() -> Point
        ensures { result ≡ begin }
    {
        Point {
            place: Place::Line,
            count: 0,
            size: 0,
        }
    }
}

/// Which part of the data is kept, and how many bytes of data there may be.
#[derive(Clone, Copy)]
pub struct Quota {
    pub need: Need,
    pub limit: usize,
}

/// Where the reading of a chunked body stops.
pub enum DataEnd {
    /// Behind all bytes that came, in what isn't whole.
    Open(Point),
    /// Where the data passes its limit.
    Over,
    /// At what is no chunk.
    Wrong,
    /// At the end of the body, which has so many bytes with its chunk lines and trailers.
    Last(usize),
    /// There was no memory.
    NoMemory,
}

/// What reading on comes to.
pub enum Step {
    /// To a point behind so many bytes of the piece.
    On(Point, usize),
    Stop(DataEnd),
}

// How many bytes stand up to the first line feed and with it, or all.
fn line_length(bytes: &[u8]) -> usize
    ensures most { result ≤ length bytes.now }
    ensures some { 0 < length bytes.now → 0 < result }
{
    match memchr(b'\n', bytes) {
        Some(at) => at + 1,
        None => bytes.len(),
    }
}

// The bytes that are held back behind the heads.
fn held(raw: &[u8], start: usize) -> &[u8]
    requires { start ≤ length raw.now }
    ensures { result.now ≡ drop start raw.now }
{
    let (_, held) = raw.split_at(start);
    held
}

// The trailer section behind a last chunk's line of so many bytes, which is held back with the piece before.
fn read_trailer(raw: &mut Vec<u8>, start: usize, len: usize, more: &[u8], point: Point) -> DataEnd
    requires inside { start ≤ length raw.old.items }
    requires at_line { point.place ≡ place.Line }
    requires line { LineIs (drop start raw.old.items) (line.Whole len 0) }
    requires held { length (drop start raw.old.items) ≤ point.count }
    requires large { point.count + length more.now < 2 ^ 32 }
    ensures ends { (quota : Quota) (came body : List ℕ) → Flows quota came (drop start raw.old.items) body point
        → IsDataEnd quota (came ++ more.now) (drop start raw.new.items) body result }
    ensures memory { length raw.old.items + length more.now ≤ vec_capacity raw.old → lacks_memory result ≡ false }
    ensures heads { take start raw.new.items ≡ take start raw.old.items }
    ensures inside { start ≤ length raw.new.items }
    ensures short { length raw.new.items ≤ length raw.old.items + length more.now }
    ensures capacity { vec_capacity raw.old ≤ vec_capacity raw.new }
{
    if let Err(NoMemory) = grow(raw, more) {
        return DataEnd::NoMemory;
    }
    let open = held(raw, start);
    let count = point.count + more.len();
    let (_, after) = open.split_at(len);
    match trailer(len, after) {
        Next::Open => DataEnd::Open(Point {
            place: Place::Line,
            count,
            size: point.size,
        }),
        Next::Last(used) => DataEnd::Last(count - open.len() + used),
        Next::Wrong => DataEnd::Wrong,
        Next::Chunk(..) => unreachable!(),
    }
}

// A chunk line, up to the piece's first line feed.
fn read_on_line(raw: &mut Vec<u8>, start: usize, piece: &[u8], point: Point) -> Step
    requires inside { start ≤ length raw.old.items }
    requires at_line { point.place ≡ place.Line }
    requires live { (quota : Quota) × (came : List ℕ) × (body : List ℕ) × Flows quota came (drop start raw.old.items) body point }
    requires large { point.count + length piece.now < 2 ^ 32 }
    ensures steps { (quota : Quota) (came body : List ℕ) → Flows quota came (drop start raw.old.items) body point
        → IsStep quota came piece.now (drop start raw.new.items) body result }
    ensures memory { length raw.old.items + length piece.now ≤ vec_capacity raw.old → HasMemory result }
    ensures advances { Advances piece.now point result }
    ensures heads { take start raw.new.items ≡ take start raw.old.items }
    ensures inside { start ≤ length raw.new.items }
    ensures short { IsShort (length raw.old.items) (length piece.now) (length raw.new.items) result }
    ensures capacity { vec_capacity raw.old ≤ vec_capacity raw.new }
{
    let before = raw.len() - start;
    let (line, more) = piece.split_at(line_length(piece));
    if let Err(NoMemory) = grow(raw, line) {
        return Step::Stop(DataEnd::NoMemory);
    }
    let open = Point {
        place: Place::Line,
        count: point.count + line.len(),
        size: point.size,
    };
    match read_line(held(raw, start)) {
        Line::Never => Step::Stop(DataEnd::Wrong),
        Line::Open if more.is_empty() => Step::Stop(DataEnd::Open(open)),
        Line::Open => Step::On(open, line.len()),
        Line::Whole(len, 0) => Step::Stop(read_trailer(raw, start, len, more, open)),
        Line::Whole(len, size) => {
            raw.truncate(start);
            let used = len - before;
            let inner = Point {
                place: Place::Data(size),
                count: point.count + used,
                size: point.size,
            };
            Step::On(inner, used)
        }
    }
}

// The data of a chunk of which so many bytes are missing.
fn read_on_data(body: &mut Vec<u8>, quota: Quota, piece: &[u8], point: Point, left: usize) -> Step
    requires at_data { point.place ≡ place.Data left }
    requires some { 0 < left }
    requires live { (came : List ℕ) × (held : List ℕ) × Flows quota came held body.old.items point }
    requires large { point.count + length piece.now < 2 ^ 32 }
    ensures steps { (came held : List ℕ) → Flows quota came held body.old.items point → IsStep quota came piece.now held body.new.items result }
    ensures memory { most_of quota.need quota.limit ≤ vec_capacity body.old → HasMemory result }
    ensures advances { Advances piece.now point result }
    ensures capacity { vec_capacity body.old ≤ vec_capacity body.new }
{
    if piece.is_empty() {
        return Step::Stop(DataEnd::Open(point));
    }
    let (data, _) = piece.split_at(left.min(piece.len()));
    let used = data.len();
    let size = point.size + used;
    if size > quota.limit {
        return Step::Stop(DataEnd::Over);
    }
    let before = body.len();
    if let Err(NoMemory) = grow(body, kept_part(quota.need, before, data)) {
        return Step::Stop(DataEnd::NoMemory);
    }
    let inner = Point {
        place: Place::Data(left - used),
        count: point.count + used,
        size,
    };
    Step::On(inner, used)
}

// The line's end behind a chunk's data.
fn read_on_end(raw: &mut Vec<u8>, start: usize, piece: &[u8], point: Point) -> Step
    requires inside { start ≤ length raw.old.items }
    requires at_data { point.place ≡ place.Data 0 }
    requires live { (quota : Quota) × (came : List ℕ) × (body : List ℕ) × Flows quota came (drop start raw.old.items) body point }
    requires large { point.count + length piece.now < 2 ^ 32 }
    ensures steps { (quota : Quota) (came body : List ℕ) → Flows quota came (drop start raw.old.items) body point
        → IsStep quota came piece.now (drop start raw.new.items) body result }
    ensures memory { length raw.old.items + length piece.now ≤ vec_capacity raw.old → HasMemory result }
    ensures advances { Advances piece.now point result }
    ensures heads { take start raw.new.items ≡ take start raw.old.items }
    ensures inside { start ≤ length raw.new.items }
    ensures short { IsShort (length raw.old.items) (length piece.now) (length raw.new.items) result }
    ensures capacity { vec_capacity raw.old ≤ vec_capacity raw.new }
{
    let missing = 2 - (raw.len() - start);
    let (end, _) = piece.split_at(missing.min(piece.len()));
    if let Err(NoMemory) = grow(raw, end) {
        return Step::Stop(DataEnd::NoMemory);
    }
    let count = point.count + end.len();
    match line_end(0, 0, held(raw, start)) {
        Next::Open => Step::Stop(DataEnd::Open(Point {
            place: Place::Data(0),
            count,
            size: point.size,
        })),
        Next::Chunk(..) => {
            raw.truncate(start);
            let behind = Point {
                place: Place::Line,
                count,
                size: point.size,
            };
            Step::On(behind, end.len())
        }
        Next::Wrong => Step::Stop(DataEnd::Wrong),
        Next::Last(..) => unreachable!(),
    }
}

// Reads on in what is open.
fn read_on(
    raw: &mut Vec<u8>,
    start: usize,
    body: &mut Vec<u8>,
    quota: Quota,
    piece: &[u8],
    point: Point,
) -> Step
    requires inside { start ≤ length raw.old.items }
    requires live { (came : List ℕ) × Flows quota came (drop start raw.old.items) body.old.items point }
    requires large { point.count + length piece.now < 2 ^ 32 }
    ensures steps { (came : List ℕ) → Flows quota came (drop start raw.old.items) body.old.items point
        → IsStep quota came piece.now (drop start raw.new.items) body.new.items result }
    ensures memory { length raw.old.items + length piece.now ≤ vec_capacity raw.old
        → most_of quota.need quota.limit ≤ vec_capacity body.old → HasMemory result }
    ensures advances { Advances piece.now point result }
    ensures heads { take start raw.new.items ≡ take start raw.old.items }
    ensures inside { start ≤ length raw.new.items }
    ensures short { IsShort (length raw.old.items) (length piece.now) (length raw.new.items) result }
    ensures raw_capacity { vec_capacity raw.old ≤ vec_capacity raw.new }
    ensures body_capacity { vec_capacity body.old ≤ vec_capacity body.new }
{
    match point.place {
        Place::Line => read_on_line(raw, start, piece, point),
        Place::Data(0) => read_on_end(raw, start, piece, point),
        Place::Data(left) => read_on_data(body, quota, piece, point, left),
    }
}

/// Reads the next bytes of a chunked body, from a point on, behind heads of so many bytes.
pub fn read_data(
    raw: &mut Vec<u8>,
    start: usize,
    body: &mut Vec<u8>,
    quota: Quota,
    piece: &[u8],
    from: Point,
) -> DataEnd
    requires inside { start ≤ length raw.old.items }
    requires live { (came : List ℕ) × Flows quota came (drop start raw.old.items) body.old.items from }
    requires large { from.count + length piece.now < 2 ^ 32 }
    ensures ends { (came : List ℕ) → Flows quota came (drop start raw.old.items) body.old.items from
        → IsDataEnd quota (came ++ piece.now) (drop start raw.new.items) body.new.items result }
    ensures memory { length raw.old.items + length piece.now ≤ vec_capacity raw.old
        → most_of quota.need quota.limit ≤ vec_capacity body.old → lacks_memory result ≡ false }
    ensures heads { take start raw.new.items ≡ take start raw.old.items }
    ensures inside { start ≤ length raw.new.items }
    ensures short { length raw.new.items ≤ length raw.old.items + length piece.now }
    ensures raw_capacity { vec_capacity raw.old ≤ vec_capacity raw.new }
    ensures body_capacity { vec_capacity body.old ≤ vec_capacity body.new }
{
    let mut point = from;
    let mut at: usize = 0;
    'pieces: loop {
        let (_, rest) = piece.split_at(at);
        match read_on(raw, start, body, quota, rest, point) {
            Step::Stop(end) => return end,
            Step::On(next, used) => {
                point = next;
                at += used;
            }
        }
    }
}
