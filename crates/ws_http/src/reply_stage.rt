// How far the bytes of a response have been read.
ghost use Rattle.std.specs.Prelude.{◌≡◌, ◌≤◌, ◌<◌, ◌^◌, ◌+◌, ◌-◌, length, drop, take, [], ◌++◌, ◌||◌, nat_lt, nat_le, if◌then◌else◌, List, ℕ, Some, MatchOption, true, false};
ghost use Rattle.std.specs.Vec.{vec_capacity};
ghost use Rattle.httparse.specs.Grammar.{ResponseHead};
ghost use Rattle.ws_model.specs.Legal.{body_limit};
ghost use Rattle.ws_http.specs.Responses.{raw_limit};
ghost use Rattle.ws_http.specs.declared.fed.BadWhy.TheVariants as why;
ghost use Rattle.ws_http.specs.declared.reply_stage.ReplyStage.TheVariants as stage;
ghost use Rattle.ws_http.specs.ResponseStages.{Ready, Small, Judged, HasInterims, HasFinal, HasBegun, HeadWithin, Reaches, extent_by, front, room_of, is_full, is_status, is_chunked, is_last, stage_at_end, stage_closed, said, said_first, said_again, untold, TellsReply};

use crate::extent::Extent;
use crate::flow::Point;
use crate::head::{MAX_HEAD, front_of};
use crate::reply_data::BODY_LIMIT;
use crate::reply_head::{FinalHead, HeadsEnd, read_heads};
use crate::stage::passes_head;
use crate::{BadWhy, Fed, Need};

/// The most bytes of a chunked body, with its chunk lines and trailers.
pub const RAW_LIMIT: usize = 8_388_608;

/// How far the bytes of a response have been read. Each number is one of bytes.
#[derive(Clone, Copy)]
pub enum ReplyStage {
    /// The final head isn't whole; where the next head begins.
    Head(usize),
    /// The final head, and the length of the whole message.
    Fixed(FinalHead, usize),
    /// The body goes up to the end of the connection.
    Lasting(FinalHead),
    /// How far the chunks of the body have been read.
    Chunked(FinalHead, Point),
    /// The length of the whole message, and whether the body is chunked.
    Whole(FinalHead, usize, bool),
    /// The fault.
    Bad(BadWhy),
    /// There was no memory.
    NoMemory,
}

/// How many bytes a reader looks at.
pub fn room_of(need: Need) -> usize
    ensures { result ≡ room_of need }
{
    match need {
        Need::Status => MAX_HEAD,
        Need::Short => MAX_HEAD + RAW_LIMIT,
        Need::Full => MAX_HEAD + RAW_LIMIT,
    }
}

/// Whether everything is asked for.
pub fn is_full(need: Need) -> bool
    ensures { result ≡ is_full need }
{
    match need {
        Need::Full => true,
        _ => false,
    }
}

/// Whether only the status is asked for.
pub fn is_status(need: Need) -> bool
    ensures { result ≡ is_status need }
{
    match need {
        Need::Status => true,
        _ => false,
    }
}

/// A body of a declared length, of which so many bytes came with the heads.
pub fn read_fixed(came: usize, head: FinalHead, total: usize) -> ReplyStage
    ensures { result ≡ (if nat_le total came then stage.Whole head total false else stage.Fixed head total) }
{
    if came >= total {
        ReplyStage::Whole(head, total, false)
    } else {
        ReplyStage::Fixed(head, total)
    }
}

/// A body up to the end of the connection, of which so many bytes came with the heads.
pub fn read_lasting(came: usize, head: FinalHead) -> ReplyStage
    requires { head.start ≤ came }
    ensures { result ≡ (if nat_lt body_limit (came - head.start) then stage.Bad why.TooLong else stage.Lasting head) }
{
    if came - head.start > BODY_LIMIT {
        ReplyStage::Bad(BadWhy::TooLong)
    } else {
        ReplyStage::Lasting(head)
    }
}

// The body of this length behind a final head. Of a chunked one no chunk is read yet.
fn read_sized(raw: &[u8], need: Need, over: bool, head: FinalHead, extent: Extent) -> ReplyStage
    requires short { length raw.now ≤ room_of need }
    requires full { over ≡ true → length raw.now ≡ room_of need }
    requires asks { is_status need ≡ false }
    requires heads { (h : ResponseHead) × HasFinal (front raw.now) head h × (extent_by h ≡ Some extent) }
    ensures judged { is_chunked result ≡ false → (body : List ℕ) → Judged need raw.now over body result }
    ensures begun { HasBegun need raw.now result }
    ensures reach { (front : List ℕ) (at : ℕ) → HeadWithin front at head.start → Reaches front at result }
    ensures ready { is_chunked result ≡ false → (body : List ℕ) → Ready need raw.now body result }
    ensures small { (body : List ℕ) → Small raw.now body result }
    ensures closes { is_chunked result ≡ false → over ≡ true → is_last result ≡ true }
{
    let came = raw.len();
    match extent {
        Extent::Fixed(length) => {
            if length > BODY_LIMIT as u64 {
                return ReplyStage::Bad(BadWhy::TooLong);
            }
            read_fixed(came, head, head.start + length as usize)
        }
        Extent::Lasting => read_lasting(came, head),
        Extent::Chunked => ReplyStage::Chunked(head, Point::begin()),
    }
}

// The body behind a final head.
fn read_body(
    raw: &[u8],
    need: Need,
    over: bool,
    head: FinalHead,
    extent: Option<Extent>,
) -> ReplyStage
    requires short { length raw.now ≤ room_of need }
    requires full { over ≡ true → length raw.now ≡ room_of need }
    requires heads { (h : ResponseHead) × HasFinal (front raw.now) head h × (extent ≡ extent_by h) }
    ensures judged { is_chunked result ≡ false → (body : List ℕ) → Judged need raw.now over body result }
    ensures begun { HasBegun need raw.now result }
    ensures reach { (front : List ℕ) (at : ℕ) → HeadWithin front at head.start → Reaches front at result }
    ensures ready { is_chunked result ≡ false → (body : List ℕ) → Ready need raw.now body result }
    ensures small { (body : List ℕ) → Small raw.now body result }
    ensures closes { is_chunked result ≡ false → over ≡ true → is_last result ≡ true }
{
    if is_status(need) {
        return ReplyStage::Whole(head, head.start, false);
    }
    match extent {
        None => ReplyStage::Bad(BadWhy::Framing),
        Some(extent) => read_sized(raw, need, over, head, extent),
    }
}

/// The bytes of a response, of which the final head wasn't whole before. Of a chunked body no chunk is read yet.
pub fn read_front(raw: &[u8], need: Need, over: bool, at: usize) -> ReplyStage
    requires short { length raw.now ≤ room_of need }
    requires full { over ≡ true → length raw.now ≡ room_of need }
    requires heads { HasInterims (front raw.now) at }
    ensures judged { is_chunked result ≡ false → (body : List ℕ) → Judged need raw.now over body result }
    ensures begun { HasBegun need raw.now result }
    ensures reach { Reaches (front raw.now) at result }
    ensures ready { is_chunked result ≡ false → (body : List ℕ) → body ≡ [] → Ready need raw.now body result }
    ensures small { (body : List ℕ) → Small raw.now body result }
    ensures closes { is_chunked result ≡ false → over ≡ true → is_last result ≡ true }
{
    match read_heads(front_of(raw), at) {
        HeadsEnd::Wrong => ReplyStage::Bad(BadWhy::Head),
        HeadsEnd::Final(head, extent) => read_body(raw, need, over, head, extent),
        HeadsEnd::Open(at) => {
            if passes_head(raw, over) {
                ReplyStage::Bad(BadWhy::TooLong)
            } else {
                ReplyStage::Head(at)
            }
        }
    }
}

/// Whether the stage is the last one.
pub fn is_last(stage: ReplyStage) -> bool
    ensures { result ≡ is_last stage }
{
    match stage {
        ReplyStage::Whole(..) => true,
        ReplyStage::Bad(..) => true,
        ReplyStage::NoMemory => true,
        _ => false,
    }
}

// The stage once the connection has ended behind so many bytes.
fn at_end(came: usize, stage: ReplyStage) -> ReplyStage
    ensures { result ≡ stage_at_end came stage }
{
    match stage {
        ReplyStage::Head(_) => ReplyStage::Bad(BadWhy::Cut),
        ReplyStage::Fixed(_, _) => ReplyStage::Bad(BadWhy::Cut),
        ReplyStage::Chunked(_, _) => ReplyStage::Bad(BadWhy::Cut),
        ReplyStage::Lasting(head) => ReplyStage::Whole(head, came, false),
        ReplyStage::Whole(head, total, chunked) => ReplyStage::Whole(head, total, chunked),
        ReplyStage::Bad(why) => ReplyStage::Bad(why),
        ReplyStage::NoMemory => ReplyStage::NoMemory,
    }
}

/// The stage with the connection ended behind so many bytes, or not.
pub fn closed(end: bool, came: usize, stage: ReplyStage) -> ReplyStage
    ensures { result ≡ stage_closed end came stage }
{
    if end { at_end(came, stage) } else { stage }
}

/// What is said again at a last stage.
pub fn reply_again(stage: ReplyStage) -> Option<Fed>
    ensures { MatchOption result (is_last stage ≡ false) (λ answer. (is_last stage ≡ true) × (answer ≡ said_again stage) × TellsReply answer stage) }
{
    match stage {
        ReplyStage::Whole(..) => Some(Fed::Whole { used: 0 }),
        ReplyStage::Bad(why) => Some(Fed::Bad { why }),
        ReplyStage::NoMemory => Some(Fed::NoMemory),
        _ => None,
    }
}

// What is said where the final head wasn't whole before.
fn told_first(before: usize, new: ReplyStage) -> Fed
    ensures value { result ≡ said_first before new }
    ensures tells { TellsReply result new }
{
    match new {
        ReplyStage::Head(_) => Fed::More,
        ReplyStage::Whole(_, total, _) => Fed::Whole {
            used: total.saturating_sub(before) as u64,
        },
        ReplyStage::Bad(why) => Fed::Bad { why },
        ReplyStage::NoMemory => Fed::NoMemory,
        ReplyStage::Fixed(..) => Fed::Head,
        ReplyStage::Lasting(..) => Fed::Head,
        ReplyStage::Chunked(..) => Fed::Head,
    }
}

/// What is said with a piece that stands behind so many bytes, between two stages.
pub fn reply_told(before: usize, old: ReplyStage, new: ReplyStage) -> Fed
    ensures value { result ≡ said before old new }
    ensures tells { TellsReply result new }
{
    let answer = told_first(before, new);
    match (old, answer) {
        (ReplyStage::Head(_), answer) => answer,
        (_, Fed::Head) => Fed::More,
        (_, answer) => answer,
    }
}
