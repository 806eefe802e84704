// What the head of a response says.
ghost use Rattle.std.specs.Prelude.{◌≡◌, ◌≤◌, length};
ghost use Rattle.ws_http.specs.ResponseHeads.{SeesReply, IsAhead};
ghost use Rattle.ws_http.specs.ResponseStages.{HasInterims};
ghost use Rattle.ws_http.specs.ResponseHeadsEnd.{IsHeadsEnd, ReachesEnd};

use crate::code::{is_code, is_interim};
use crate::extent::{Extent, extent_of};
use crate::head::{MAX_FIELDS, MAX_HEAD};
use httparse::spans::{HeaderSpan, ResponseSpans, parse_response};
use httparse::{Error, Status};

/// What stands at the front of the bytes: a head, the begin of one, or what can't become one.
pub enum SeenReply {
    Head(ResponseSpans),
    Open,
    Never,
}

/// What stands behind the interim heads so far.
pub enum Ahead {
    /// The begin of a head.
    Open,
    /// What is no head of a response: it can't become one, or its status is below 100.
    Wrong,
    /// An interim head of so many bytes.
    Interim(usize),
    /// The final head, of so many bytes, and how long its body is where it says so in a sound way.
    Final(usize, Option<Extent>),
}

/// What stands at the front of the bytes.
pub fn parse_reply(front: &[u8], headers: &mut [HeaderSpan]) -> SeenReply
    requires short { length front.now ≤ MAX_HEAD }
    requires room { length headers.old ≡ MAX_FIELDS }
    ensures sees { SeesReply front.now headers.new result }
{
    match parse_response(front, headers) {
        Ok(Status::Complete(spans)) => SeenReply::Head(spans),
        Ok(Status::Partial) => SeenReply::Open,
        Err(Error::TooManyHeaders) => unreachable!(),
        Err(_) => SeenReply::Never,
    }
}

// What a whole head is.
fn judge_spans(front: &[u8], headers: &[HeaderSpan], spans: ResponseSpans) -> Ahead
    requires { SeesReply front.now headers.now (SeenReply.Head spans) }
    ensures { IsAhead front.now result }
{
    if !is_code(spans.code) {
        Ahead::Wrong
    } else if is_interim(spans.code) {
        Ahead::Interim(spans.len)
    } else {
        let extent = extent_of(spans.code, front, &headers[..spans.headers]);
        Ahead::Final(spans.len, extent)
    }
}

/// What stands at the front of the bytes, behind the interim heads.
pub fn judge_reply(front: &[u8]) -> Ahead
    requires { length front.now ≤ MAX_HEAD }
    ensures { IsAhead front.now result }
{
    let mut headers = [HeaderSpan::default(); MAX_FIELDS];
    match parse_reply(front, &mut headers) {
        SeenReply::Open => Ahead::Open,
        SeenReply::Never => Ahead::Wrong,
        SeenReply::Head(spans) => judge_spans(front, &headers, spans),
    }
}

/// Where the final head begins, and where the body does.
#[derive(Clone, Copy, Debug, PartialEq, Eq)]
pub struct FinalHead {
    pub at: usize,
    pub start: usize,
}

/// Where the reading of the heads stops.
pub enum HeadsEnd {
    /// At the begin of a head, which stands at this place.
    Open(usize),
    /// At what is no head of a response.
    Wrong,
    /// Behind the final head, with how long its body is where it says so in a sound way.
    Final(FinalHead, Option<Extent>),
}

/// Reads over the interim heads, from the place where the next head begins.
pub fn read_heads(front: &[u8], from: usize) -> HeadsEnd
    requires short { length front.now ≤ MAX_HEAD }
    requires before { HasInterims front.now from }
    ensures is { IsHeadsEnd front.now result }
    ensures reach { ReachesEnd front.now from result }
{
    let mut at = from;
    'heads: loop {
        let (_, rest) = front.split_at(at);
        match judge_reply(rest) {
            Ahead::Open => return HeadsEnd::Open(at),
            Ahead::Wrong => return HeadsEnd::Wrong,
            Ahead::Final(len, extent) => {
                return HeadsEnd::Final(
                    FinalHead {
                        at,
                        start: at + len,
                    },
                    extent,
                );
            }
            Ahead::Interim(len) => at += len,
        }
    }
}
