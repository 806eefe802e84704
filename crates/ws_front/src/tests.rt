// Requests over sources and sinks in memory, and the bytes of answers. What is meant was worked out by hand from the
// request rules and from RFC 9112.
use crate::answer::Answer;
use crate::full::{ANSWER_ROOM, TEXT_ROOM, full_answer};
use crate::message::{Message, read_request};
use crate::read::Stop;
use crate::refusal::Refusal;
use crate::serve::own_path;
use std::alloc::Global;
use std::test::Fail;
use ws_http::RequestReader;
use ws_link::{MemSink, MemSource};
use ws_model::Kind;
use ws_target::topic;

// What reading these bytes comes to, in these pieces, and what is written meanwhile.
fn read(
    alloc: Global,
    bytes: &[u8],
    pieces: &[u32],
) -> Result<(Result<Message, Stop>, Vec<u8>), Fail> {
    let hub = topic(alloc, b"http://hub.example/feeds?hub", false)?;
    let path = own_path(alloc, &hub)?;
    let mut source = MemSource::made(alloc, bytes, pieces, &[])?;
    let mut sink = MemSink::made(alloc, 100, &[])?;
    let mut reader = RequestReader::made(alloc)?;
    let message = read_request(
        hub.as_slice(),
        path.as_slice(),
        &mut source,
        &mut sink,
        &mut reader,
    );
    Ok((message, sink.written().to_vec(alloc)?))
}

const LINE: &[u8] = b"HTTP/1.1 100 Continue\r\n\r\n";

const TABLE: [(&[u8], Result<Message, Stop>, &[u8]); 19] = [
    // http-request-refusals
    (
        b"GET /feeds?hub HTTP/1.1\r\nHost: a\r\n\r\n",
        Ok(Message::Refused(Refusal::PostOnly)),
        b"",
    ),
    (
        b"POST /other HTTP/1.1\r\nHost: a\r\n\r\n",
        Ok(Message::Refused(Refusal::NotFound)),
        b"",
    ),
    (
        b"GET /feeds HTTP/1.1\r\nHost: a\r\n\r\n",
        Ok(Message::Refused(Refusal::NotFound)),
        b"",
    ),
    (
        b"POST /feeds?hub HTTP/1.1\r\nHost: a\r\nContent-Type: application/json\r\n\r\n",
        Ok(Message::Refused(Refusal::FormOnly)),
        b"",
    ),
    (
        b"PUT /feeds?hub HTTP/1.1\r\nHost: a\r\nContent-Type: text/plain\r\n\r\n",
        Ok(Message::Refused(Refusal::PostOnly)),
        b"",
    ),
    (
        b"POST /feeds?hub HTTP/1.1\r\nHost: a\r\nContent-Length: 20000\r\n\r\n",
        Ok(Message::Refused(Refusal::TooLarge)),
        b"",
    ),
    (
        b"POST /feeds?hub HTTP/1.1\r\n\r\n",
        Ok(Message::Refused(Refusal::BadRequest)),
        b"",
    ),
    // a fault that hides the head comes before its target
    (
        b"POST /other HTTP/1.1\r\nHost: a\r\nContent-Length: x\r\n\r\n",
        Ok(Message::Refused(Refusal::BadRequest)),
        b"",
    ),
    (
        b"POST /feeds?hub HTTP/1.1\r\nHost: a\r\n\r\n",
        Ok(Message::Form),
        b"",
    ),
    (
        b"POST http://hub.example/feeds?hub HTTP/1.1\r\nHost: a\r\nContent-Type: Application/X-WWW-Form-URLencoded ;q=1\r\n\r\n",
        Ok(Message::Form),
        b"",
    ),
    // curl-request-with-expect, and a body that isn't a chunked one behind it
    (
        b"POST /feeds?hub HTTP/1.1\r\nHost: a\r\nContent-Length: 3\r\nExpect: 100-continue\r\n\r\na=b",
        Ok(Message::Form),
        LINE,
    ),
    (
        b"POST /feeds?hub HTTP/1.1\r\nHost: a\r\nTransfer-Encoding: chunked\r\nExpect: 100-Continue\r\n\r\nzz\r\n",
        Ok(Message::Refused(Refusal::BadRequest)),
        LINE,
    ),
    (
        b"POST /feeds?hub HTTP/1.0\r\nContent-Length: 3\r\nExpect: 100-continue\r\n\r\na=b",
        Ok(Message::Form),
        b"",
    ),
    (
        b"POST /other HTTP/1.1\r\nHost: a\r\nContent-Length: 3\r\nExpect: 100-continue\r\n\r\n",
        Ok(Message::Refused(Refusal::NotFound)),
        b"",
    ),
    // the refusal of a head comes before a fault of the body
    (
        b"POST /other HTTP/1.1\r\nHost: a\r\nTransfer-Encoding: chunked\r\n\r\nzz\r\n",
        Ok(Message::Refused(Refusal::NotFound)),
        b"",
    ),
    // empty-connection
    (b"", Err(Stop::Empty), b""),
    // connection-cut-after-head
    (
        b"POST /feeds?hub HTTP/1.1\r\nHost: a\r\nContent-Length: 3\r\nExpect: 100-continue\r\n\r\n",
        Err(Stop::Cut),
        LINE,
    ),
    (
        b"POST /feeds?hub HTTP/1.1\r\nHost: a\r\nContent-Length: 3\r\n\r\na=",
        Err(Stop::Cut),
        b"",
    ),
    (b"P", Err(Stop::Cut), b""),
];

#[test]
fn requests_up_to_their_answer(rt: HostRuntime) -> Result<(), Fail> {
    let alloc = rt.alloc();
    let ones = [1; 200];
    for (text, meant, line) in TABLE {
        let (whole, written) = read(alloc, text, &[])?;
        assert_eq!(rt; whole, meant);
        assert_eq!(rt; written.as_slice(), line);
        let (single, written) = read(alloc, text, &ones)?;
        assert_eq!(rt; single, meant);
        assert_eq!(rt; written.as_slice(), line);
    }
    Ok(())
}

#[test]
fn bytes_of_answers(rt: HostRuntime) -> Result<(), Fail> {
    let alloc = rt.alloc();
    let refusal = Answer::of_refusal(alloc, Refusal::PostOnly)?;
    assert_eq!(rt; refusal.code, 405);
    assert_eq!(rt;
        refusal.bytes.as_slice(),
        b"HTTP/1.1 405 Method Not Allowed\r\nAllow: POST\r\nContent-Type: text/plain; charset=utf-8\r\nContent-Length: 10\r\nConnection: close\r\n\r\npost only\n".as_slice()
    );
    let text = Vec::with_capacity(alloc, TEXT_ROOM)?;
    let room = Vec::with_capacity(alloc, ANSWER_ROOM)?;
    let full = full_answer(text, room, Kind::Pending, 65_536, 65_537);
    assert_eq!(rt;
        full.as_slice(),
        b"HTTP/1.1 503 Service Unavailable\r\nContent-Type: text/plain; charset=utf-8\r\nContent-Length: 29\r\nConnection: close\r\n\r\nfull: pending 65536 of 65537\n".as_slice()
    );
    Ok(())
}
