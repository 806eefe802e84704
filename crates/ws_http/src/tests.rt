ghost use Rattle.std.specs.Prelude.{◌≤◌};

use crate::{BadWhy, Fed, RequestReader, no_memory_answer, write_request, write_response};
use std::alloc::Global;
use std::process::Abort;
use std::test::Fail;
use ws_model::{Bytes, Pair};

#[test]
fn answers_written(rt: HostRuntime) -> Result<(), Fail> {
    let answer = write_response(rt.alloc(), 202, false, b"accepted")?;
    // counted by hand, line by line
    assert_eq!(rt; answer.as_slice().len(), 113);
    let refusal = write_response(rt.alloc(), 405, true, b"post only")?;
    assert_eq!(rt;
        refusal.as_slice(),
        b"HTTP/1.1 405 Method Not Allowed\r\nAllow: POST\r\nContent-Type: text/plain; charset=utf-8\r\nContent-Length: 10\r\nConnection: close\r\n\r\npost only\n".as_slice()
    );
    let full = write_response(rt.alloc(), 507, false, b"no memory")?;
    assert_eq!(rt; full.as_slice(), no_memory_answer());
    Ok(())
}

#[test]
fn request_written(rt: HostRuntime) -> Result<(), Fail> {
    let host = Pair {
        name: Bytes::copy(rt.alloc(), b"Host")?,
        value: Bytes::copy(rt.alloc(), b"a.example")?,
    };
    let text = write_request(rt.alloc(), b"GET", b"/x?y", [host].as_slice(), b"")?;
    assert_eq!(rt;
        text.as_slice(),
        b"GET /x?y HTTP/1.1\r\nHost: a.example\r\nConnection: close\r\n\r\n".as_slice()
    );
    Ok(())
}

// Feeds a request in pieces of a size to a reader of this room, and gives the first answer that is
// neither More nor Head, and how often Head came; the used bytes are counted from the start.
fn fed(
    rt: &(impl Abort + AllocGlobal),
    room: u32,
    bytes: &[u8],
    size: usize,
) -> Result<(Fed, u64), Fail>
    requires least { 16384 ≤ room }
    requires most { room ≤ 4210688 }
{
    let mut reader = RequestReader::made_for(rt.alloc(), room)?;
    let mut heads: u64 = 0;
    let mut before: u64 = 0;
    for piece in bytes.chunks(size.max(1)) {
        match reader.feed(piece) {
            Fed::More => {}
            Fed::Head => heads = heads.saturating_add(1),
            Fed::Whole { used } => {
                assert_eq!(rt; reader.feed(piece), Fed::Whole { used: 0 });
                return Ok((
                    Fed::Whole {
                        used: used.saturating_add(before),
                    },
                    heads,
                ));
            }
            other => {
                assert_eq!(rt; reader.feed(piece), other);
                return Ok((other, heads));
            }
        }
        before = before.saturating_add(piece.len() as u64);
    }
    Ok((Fed::More, heads))
}

fn bad(why: BadWhy) -> Fed {
    Fed::Bad { why }
}

// The data of the chunks is the body.
#[test]
fn chunked_request_body(rt: HostRuntime) -> Result<(), Fail> {
    let mut reader = RequestReader::made(rt.alloc())?;
    let text =
        b"POST / HTTP/1.1\r\nHost: a\r\nTransfer-Encoding: chunked\r\n\r\n2\r\nab\r\n1;x\r\nc\r\n0\r\n\r\n";
    match reader.feed(text) {
        Fed::Whole { used } => {
            assert_eq!(rt; used, text.len() as u64);
            assert_eq!(rt; reader.body(), b"abc".as_slice());
        }
        other => assert_eq!(rt; other, Fed::More),
    }
    let mut plain = RequestReader::made(rt.alloc())?;
    match plain.feed(b"POST / HTTP/1.1\r\nHost: a\r\nContent-Length: 2\r\n\r\nabc") {
        Fed::Whole { used: _ } => assert_eq!(rt; plain.body(), b"ab".as_slice()),
        other => assert_eq!(rt; other, Fed::More),
    }
    Ok(())
}

// The body of a whole request that is fed in pieces of a size, or what its reader says at last.
fn body_fed(
    rt: &(impl Abort + AllocGlobal),
    room: u32,
    bytes: &[u8],
    size: usize,
) -> Result<Result<Vec<u8>, Fed>, Fail>
    requires least { 16384 ≤ room }
    requires most { room ≤ 4210688 }
{
    let mut reader = RequestReader::made_for(rt.alloc(), room)?;
    let mut answer = Fed::More;
    for piece in bytes.chunks(size.max(1)) {
        answer = reader.feed(piece);
        if let Fed::Whole { .. } = answer {
            return Ok(Ok(reader.body().to_vec(rt.alloc())?));
        }
    }
    Ok(Err(answer))
}

// Chunked requests with the data of their chunks, worked out by hand.
#[test]
fn chunked_bodies_in_any_pieces(rt: HostRuntime) -> Result<(), Fail> {
    let table: [(&[u8], &[u8]); 4] = [
        (
            b"POST / HTTP/1.1\r\nHost: a\r\nTransfer-Encoding: chunked\r\n\r\n0\r\n\r\n",
            b"",
        ),
        (
            b"POST / HTTP/1.1\r\nHost: a\r\nTransfer-Encoding: chunked\r\n\r\n2\r\nab\r\n1;x\r\nc\r\n0\r\n\r\n",
            b"abc",
        ),
        // data like the end of a line and like a last chunk
        (
            b"POST / HTTP/1.1\r\nHost: a\r\nTransfer-Encoding: chunked\r\n\r\n2\r\n\r\n\r\n5\r\n0\r\n\r\n\r\n0\r\n\r\n",
            b"\r\n0\r\n\r\n",
        ),
        (
            b"POST / HTTP/1.1\r\nHost: a\r\nTransfer-Encoding: chunked\r\n\r\nA;x=y\r\n0123456789\r\n00\r\nT: v\r\n\r\nzz",
            b"0123456789",
        ),
    ];
    for (bytes, body) in table.iter() {
        for size in [1, 7, 64, 100_000] {
            match body_fed(&rt, 16_384, bytes, size)? {
                Ok(data) => assert_eq!(rt; data.as_slice(), *body, "{bytes:?} in pieces of {size}"),
                Err(said) => assert_eq!(rt;
                    said,
                    Fed::Whole { used: 0 },
                    "{bytes:?} in pieces of {size}"
                ),
            }
        }
    }
    Ok(())
}

// A chunked message that fills its room with its head of 56 bytes, and one with one byte more.
#[test]
fn chunked_bodies_at_the_limit(rt: HostRuntime) -> Result<(), Fail> {
    // 0x3fbb = 16,315, and the lines and ends of chunks are the other 13 bytes
    let at = padded(
        rt.alloc(),
        b"POST / HTTP/1.1\r\nHost: a\r\nTransfer-Encoding: chunked\r\n\r\n3fbb\r\n",
        16_377,
        b"\r\n0\r\n\r\n",
    )?;
    let past = padded(
        rt.alloc(),
        b"POST / HTTP/1.1\r\nHost: a\r\nTransfer-Encoding: chunked\r\n\r\n3fbc\r\n",
        16_378,
        b"\r\n0\r\n\r\n",
    )?;
    for size in [1, 7, 100_000] {
        match body_fed(&rt, 16_384, &at, size)? {
            Ok(data) => {
                assert_eq!(rt; data.len(), 16_315);
                assert!(rt; data.as_slice().iter().all(|b| *b == b'x'));
            }
            Err(said) => assert_eq!(rt; said, Fed::Whole { used: 0 }),
        }
        match body_fed(&rt, 16_384, &past, size)? {
            Ok(data) => assert_eq!(rt; data.len(), 0),
            Err(said) => assert_eq!(rt; said, bad(BadWhy::TooLong)),
        }
    }
    Ok(())
}

// Each request with its answer, worked out by hand (lengths counted by Python's len) from RFC 9112 and the limits.
#[test]
fn requests_in_any_pieces(rt: HostRuntime) -> Result<(), Fail> {
    let table: [(&[u8], Fed); 40] = [
        (
            b"GET / HTTP/1.1\r\nHost: a\r\n\r\n",
            Fed::Whole { used: 27 },
        ),
        (b"GET / HTTP/1.1\nHost: a\n\n", Fed::Whole { used: 24 }),
        (
            b"\r\nGET / HTTP/1.1\r\nHost: a\r\n\r\n",
            Fed::Whole { used: 29 },
        ),
        (b"GET / HTTP/1.0\r\n\r\n", Fed::Whole { used: 18 }),
        (b"GET / HTTP/1.1\r\nhOST:\r\n\r\n", Fed::Whole { used: 25 }),
        (b"GET / HTTP/1.1\r\n\r\n", bad(BadWhy::Host)),
        (
            b"GET / HTTP/1.1\r\nHost: a\r\nHost: a\r\n\r\n",
            bad(BadWhy::Host),
        ),
        (b"GET / HTTP/1.1\r\nHost: a\r\n", Fed::More),
        (
            b"GET / HTTP/1.1\r\nHost: a\r\n\r\nxyz",
            Fed::Whole { used: 27 },
        ),
        (b"G\x01T / HTTP/1.1\r\nHost: a\r\n\r\n", bad(BadWhy::Head)),
        (b"GET  / HTTP/1.1\r\nHost: a\r\n\r\n", bad(BadWhy::Head)),
        (b"GET / HTTP/2.0\r\nHost: a\r\n\r\n", bad(BadWhy::Head)),
        (b"GET / HTTP/1.1\r\nHo st: a\r\n\r\n", bad(BadWhy::Head)),
        (
            b"POST / HTTP/1.1\r\nHost: a\r\nContent-Length: 3\r\n\r\nabc",
            Fed::Whole { used: 50 },
        ),
        (
            b"POST / HTTP/1.1\r\nHost: a\r\nContent-Length: 3\r\n\r\nab",
            Fed::More,
        ),
        (
            b"POST / HTTP/1.1\r\nHost: a\r\nContent-Length: 3\r\n\r\nabcd",
            Fed::Whole { used: 50 },
        ),
        (
            b"POST / HTTP/1.1\r\nHost: a\r\nContent-Length: 0\r\n\r\n",
            Fed::Whole { used: 47 },
        ),
        (
            b"POST / HTTP/1.1\r\nHost: a\r\nContent-Length: \r\n\r\n",
            bad(BadWhy::Framing),
        ),
        (
            b"POST / HTTP/1.1\r\nHost: a\r\nContent-Length: 3, 3\r\n\r\n",
            bad(BadWhy::Framing),
        ),
        (
            b"POST / HTTP/1.1\r\nHost: a\r\nContent-Length: +3\r\n\r\n",
            bad(BadWhy::Framing),
        ),
        (
            b"POST / HTTP/1.1\r\nHost: a\r\nContent-Length: 3\r\nContent-Length: 3\r\n\r\n",
            bad(BadWhy::Framing),
        ),
        (
            b"POST / HTTP/1.1\r\nHost: a\r\nContent-Length: 000000000000000002\r\n\r\nab",
            Fed::Whole { used: 66 },
        ),
        (
            b"POST / HTTP/1.1\r\nHost: a\r\nContent-Length: 0000000000000000002\r\n\r\nab",
            bad(BadWhy::Framing),
        ),
        (
            b"POST / HTTP/1.1\r\nHost: a\r\nContent-Length: 16333\r\n\r\n",
            Fed::More,
        ),
        (
            b"POST / HTTP/1.1\r\nHost: a\r\nContent-Length: 16334\r\n\r\n",
            bad(BadWhy::TooLong),
        ),
        (
            b"POST / HTTP/1.1\r\nHost: a\r\nTransfer-Encoding: gzip\r\n\r\n",
            bad(BadWhy::Framing),
        ),
        (
            b"POST / HTTP/1.1\r\nHost: a\r\nTransfer-Encoding: gzip, chunked\r\n\r\n",
            bad(BadWhy::Framing),
        ),
        (
            b"POST / HTTP/1.1\r\nHost: a\r\nTransfer-Encoding: chunked\r\nContent-Length: 3\r\n\r\n",
            bad(BadWhy::Framing),
        ),
        (
            b"POST / HTTP/1.1\r\nHost: a\r\nTransfer-Encoding: Chunked\r\n\r\n0\r\n\r\n",
            Fed::Whole { used: 61 },
        ),
        (
            b"POST / HTTP/1.1\r\nHost: a\r\nTransfer-Encoding: chunked\r\nTransfer-Encoding: chunked\r\n\r\n2\r\nab\r\n0\r\n\r\n",
            Fed::Whole { used: 96 },
        ),
        (
            b"POST / HTTP/1.1\r\nHost: a\r\nTransfer-Encoding: chunked\r\n\r\n2;x=y\r\nab\r\n00\r\nT: v\r\n\r\nzz",
            Fed::Whole { used: 79 },
        ),
        (
            b"POST / HTTP/1.1\r\nHost: a\r\nTransfer-Encoding: chunked\r\n\r\nzz\r\n",
            bad(BadWhy::Chunk),
        ),
        (
            b"POST / HTTP/1.1\r\nHost: a\r\nTransfer-Encoding: chunked\r\n\r\n2\r\nabc\r\n",
            bad(BadWhy::Chunk),
        ),
        (
            b"POST / HTTP/1.1\r\nHost: a\r\nTransfer-Encoding: chunked\r\n\r\n2\r\nab\rx",
            bad(BadWhy::Chunk),
        ),
        (
            b"POST / HTTP/1.1\r\nHost: a\r\nTransfer-Encoding: chunked\r\n\r\n0\r\nT\x01: v\r\n\r\n",
            bad(BadWhy::Chunk),
        ),
        (
            b"POST / HTTP/1.1\r\nHost: a\r\nTransfer-Encoding: chunked\r\n\r\n0\r\nT: v\r\n",
            Fed::More,
        ),
        (
            b"POST / HTTP/1.1\r\nHost: a\r\nTransfer-Encoding: chunked\r\n\r\nffff\r\nab",
            Fed::More,
        ),
        (
            b"POST / HTTP/1.0\r\nTransfer-Encoding: chunked\r\n\r\n1\r\na\r\n0\r\n\r\n",
            Fed::Whole { used: 58 },
        ),
        (
            b"POST /x HTTP/1.1\r\nHost: a\r\nTransfer-Encoding: chunked\r\n\r\n11111111111111111\r\n",
            bad(BadWhy::Chunk),
        ),
        (b"", Fed::More),
    ];
    for (bytes, answer) in table.iter() {
        for size in [1, 7, 100_000] {
            let (said, heads) = fed(&rt, 16_384, bytes, size)?;
            assert_eq!(rt; said, *answer, "{bytes:?} in pieces of {size}");
            assert!(rt; heads <= 1);
        }
    }
    Ok(())
}

// Bytes `x` behind the front up to a length, and then the back.
pub fn padded(alloc: Global, front: &[u8], len: usize, back: &[u8]) -> Result<Vec<u8>, Fail> {
    let mut text = front.to_vec(alloc)?;
    text.resize(len, b'x')?;
    text.extend_from_slice(back)?;
    Ok(text)
}

// A head has at most 16,384 bytes, also in a larger room.
#[test]
fn request_heads_at_their_limit(rt: HostRuntime) -> Result<(), Fail> {
    let front = b"GET / HTTP/1.1\r\nHost: ";
    let table: [(usize, &[u8], Fed); 6] = [
        // without an end
        (16_384, b"", Fed::More),
        (16_385, b"", bad(BadWhy::TooLong)),
        // the end is the last byte, and comes one byte later
        (16_380, b"\r\n\r\n", Fed::Whole { used: 16_384 }),
        (16_381, b"\r\n\r\n", bad(BadWhy::TooLong)),
        // a byte that no field has is the last one, and comes one byte later
        (16_383, b"\x01", bad(BadWhy::Head)),
        (16_384, b"\x01", bad(BadWhy::TooLong)),
    ];
    for (len, back, answer) in table.iter() {
        let text = padded(rt.alloc(), front, *len, back)?;
        for size in [1000, 16_384, 20_000] {
            let small = fed(&rt, 16_384, &text, size)?;
            assert_eq!(rt; small.0, *answer, "{} bytes", text.len());
            let large = fed(&rt, 20_000, &text, size)?;
            assert_eq!(rt; large.0, *answer, "{} bytes", text.len());
        }
    }
    Ok(())
}

// Messages that fill their room, of heads of 51 and of 56 bytes, and messages with one byte more.
#[test]
fn request_bodies_at_their_limit(rt: HostRuntime) -> Result<(), Fail> {
    let at = b"POST / HTTP/1.1\r\nHost: a\r\nContent-Length: 16333\r\n\r\n";
    let over = b"POST / HTTP/1.1\r\nHost: a\r\nContent-Length: 16334\r\n\r\n";
    // 0x3fbb = 16,315, and the lines and ends of chunks are the other 13 bytes
    let data = b"POST / HTTP/1.1\r\nHost: a\r\nTransfer-Encoding: chunked\r\n\r\n3fbb\r\n";
    let more = b"POST / HTTP/1.1\r\nHost: a\r\nTransfer-Encoding: chunked\r\n\r\n3fbc\r\n";
    let table: [(&[u8], usize, &[u8], Fed); 8] = [
        (at, 16_384, b"", Fed::Whole { used: 16_384 }),
        (over, 16_385, b"", bad(BadWhy::TooLong)),
        (data, 16_377, b"\r\n0\r\n\r\n", Fed::Whole { used: 16_384 }),
        (more, 16_378, b"\r\n0\r\n\r\n", bad(BadWhy::TooLong)),
        // what can't be a chunk's end is the last byte, and comes one byte later
        (data, 16_377, b"\r\n1\r\nab", bad(BadWhy::Chunk)),
        (more, 16_378, b"\r\n1\r\nab", bad(BadWhy::TooLong)),
        // without an end
        (data, 16_377, b"\r\n7\r\nab", Fed::More),
        (data, 16_377, b"\r\n7\r\nabc", bad(BadWhy::TooLong)),
    ];
    for (front, len, back, answer) in table.iter() {
        let text = padded(rt.alloc(), front, *len, back)?;
        for size in [1000, 16_384, 20_000] {
            assert_eq!(rt;
                fed(&rt, 16_384, &text, size)?.0,
                *answer,
                "{} bytes",
                text.len()
            );
        }
    }
    Ok(())
}

// Messages in a room of 40,000 bytes, and trailers, which have at most 16,384 bytes behind the last chunk's line.
#[test]
fn requests_in_a_larger_room(rt: HostRuntime) -> Result<(), Fail> {
    let at = b"POST / HTTP/1.1\r\nHost: a\r\nContent-Length: 39949\r\n\r\n";
    let over = b"POST / HTTP/1.1\r\nHost: a\r\nContent-Length: 39950\r\n\r\n";
    let data = b"POST / HTTP/1.1\r\nHost: a\r\nTransfer-Encoding: chunked\r\n\r\nffff\r\n";
    // 56 bytes of head, and 3 of the last chunk's line
    let trailer = b"POST / HTTP/1.1\r\nHost: a\r\nTransfer-Encoding: chunked\r\n\r\n0\r\nT: ";
    let table: [(&[u8], usize, &[u8], Fed); 8] = [
        (at, 40_000, b"", Fed::Whole { used: 40_000 }),
        (over, 40_001, b"", bad(BadWhy::TooLong)),
        (data, 40_000, b"", Fed::More),
        (data, 40_001, b"", bad(BadWhy::TooLong)),
        (
            trailer,
            59 + 16_380,
            b"\r\n\r\n",
            Fed::Whole { used: 16_443 },
        ),
        (trailer, 59 + 16_381, b"\r\n\r\n", bad(BadWhy::Chunk)),
        (trailer, 59 + 16_384, b"", Fed::More),
        (trailer, 59 + 16_385, b"", bad(BadWhy::Chunk)),
    ];
    for (front, len, back, answer) in table.iter() {
        let text = padded(rt.alloc(), front, *len, back)?;
        for size in [1000, 16_384, 50_000] {
            assert_eq!(rt;
                fed(&rt, 40_000, &text, size)?.0,
                *answer,
                "{} bytes",
                text.len()
            );
        }
    }
    Ok(())
}

// The request of a known client, in pieces of one byte.
#[test]
fn request_fed_byte_by_byte(rt: HostRuntime) -> Result<(), Fail> {
    let text =
        b"POST / HTTP/1.1\r\nHost: 127.0.0.1:8080\r\nUser-Agent: curl/8.5.0\r\nAccept: */*\r\nContent-Length: 5\r\nContent-Type: application/x-www-form-urlencoded\r\nExpect: 100-continue\r\n\r\na=b&c";
    let mut reader = RequestReader::made_for(rt.alloc(), 20_000)?;
    let mut answer = Fed::More;
    for byte in text.chunks(1) {
        answer = reader.feed(byte);
    }
    assert_eq!(rt; answer, Fed::Whole { used: 1 });
    assert!(rt; reader.headed());
    assert_eq!(rt; reader.method(), b"POST".as_slice());
    assert_eq!(rt; reader.target(), b"/".as_slice());
    assert_eq!(rt; reader.field(b"user-agent"), Some(b"curl/8.5.0".as_slice()));
    assert_eq!(rt; reader.field(b"content-encoding"), None);
    assert!(rt; reader.expects());
    Ok(())
}
