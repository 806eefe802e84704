use crate::tests::padded;
use crate::{BadWhy, Fed, Need, ResponseReader};
use std::process::Abort;
use std::test::Fail;
use ws_model::Reply;

fn bad(why: BadWhy) -> Fed {
    Fed::Bad { why }
}

// Feeds a response in pieces of a size, then the connection's end where there is one, and gives the first
// answer that is neither More nor Head; the used bytes are counted from the start.
fn fed(
    rt: &(impl Abort + AllocGlobal),
    reader: &mut ResponseReader,
    bytes: &[u8],
    size: usize,
    ended: bool,
) -> Fed {
    let mut heads: u64 = 0;
    let mut before: u64 = 0;
    for piece in bytes.chunks(size.max(1)) {
        match reader.feed(piece, false) {
            Fed::More => {}
            Fed::Head => heads = heads.saturating_add(1),
            Fed::Whole { used } => {
                assert_eq!(rt; reader.feed(piece, ended), Fed::Whole { used: 0 });
                return Fed::Whole {
                    used: used.saturating_add(before),
                };
            }
            other => {
                assert_eq!(rt; reader.feed(piece, ended), other);
                return other;
            }
        }
        assert!(rt; heads <= 1);
        before = before.saturating_add(piece.len() as u64);
    }
    if !ended {
        return Fed::More;
    }
    match reader.feed(b"", true) {
        Fed::Whole { used } => Fed::Whole {
            used: used.saturating_add(before),
        },
        other => other,
    }
}

// Each response with its answer, worked out by hand (lengths counted by Python's len) from RFC 9112 and the limits.
#[test]
fn responses_in_any_pieces(rt: HostRuntime) -> Result<(), Fail> {
    let table: [(Need, &[u8], bool, Fed); 44] = [
        (Need::Full, b"HTTP/1.1 200 OK\r\n\r\n", false, Fed::More),
        (
            Need::Full,
            b"HTTP/1.1 200 OK\r\n\r\n",
            true,
            Fed::Whole { used: 19 },
        ),
        (
            Need::Full,
            b"HTTP/1.1 200 OK\r\n\r\nabc",
            true,
            Fed::Whole { used: 22 },
        ),
        (
            Need::Full,
            b"HTTP/1.1 204 No Content\r\nContent-Length: 5\r\n\r\nabcde",
            false,
            Fed::Whole { used: 46 },
        ),
        (
            Need::Full,
            b"HTTP/1.1 304 Not Modified\r\nTransfer-Encoding: gzip\r\n\r\n",
            false,
            Fed::Whole { used: 54 },
        ),
        (
            Need::Full,
            b"HTTP/1.1 200 OK\r\nContent-Length: 3\r\n\r\nabc",
            false,
            Fed::Whole { used: 41 },
        ),
        (
            Need::Full,
            b"HTTP/1.1 200 OK\r\nContent-Length: 3\r\n\r\nabcd",
            true,
            Fed::Whole { used: 41 },
        ),
        (
            Need::Full,
            b"HTTP/1.1 200 OK\r\nContent-Length: 3\r\n\r\nab",
            false,
            Fed::More,
        ),
        (
            Need::Full,
            b"HTTP/1.1 200 OK\r\nContent-Length: 3\r\n\r\nab",
            true,
            bad(BadWhy::Cut),
        ),
        (
            Need::Short,
            b"HTTP/1.1 200 OK\r\nContent-Length: 3\r\n\r\nab",
            true,
            bad(BadWhy::Cut),
        ),
        (
            Need::Status,
            b"HTTP/1.1 200 OK\r\nContent-Length: 3\r\n\r\nab",
            true,
            Fed::Whole { used: 38 },
        ),
        (
            Need::Full,
            b"HTTP/1.1 200 OK\r\nContent-Length: 3, 3\r\n\r\nabc",
            false,
            Fed::Whole { used: 44 },
        ),
        (
            Need::Short,
            b"HTTP/1.1 200 OK\r\nContent-Length: 05 ,\t5\r\n\r\nabcde",
            false,
            Fed::Whole { used: 48 },
        ),
        (
            Need::Full,
            b"HTTP/1.1 200 OK\r\nContent-Length: 3, 4\r\n\r\nabc",
            false,
            bad(BadWhy::Framing),
        ),
        (
            Need::Full,
            b"HTTP/1.1 200 OK\r\nContent-Length: 3,\r\n\r\nabc",
            false,
            bad(BadWhy::Framing),
        ),
        (
            Need::Full,
            b"HTTP/1.1 200 OK\r\nContent-Length: 3\r\ncontent-length: 3\r\n\r\nabc",
            false,
            Fed::Whole { used: 60 },
        ),
        (
            Need::Full,
            b"HTTP/1.1 200 OK\r\nContent-Length: 3\r\nContent-Length: 4\r\n\r\nabc",
            false,
            bad(BadWhy::Framing),
        ),
        (
            Need::Full,
            b"HTTP/1.1 200 OK\r\nContent-Length: +3\r\n\r\nabc",
            false,
            bad(BadWhy::Framing),
        ),
        (
            Need::Full,
            b"HTTP/1.1 200 OK\r\nContent-Length: 0000000000000000003\r\n\r\nabc",
            false,
            bad(BadWhy::Framing),
        ),
        (
            Need::Full,
            b"HTTP/1.1 200 OK\r\nContent-Length: 000000000000000003\r\n\r\nabc",
            false,
            Fed::Whole { used: 58 },
        ),
        (
            Need::Full,
            b"HTTP/1.1 200 OK\r\nContent-Length: 4194304\r\n\r\n",
            true,
            bad(BadWhy::Cut),
        ),
        (
            Need::Full,
            b"HTTP/1.1 200 OK\r\nContent-Length: 4194305\r\n\r\n",
            false,
            bad(BadWhy::TooLong),
        ),
        (
            Need::Full,
            b"HTTP/1.1 200 OK\r\nTransfer-Encoding: chunked\r\nContent-Length: 9\r\n\r\n1\r\na\r\n0\r\n\r\n",
            false,
            Fed::Whole { used: 77 },
        ),
        (
            Need::Short,
            b"HTTP/1.1 200 OK\r\nTransfer-Encoding: Chunked\r\nTransfer-Encoding: chunked\r\n\r\n2;x=y\r\nab\r\n00\r\nT: v\r\n\r\nzz",
            false,
            Fed::Whole { used: 98 },
        ),
        (
            Need::Full,
            b"HTTP/1.1 200 OK\r\nTransfer-Encoding: gzip\r\n\r\n",
            false,
            bad(BadWhy::Framing),
        ),
        (
            Need::Full,
            b"HTTP/1.1 200 OK\r\nTransfer-Encoding: gzip, chunked\r\n\r\n",
            false,
            bad(BadWhy::Framing),
        ),
        (
            Need::Full,
            b"HTTP/1.1 200 OK\r\nTransfer-Encoding: chunked\r\nTransfer-Encoding: gzip\r\n\r\n",
            false,
            bad(BadWhy::Framing),
        ),
        (
            Need::Full,
            b"HTTP/1.1 200 OK\r\nTransfer-Encoding: chunked\r\n\r\nzz\r\n",
            false,
            bad(BadWhy::Chunk),
        ),
        (
            Need::Full,
            b"HTTP/1.1 200 OK\r\nTransfer-Encoding: chunked\r\n\r\n2\r\nabc\r\n",
            false,
            bad(BadWhy::Chunk),
        ),
        (
            Need::Short,
            b"HTTP/1.1 200 OK\r\nTransfer-Encoding: chunked\r\n\r\n2\r\nab\rx",
            true,
            bad(BadWhy::Chunk),
        ),
        (
            Need::Full,
            b"HTTP/1.1 200 OK\r\nTransfer-Encoding: chunked\r\n\r\n0\r\nT\x01: v\r\n\r\n",
            false,
            bad(BadWhy::Chunk),
        ),
        (
            Need::Full,
            b"HTTP/1.1 200 OK\r\nTransfer-Encoding: chunked\r\n\r\n2\r\nab\r\n",
            true,
            bad(BadWhy::Cut),
        ),
        (
            Need::Status,
            b"HTTP/1.1 200 OK\r\nTransfer-Encoding: chunked\r\n\r\nzz\r\n",
            false,
            Fed::Whole { used: 47 },
        ),
        (
            Need::Full,
            b"HTTP/1.1 100 Continue\r\n\r\nHTTP/1.1 103 Early Hints\r\nLink: </a>\r\n\r\nHTTP/1.1 204 No Content\r\n\r\n",
            false,
            Fed::Whole { used: 92 },
        ),
        (
            Need::Status,
            b"HTTP/1.1 100 Continue\r\n\r\nHTTP/1.1 204 No Content\r\n\r\n",
            false,
            Fed::Whole { used: 52 },
        ),
        (
            Need::Status,
            b"HTTP/1.1 100 Continue\r\n\r\n",
            true,
            bad(BadWhy::Cut),
        ),
        (
            Need::Status,
            b"HTTP/1.1 100 Continue\r\n\r\nXX",
            false,
            bad(BadWhy::Head),
        ),
        (
            Need::Full,
            b"HTTP/1.1 099 Low\r\n\r\n",
            false,
            bad(BadWhy::Head),
        ),
        (Need::Status, b"XYZ\n", false, bad(BadWhy::Head)),
        (Need::Status, b"HTTP/1.1 ", true, bad(BadWhy::Cut)),
        (
            Need::Full,
            b"HTTP/2.0 200 OK\r\n\r\n",
            false,
            bad(BadWhy::Head),
        ),
        (
            Need::Full,
            b"HTTP/1.0 999\nContent-Length: 1\n\nx",
            false,
            Fed::Whole { used: 33 },
        ),
        (Need::Full, b"", false, Fed::More),
        (Need::Full, b"", true, bad(BadWhy::Cut)),
    ];
    for (need, bytes, ended, answer) in table.iter() {
        for size in [1, 7, 100_000] {
            let mut reader = ResponseReader::made(rt.alloc(), *need)?;
            let said = fed(&rt, &mut reader, bytes, size, *ended);
            assert_eq!(rt; said, *answer, "{bytes:?} in pieces of {size}");
        }
    }
    Ok(())
}

// The heads have at most 16,384 bytes together: two heads of which the first is an interim one.
#[test]
fn response_heads_at_their_limit(rt: HostRuntime) -> Result<(), Fail> {
    let front = b"HTTP/1.1 100 Continue\r\n\r\nHTTP/1.1 204 No Content\r\nLink: ";
    let table: [(usize, &[u8], Fed); 6] = [
        // without an end
        (16_384, b"", Fed::More),
        (16_385, b"", bad(BadWhy::TooLong)),
        // the end is the last byte, and comes one byte later
        (16_380, b"\r\n\r\n", Fed::Whole { used: 16_384 }),
        (16_381, b"\r\n\r\n", bad(BadWhy::TooLong)),
        // a byte that no field has is the last one, and comes one byte later
        (16_383, b"\x01", bad(BadWhy::Head)),
        (16_384, b"\x01", bad(BadWhy::TooLong)),
    ];
    for (len, back, answer) in table.iter() {
        let text = padded(rt.alloc(), front, *len, back)?;
        for need in [Need::Status, Need::Short, Need::Full] {
            for size in [1000, 20_000] {
                let mut reader = ResponseReader::made(rt.alloc(), need)?;
                let said = fed(&rt, &mut reader, &text, size, false);
                assert_eq!(rt; said, *answer, "{} bytes", text.len());
            }
        }
    }
    Ok(())
}

// What a reader says of bytes `x` between a front and a back, up to a length, whole and in large pieces.
fn said(
    rt: &(impl Abort + AllocGlobal),
    need: Need,
    front: &[u8],
    len: usize,
    back: &[u8],
) -> Result<Fed, Fail> {
    let text = padded(rt.alloc(), front, len, back)?;
    let mut whole = ResponseReader::made(rt.alloc(), need)?;
    let answer = fed(rt, &mut whole, &text, text.len(), true);
    let mut pieced = ResponseReader::made(rt.alloc(), need)?;
    assert_eq!(rt; fed(rt, &mut pieced, &text, 1_000_000, true), answer);
    Ok(answer)
}

// A body of 4,194,304 bytes, and one byte more, behind heads of 19 and 47 bytes.
#[test]
fn response_bodies_at_their_limit(rt: HostRuntime) -> Result<(), Fail> {
    let lasting = b"HTTP/1.1 200 OK\r\n\r\n";
    let at = said(&rt, Need::Full, lasting, 19 + 4_194_304, b"")?;
    assert_eq!(rt; at, Fed::Whole { used: 4_194_323 });
    let over = said(&rt, Need::Short, lasting, 19 + 4_194_305, b"")?;
    assert_eq!(rt; over, bad(BadWhy::TooLong));
    // 0x400000 = 4,194,304; 8 bytes of the chunk's line, 7 behind its data
    let data = b"HTTP/1.1 200 OK\r\nTransfer-Encoding: chunked\r\n\r\n400000\r\n";
    let at = said(&rt, Need::Full, data, 55 + 4_194_304, b"\r\n0\r\n\r\n")?;
    assert_eq!(rt; at, Fed::Whole { used: 4_194_366 });
    let heavy = b"HTTP/1.1 200 OK\r\nTransfer-Encoding: chunked\r\n\r\n400001\r\n";
    let over = said(&rt, Need::Short, heavy, 55 + 4_194_305, b"")?;
    assert_eq!(rt; over, bad(BadWhy::TooLong));
    Ok(())
}

// A chunked body of 8,388,608 bytes with its lines, and one byte more, behind a head of 47 bytes.
#[test]
fn chunked_responses_at_their_limit(rt: HostRuntime) -> Result<(), Fail> {
    let line = b"HTTP/1.1 200 OK\r\nTransfer-Encoding: chunked\r\n\r\n1;";
    // 10 bytes behind the line's extension
    let last = b"\r\na\r\n0\r\n\r\n";
    let at = said(&rt, Need::Short, line, 47 + 8_388_598, last)?;
    assert_eq!(rt; at, Fed::Whole { used: 8_388_655 });
    let over = said(&rt, Need::Full, line, 47 + 8_388_599, last)?;
    assert_eq!(rt; over, bad(BadWhy::TooLong));
    // what can't be a chunk's end is the last byte, and comes one byte later
    let wrong = said(&rt, Need::Full, line, 47 + 8_388_604, b"\r\nab")?;
    assert_eq!(rt; wrong, bad(BadWhy::Chunk));
    let later = said(&rt, Need::Short, line, 47 + 8_388_605, b"\r\nab")?;
    assert_eq!(rt; later, bad(BadWhy::TooLong));
    Ok(())
}

// Trailers have at most 16,384 bytes behind the last chunk's line, which begins behind 47 bytes of head.
#[test]
fn response_trailers_at_their_limit(rt: HostRuntime) -> Result<(), Fail> {
    let trailer = b"HTTP/1.1 200 OK\r\nTransfer-Encoding: chunked\r\n\r\n0\r\nT: ";
    let at = said(&rt, Need::Full, trailer, 50 + 16_380, b"\r\n\r\n")?;
    assert_eq!(rt; at, Fed::Whole { used: 16_434 });
    let over = said(&rt, Need::Short, trailer, 50 + 16_381, b"\r\n\r\n")?;
    assert_eq!(rt; over, bad(BadWhy::Chunk));
    Ok(())
}

// Feeds a response whole, with the connection's end behind it, and gives its reply.
fn reply_of(
    rt: &(impl Abort + AllocGlobal),
    need: Need,
    bytes: &[u8],
) -> Result<Option<Reply>, Fail> {
    let mut reader = ResponseReader::made(rt.alloc(), need)?;
    match reader.feed(bytes, true) {
        Fed::Whole { used: _ } => {
            let reply = reader.into_reply()?;
            Ok(Some(reply))
        }
        _ => Ok(None),
    }
}

// The chunks `2`, `ab` and `0` make the body `ab`.
#[test]
fn short_need_chunked_body(rt: HostRuntime) -> Result<(), Fail> {
    let text =
        b"HTTP/1.1 200 OK\r\nContent-Type: a/b\r\nTransfer-Encoding: chunked\r\n\r\n2\r\nab\r\n0\r\n\r\n";
    let reply = reply_of(&rt, Need::Short, text)?.expect(&rt, "a whole response");
    assert_eq!(rt; reply.code, 200);
    assert_eq!(rt; reply.media.as_slice(), b"a/b".as_slice());
    assert_eq!(rt; reply.body.as_slice(), b"ab".as_slice());
    Ok(())
}

// Of a short body 41 bytes are kept, and of a long one all; the first Content-Type counts, and all Link fields.
#[test]
fn reply_of_its_fields(rt: HostRuntime) -> Result<(), Fail> {
    let text =
        b"HTTP/1.1 404 No\r\nLink: <a>\r\nContent-Type: \ttext/x \r\nlink: <b>\r\nContent-Encoding: gzip\r\nContent-Type: a/b\r\nContent-Length: 43\r\n\r\n0123456789012345678901234567890123456789abc";
    let short = reply_of(&rt, Need::Short, text)?.expect(&rt, "a whole response");
    let full = reply_of(&rt, Need::Full, text)?.expect(&rt, "a whole response");
    assert_eq!(rt; full.code, 404);
    assert_eq!(rt; full.media.as_slice(), b"text/x".as_slice());
    assert_eq!(rt; full.coding.as_slice(), b"gzip".as_slice());
    assert_eq!(rt; full.links.as_slice(), b"<a>, <b>".as_slice());
    assert_eq!(rt;
        full.body.as_slice(),
        b"0123456789012345678901234567890123456789abc".as_slice()
    );
    assert_eq!(rt;
        short.body.as_slice(),
        b"0123456789012345678901234567890123456789a".as_slice()
    );
    assert_eq!(rt; short.links.as_slice(), b"<a>, <b>".as_slice());
    Ok(())
}

// With the status alone the message is whole at the end of its head.
#[test]
fn status_need_ignores_body(rt: HostRuntime) -> Result<(), Fail> {
    let text = b"HTTP/1.1 201 Created\r\nContent-Type: a/b\r\nContent-Length: 9\r\n\r\n";
    let mut reader = ResponseReader::made(rt.alloc(), Need::Status)?;
    match reader.feed(text, false) {
        Fed::Whole { used } => {
            assert_eq!(rt; used, text.len() as u64);
            let reply = reader.into_reply()?;
            assert_eq!(rt; reply.code, 201);
            assert!(rt; reply.media.as_slice().is_empty() && reply.body.as_slice().is_empty());
        }
        other => assert_eq!(rt; other, Fed::More),
    }
    Ok(())
}

// Feeds a response in pieces of a size, then the connection's end, and gives its reply.
fn reply_in_pieces(
    rt: &(impl Abort + AllocGlobal),
    bytes: &[u8],
    size: usize,
) -> Result<Option<Reply>, Fail> {
    let mut reader = ResponseReader::made(rt.alloc(), Need::Full)?;
    for piece in bytes.chunks(size.max(1)) {
        if let Fed::Whole { used: _ } = reader.feed(piece, false) {
            let reply = reader.into_reply()?;
            return Ok(Some(reply));
        }
    }
    match reader.feed(b"", true) {
        Fed::Whole { used: _ } => {
            let reply = reader.into_reply()?;
            Ok(Some(reply))
        }
        _ => Ok(None),
    }
}

// A whole body is the one that was sent, in whatever pieces: of declared length, with more behind it, up to
// the connection's end, and chunked.
#[test]
fn whole_bodies_in_any_pieces(rt: HostRuntime) -> Result<(), Fail> {
    let table: [&[u8]; 4] = [
        b"HTTP/1.1 200 OK\r\nContent-Length: 9\r\n\r\nnine-byte",
        b"HTTP/1.1 200 OK\r\nContent-Length: 9\r\n\r\nnine-bytes and more",
        b"HTTP/1.1 100 Continue\r\n\r\nHTTP/1.1 200 OK\r\n\r\nnine-byte",
        b"HTTP/1.1 200 OK\r\nTransfer-Encoding: chunked\r\n\r\n4\r\nnine\r\n5\r\n-byte\r\n0\r\n\r\n",
    ];
    for text in table.iter() {
        for size in 1..80 {
            let reply = reply_in_pieces(&rt, text, size)?.expect(&rt, "a whole response");
            assert_eq!(rt; reply.code, 200);
            assert_eq!(rt;
                reply.body.as_slice(),
                b"nine-byte".as_slice(),
                "pieces of {size}"
            );
        }
    }
    Ok(())
}
