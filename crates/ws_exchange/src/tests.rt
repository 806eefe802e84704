// Expected outcomes are worked out by hand from the rules of responses.
ghost use Rattle.std.specs.Prelude.{◌≡◌, false, IfOk, Some, None, ⊤};
ghost use Rattle.ws_link.specs.Links.{IsUntouched};
ghost use Rattle.ws_link.specs.MemoryLinks.{link_content};
ghost use Rattle.ws_exchange.specs.Polls.{is_over};

use super::*;
use std::alloc::Global;
use std::test::Fail;
use ws_http::Need;
use ws_link::{Link, LinkCounts, MemLink, Step};
use ws_model::{Bytes, NoMemory, Outcome, Reply};

// An exchange of three bytes over a link, late at 30.
fn exchange(alloc: Global, link: MemLink, need: Need) -> Result<Exchange<MemLink>, NoMemory>
    requires { IsUntouched (Some (link_content link)) }
    ensures { IfOk result (λ e. is_over e.stage ≡ false) }
{
    let bytes = Bytes::copy(alloc, b"ask")?;
    match Exchange::made(alloc, link, bytes, need, 30) {
        Ok(exchange) => Ok(exchange),
        Err(_) => Err(NoMemory),
    }
}

// A link that takes at most so many bytes at each poll, and gives none.
#[derive(Drop)]
struct SlowLink {
    most: usize,
    counts: LinkCounts,
}

impl Link for SlowLink {
    ghost content = { λ _. None };

    ghost counts = { λ link. link.counts };

    ghost send_gives = { λ _ _ _ _. ⊤ };

    ghost take_gives = { λ _ _ _ _. ⊤ };

    fn poll_send(&mut self, bytes: &[u8]) -> Step {
        self.counts.ask();
        if self.most == 0 {
            self.counts.wait();
            return Step::NotYet;
        }
        Step::Took(self.most.min(bytes.len()))
    }

    fn poll_take(&mut self, _into: &mut [u8]) -> Step {
        self.counts.ask();
        self.counts.wait();
        Step::NotYet
    }
}

// What an exchange comes to by so many polls.
fn polled<L: Link + Drop>(exchange: &mut Exchange<L>, most: u32) -> Polled
    requires { is_over exchange.old.stage ≡ false }
{
    'polls: for _ in 0..most {
        match exchange.poll() {
            Polled::Pending => {}
            last => return last,
        }
    }
    Polled::Pending
}

// The outcome of an exchange whose link gives these bytes.
fn outcome(
    alloc: Global,
    bytes: &[u8],
    finished: bool,
    pieces: &[u32],
    failing: &[u64],
    need: Need,
) -> Result<Option<Outcome>, NoMemory> {
    let link = MemLink::made(alloc, bytes, finished, pieces, 3, failing)?;
    let mut exchange = exchange(alloc, link, need)?;
    match polled(&mut exchange, 200) {
        Polled::Ended(outcome) => Ok(Some(outcome)),
        Polled::Pending => Ok(None),
        Polled::NoMemory => Err(NoMemory),
    }
}

#[test]
fn pieces_give_same_outcome(rt: HostRuntime) -> Result<(), Fail> {
    let alloc = rt.alloc();
    let reply = b"HTTP/1.1 200 OK\r\nContent-Type: text/plain\r\nContent-Length: 5\r\n\r\nhello";
    for size in [1, 7, 4096] {
        let pieces = vec![in alloc; size; 100]?;
        let expected = Reply {
            code: 200,
            media: Bytes::copy(alloc, b"text/plain")?,
            coding: Bytes::copy(alloc, b"")?,
            links: Bytes::copy(alloc, b"")?,
            body: Bytes::copy(alloc, b"hello")?,
        };
        let got = outcome(alloc, reply, false, &pieces, &[], Need::Full)?;
        assert_eq!(rt; got, Some(Outcome::Reply(expected)), "in pieces of {size}");
    }
    Ok(())
}

#[test]
fn body_up_to_the_end(rt: HostRuntime) -> Result<(), Fail> {
    let alloc = rt.alloc();
    let reply = b"HTTP/1.1 100 Continue\r\n\r\nHTTP/1.1 200 OK\r\n\r\nhi";
    assert_eq!(rt; outcome(alloc, reply, false, &[], &[], Need::Short)?, None);
    let expected = Reply {
        code: 200,
        media: Bytes::copy(alloc, b"")?,
        coding: Bytes::copy(alloc, b"")?,
        links: Bytes::copy(alloc, b"")?,
        body: Bytes::copy(alloc, b"hi")?,
    };
    let got = outcome(alloc, reply, true, &[], &[], Need::Short)?;
    assert_eq!(rt; got, Some(Outcome::Reply(expected)));
    Ok(())
}

// Ten bytes of a head, a body cut short, and a head whose body isn't asked for.
#[test]
fn link_ends_early_is_lost(rt: HostRuntime) -> Result<(), Fail> {
    let alloc = rt.alloc();
    let short = b"HTTP/1.1 200 OK\r\nContent-Length: 9\r\n\r\nabc";
    for (bytes, need, lost) in [
        (b"HTTP/1.1 2".as_slice(), Need::Status, true),
        (b"HTTP/1.1 2".as_slice(), Need::Full, true),
        (b"".as_slice(), Need::Short, true),
        (short.as_slice(), Need::Full, true),
        (short.as_slice(), Need::Short, true),
        (short.as_slice(), Need::Status, false),
    ] {
        let got = outcome(alloc, bytes, true, &[], &[], need)?;
        assert_eq!(rt;
            matches!(got, Some(Outcome::Lost)),
            lost,
            "{} bytes",
            bytes.len()
        );
    }
    Ok(())
}

#[test]
fn hostile_replies(rt: HostRuntime) -> Result<(), Fail> {
    let alloc = rt.alloc();
    let mut interims = Vec::new(alloc);
    for _ in 0..911 {
        interims.extend_from_slice(b"HTTP/1.1 100 C\r\n\r\n")?;
    }
    interims.truncate(16_385);
    let long = b"HTTP/1.1 200 OK\r\nContent-Length: 4194305\r\n\r\n";
    for (bytes, need, expected) in [
        (b"XYZ\n".as_slice(), Need::Status, Outcome::Garbled),
        (interims.as_slice(), Need::Status, Outcome::TooLong),
        (b"HTTP/1.1 ".as_slice(), Need::Status, Outcome::Lost),
        (long.as_slice(), Need::Full, Outcome::TooLong),
    ] {
        let got = outcome(alloc, bytes, true, &[], &[], need)?;
        assert_eq!(rt; got, Some(expected), "{} bytes", bytes.len());
    }
    let failed = outcome(alloc, b"HTTP/1.1 ", true, &[], &[1], Need::Status)?;
    assert_eq!(rt; failed, Some(Outcome::Lost), "the second call fails");
    Ok(())
}

#[test]
fn late_at_until(rt: HostRuntime) -> Result<(), Fail> {
    let alloc = rt.alloc();
    for (now, late) in [(29, false), (30, true)] {
        let link = MemLink::made(alloc, b"HTTP/1.1 ", false, &[], 3, &[])?;
        let mut exchange = exchange(alloc, link, Need::Status)?;
        exchange.set_now(now);
        let last = polled(&mut exchange, 3);
        assert_eq!(rt;
            matches!(last, Polled::Ended(Outcome::Late)),
            late,
            "at {now}"
        );
        let sent = if late {
            b"".as_slice()
        } else {
            b"ask".as_slice()
        };
        assert_eq!(rt; exchange.link().sent(), sent, "at {now}");
    }
    Ok(())
}

// Three bytes are sent by polls of their own; the counts tell which polls sent and which took.
#[test]
fn one_call_at_each_poll(rt: HostRuntime) -> Result<(), Fail> {
    let alloc = rt.alloc();
    for (most, waits) in [(0, 5), (1, 2), (2, 3), (3, 4)] {
        let link = SlowLink {
            most,
            counts: LinkCounts::none(),
        };
        match Exchange::made(alloc, link, Bytes::copy(alloc, b"ask")?, Need::Status, 30) {
            Ok(mut exchange) => {
                let last = polled(&mut exchange, 5);
                assert!(rt; matches!(last, Polled::Pending));
                let counts = LinkCounts {
                    faults: 0,
                    waits,
                    asks: 5,
                };
                assert_eq!(rt; exchange.link().counts, counts, "{most} at each poll");
            }
            Err(_) => return Err(Fail::from(NoMemory)),
        }
    }
    Ok(())
}

#[test]
fn link_that_takes_nothing_at_until(rt: HostRuntime) -> Result<(), Fail> {
    let alloc = rt.alloc();
    let link = SlowLink {
        most: 0,
        counts: LinkCounts::none(),
    };
    match Exchange::made(alloc, link, Bytes::copy(alloc, b"ask")?, Need::Status, 30) {
        Ok(mut exchange) => {
            exchange.set_now(29);
            match exchange.poll() {
                Polled::Pending => {
                    exchange.set_now(30);
                    let last = exchange.poll();
                    assert!(rt; matches!(last, Polled::Ended(Outcome::Late)));
                    assert_eq!(rt; exchange.link().counts.asks, 1, "late without a call");
                }
                _ => assert!(rt; false, "at 29"),
            }
            Ok(())
        }
        Err(_) => Err(Fail::from(NoMemory)),
    }
}
