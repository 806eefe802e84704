// Expected steps, counts and bytes are worked out by hand.
ghost use Rattle.std.specs.Prelude.{◌<◌, length};

use std::test::Fail;
use ws_link::*;

fn send<L: Link>(link: &mut L, bytes: &[u8]) -> Step
    requires { 0 < length bytes.now }
{
    link.poll_send(bytes)
}

fn take<L: Link>(link: &mut L, room: &mut [u8; 4]) -> Step {
    link.poll_take(room)
}

fn time<C: Clock>(clock: &mut C) -> u64 {
    clock.now()
}

#[test]
fn memory_link_moves_in_pieces(rt: HostRuntime) -> Result<(), Fail> {
    let mut link = MemLink::made(rt.alloc(), b"abcde", false, &[1, 2], 3, &[3])?;
    let mut room = [0; 4];
    assert_eq!(rt; send(&mut link, b"xy"), Step::Took(2));
    assert_eq!(rt;
        take(&mut link, &mut room),
        Step::Took(2),
        "the second piece"
    );
    assert_eq!(rt; &room[..2], b"ab".as_slice());
    assert_eq!(rt;
        take(&mut link, &mut room),
        Step::Took(3),
        "behind the pieces"
    );
    assert_eq!(rt; &room[..3], b"cde".as_slice());
    assert_eq!(rt; take(&mut link, &mut room), Step::Failed, "the fourth call");
    assert_eq!(rt; take(&mut link, &mut room), Step::NotYet);
    link.arrive(b"f")?;
    assert_eq!(rt; take(&mut link, &mut room), Step::Took(1));
    link.finish();
    assert_eq!(rt; take(&mut link, &mut room), Step::End);
    assert_eq!(rt; send(&mut link, b"zw"), Step::Failed, "past the room");
    assert_eq!(rt; link.sent(), b"xy".as_slice());
    link.fail();
    assert_eq!(rt; send(&mut link, b"z"), Step::Failed);
    let counts = LinkCounts {
        faults: 3,
        waits: 1,
        asks: 9,
    };
    assert_eq!(rt; link.counts(), counts);
    Ok(())
}

#[test]
fn memory_dial_gives_links_in_order(rt: HostRuntime) -> Result<(), Fail> {
    let alloc = rt.alloc();
    let mut links = Vec::new(alloc);
    links.push(MemLink::made(alloc, b"1", true, &[], 0, &[])?)?;
    links.push(MemLink::made(alloc, b"2", true, &[], 0, &[])?)?;
    let mut dial = MemDial::made(alloc, links, 12, &[1])?;
    let mut first = dial.dial(b"a.example", 8080)?;
    assert_eq!(rt; dial.dialed(), b"a.example\x1f\x90".as_slice());
    let mut room = [0; 4];
    assert_eq!(rt; take(&mut first, &mut room), Step::Took(1));
    assert_eq!(rt; room[0], b'1');
    assert!(rt; dial.dial(b"", 1).is_err(), "the second call");
    assert!(rt; dial.dial(b"b", 1).is_err(), "no room");
    assert!(rt; dial.back().is_empty());
    Ok(())
}

#[test]
fn clocks_give_times(rt: HostRuntime) -> Result<(), Fail> {
    let mut clock = MemClock::made(rt.alloc(), &[5, 9])?;
    for expected in [5, 9, 9] {
        assert_eq!(rt; time(&mut clock), expected);
    }
    let mut none = MemClock::made(rt.alloc(), &[])?;
    assert_eq!(rt; time(&mut none), 0);
    let mut system = SystemClock::new(rt);
    // The beginning of 2020.
    assert!(rt; time(&mut system) > 1_577_836_800);
    Ok(())
}
