// The tries of a few pairs, worked out by hand.
use std::mem::size_of;
use std::test::Fail;
use ws_model::How;
use ws_tries::{Tries, Try};

fn made(serial: u64, t: u64, how: How) -> Try {
    Try { serial, t, how }
}

#[test]
fn a_try_is_compact(rt: HostRuntime) -> Result<(), Fail> {
    assert_eq!(rt; size_of::<Try>(), 24);
    Ok(())
}

#[test]
fn pairs_and_their_tries(rt: HostRuntime) -> Result<(), Fail> {
    let mut tries = Tries::empty(rt.alloc());
    assert!(rt; tries.of(1, 2).is_none());
    tries.make_rooms(&[(1, 2), (2, 1)])?;
    tries.make_room(2, 3)?;
    tries.add(1, 2, made(7, 1010, How::Missed(503)));
    tries.add(2, 1, made(8, 1010, How::Gone));
    tries.add(1, 2, made(9, 1020, How::Done));
    let wanted = [made(7, 1010, How::Missed(503)), made(9, 1020, How::Done)];
    assert_eq!(rt; tries.of(1, 2), Some(&wanted[..]));
    let mut pairs = tries
        .rooms()
        .map(|(pair, room)| (*pair, room.as_slice().len()));
    assert_eq!(rt; pairs.next(), Some(((1, 2), 2)));
    assert_eq!(rt; pairs.next(), Some(((2, 1), 1)));
    assert_eq!(rt; pairs.next(), Some(((2, 3), 0)));
    assert_eq!(rt; pairs.next(), None);
    let mut leases = tries.rooms_of(2).map(|(pair, _)| pair.1);
    assert_eq!(rt; leases.next(), Some(1));
    assert_eq!(rt; leases.next(), Some(3));
    assert_eq!(rt; leases.next(), None);
    tries.give_back(1, 2);
    assert!(rt; tries.of(1, 2).is_none());
    assert_eq!(rt; tries.of(2, 1), Some(&[made(8, 1010, How::Gone)][..]));
    tries.give_back_version(2);
    assert_eq!(rt; (tries.of(2, 1), tries.of(2, 3)), (None, None));
    tries.make_rooms(&[(3, 1), (4, 1)])?;
    tries.give_back_all(&[(3, 1)]);
    assert!(rt; tries.of(3, 1).is_none());
    assert!(rt; tries.of(4, 1).is_some());
    Ok(())
}

#[test]
fn rooms_by_lease(rt: HostRuntime) -> Result<(), Fail> {
    let mut tries = Tries::empty(rt.alloc());
    assert_eq!(rt; tries.next_version(2, 0), None);
    tries.make_rooms(&[(5, 2), (3, 2), (4, 1), (3, 1), (9, 3)])?;
    assert_eq!(rt; tries.next_version(2, 0), Some(3));
    assert_eq!(rt; tries.next_version(2, 3), Some(3));
    assert_eq!(rt; tries.next_version(2, 4), Some(5));
    assert_eq!(rt; tries.next_version(2, 6), None);
    tries.give_back(3, 1);
    assert_eq!(rt; tries.next_version(1, 0), Some(4));
    tries.give_back_lease(2);
    assert_eq!(rt; tries.next_version(2, 0), None);
    assert_eq!(rt; (tries.of(3, 2), tries.of(5, 2)), (None, None));
    assert!(rt; tries.of(4, 1).is_some());
    assert_eq!(rt; tries.next_version(3, 0), Some(9));
    Ok(())
}
