// The pushes of a pair, and those of nothing.
use crate::kept_pushes;
use crate::pushes::add_pushes;
use std::test::Fail;
use ws_kept::Kept;
use ws_model::{Event, How, What};
use ws_tries::{Tries, Try};

#[test]
fn tries_are_pushes(rt: HostRuntime) -> Result<(), Fail> {
    let mut tries = Tries::empty(rt.alloc());
    tries.make_room(3, 4)?;
    let made = Try {
        serial: 9,
        t: 1020,
        how: How::Gone,
    };
    tries.add(3, 4, made);
    let kept = Kept::nothing(rt.alloc());
    assert!(rt; kept_pushes(rt.alloc(), &tries, &kept)?.is_empty());
    let mut events = Vec::new(rt.alloc());
    add_pushes(&mut events, 3, 4, tries.of(3, 4).unwrap_or(&[]))?;
    let wanted = Event {
        serial: 9,
        t: 1020,
        what: What::Pushed {
            ver: 3,
            lease: 4,
            how: How::Gone,
        },
    };
    assert_eq!(rt; &events[..], &[wanted][..]);
    Ok(())
}
