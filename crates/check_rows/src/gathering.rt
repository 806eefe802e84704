// Gathered events by their serials and times.
use std::alloc::Global;
use std::test::Fail;
use ws_gather::in_order;
use ws_model::{Event, NoMemory, What};

// What a list becomes, each event told by its serial and its time.
fn ordered(alloc: Global, gathered: &[(u64, u64)]) -> Result<Vec<(u64, u64)>, NoMemory> {
    let mut events = Vec::new(alloc);
    for &(serial, t) in gathered {
        events.push(Event {
            serial,
            t,
            what: What::Unheard { n: serial },
        })?;
    }
    let mut told = Vec::new(alloc);
    for event in &in_order(events) {
        told.push((event.serial, event.t))?;
    }
    Ok(told)
}

#[test]
fn serials_tell_the_order(rt: HostRuntime) -> Result<(), Fail> {
    let alloc = rt.alloc();
    assert!(rt; ordered(alloc, &[])?.is_empty());
    let later = ordered(alloc, &[(9, 1020), (3, 1000), (7, 1020), (4, 1020)])?;
    assert_eq!(rt;
        &later[..],
        &[(3, 1000), (4, 1020), (7, 1020), (9, 1020)][..]
    );
    let with_first = ordered(alloc, &[(10, 0), (2, 0), (0, 0)])?;
    assert_eq!(rt; &with_first[..], &[(0, 0), (2, 0), (10, 0)][..]);
    Ok(())
}
