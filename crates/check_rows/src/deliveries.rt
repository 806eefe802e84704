use std::test::Fail;
use ws_delivery::Deliveries;
use ws_model::{Cause, Fate, Held, Work};

// Each try at its time, from the birth at 1000 on; the eighth miss ends the pair.
#[test]
fn eight_misses_spend(rt: HostRuntime) -> Result<(), Fail> {
    let mut table = Deliveries::empty(rt.alloc());
    table.born(1, 1, 90_000, 1_000)?;
    let mut at = 1_000;
    for (tries, next) in [
        (1, 1_010),
        (2, 1_040),
        (3, 1_100),
        (4, 1_400),
        (5, 2_300),
        (6, 5_900),
        (7, 16_700),
    ] {
        assert!(rt; at < 1 << 47 && table.fate(1, 1, at).is_some());
        assert_eq!(rt; table.miss(1, 1, at), Fate::Owed { tries, next });
        at = next;
    }
    assert_eq!(rt; table.owed(at), 1);
    assert!(rt; table.fate(1, 1, at).is_some());
    assert_eq!(rt; table.miss(1, 1, 16_700), Fate::Ended(Cause::Spent));
    assert_eq!(rt; table.fate(1, 1, at), None);
    assert_eq!(rt; table.owed(at), 0);
    Ok(())
}

// By next try, version, lease; a push whose ticket is out is passed over, and one whose lease has ended.
#[test]
fn pushes_in_order(rt: HostRuntime) -> Result<(), Fail> {
    let alloc = rt.alloc();
    let mut table = Deliveries::empty(alloc);
    let mut held = Held::empty(alloc);
    table.born(3, 1, 5_000, 1_000)?;
    table.born(2, 2, 5_000, 1_000)?;
    table.born(2, 3, 2_000, 1_000)?;
    assert_eq!(rt; table.next_due(999, &held), None);
    for (ver, lease) in [(2, 2), (2, 3), (3, 1)] {
        assert_eq!(rt; table.next_due(1_000, &held), Some((ver, lease)));
        held.push(Work::Push { ver, lease })?;
    }
    assert_eq!(rt; table.next_due(1_000, &held), None);
    let none = Held::empty(alloc);
    assert_eq!(rt; table.close_lease(2), 1);
    assert_eq!(rt; table.next_due(1_999, &none), Some((2, 3)));
    assert_eq!(rt; table.next_due(2_000, &none), Some((3, 1)));
    Ok(())
}

// A renewal at 2042 takes over what is owed to lease 1, afresh.
#[test]
fn renewal_carries_owed_push(rt: HostRuntime) -> Result<(), Fail> {
    let alloc = rt.alloc();
    let mut table = Deliveries::empty(alloc);
    table.born(1, 1, 90_000, 2_000)?;
    for (at, tries, next) in [(2_000, 1, 2_010), (2_010, 2, 2_040)] {
        assert!(rt; at < 1 << 47 && table.fate(1, 1, at).is_some());
        assert_eq!(rt; table.miss(1, 1, at), Fate::Owed { tries, next });
    }
    assert_eq!(rt; table.close_lease(2), 0);
    assert_eq!(rt; table.carry(1, 2, 99_000, 2_042)?, 1);
    assert_eq!(rt; table.fate(1, 1, 2_042), None);
    assert_eq!(rt;
        table.fate(1, 2, 2_042),
        Some(Fate::Owed {
            tries: 0,
            next: 2_042
        })
    );
    assert_eq!(rt; table.next_due(2_042, &Held::empty(alloc)), Some((1, 2)));
    Ok(())
}

// Of one lease the lower version comes first, although its next try is later.
#[test]
fn lower_version_first(rt: HostRuntime) -> Result<(), Fail> {
    let alloc = rt.alloc();
    let mut table = Deliveries::empty(alloc);
    let none = Held::empty(alloc);
    table.born(1, 1, 90_000, 1_000)?;
    table.born(2, 1, 90_000, 1_001)?;
    assert!(rt; table.fate(1, 1, 1_001).is_some());
    assert_eq!(rt;
        table.miss(1, 1, 1_001),
        Fate::Owed {
            tries: 1,
            next: 1_011
        }
    );
    assert_eq!(rt; table.next_due(1_010, &none), None);
    assert_eq!(rt; table.next_due(1_011, &none), Some((1, 1)));
    Ok(())
}

// A lease that is renewed keeps its pairs until they are closed; each counts until its lease's end.
#[test]
fn renewed_lease_stays_open(rt: HostRuntime) -> Result<(), Fail> {
    let mut table = Deliveries::empty(rt.alloc());
    table.born(1, 1, 5_000, 1_000)?;
    table.born(4, 1, 5_000, 1_500)?;
    assert_eq!(rt; table.fate(1, 3, 2_000), None);
    assert_eq!(rt; table.close_lease(3), 0);
    assert_eq!(rt; table.renew(1, 3, 9_000, 2_000)?, 2);
    for (t, owed) in [(4_999, 4), (5_000, 2), (8_999, 2), (9_000, 0)] {
        assert_eq!(rt; table.owed(t), owed);
    }
    assert_eq!(rt; table.close_lease(1), 2);
    assert_eq!(rt; table.owed(4_999), 2);
    assert_eq!(rt; table.renew(1, 5, 9_000, 2_000)?, 0);
    Ok(())
}
