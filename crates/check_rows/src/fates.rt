// What became of a few pairs, worked out by hand.
use std::test::Fail;
use ws_fate::{Fates, Standing, Totals};
use ws_model::{Cause, Tally};

#[test]
fn pairs_and_their_ends(rt: HostRuntime) -> Result<(), Fail> {
    let mut fates = Fates::empty(rt.alloc());
    assert_eq!(rt; fates.get(1, 2), None);
    fates.born(1, 2)?;
    fates.born(1, 3)?;
    fates.born(2, 3)?;
    assert_eq!(rt;
        (fates.open_of(1), fates.open_of(2), fates.open_of(3)),
        (2, 1, 0)
    );
    fates.end(1, 2, Standing::Answered);
    assert_eq!(rt; fates.open_of(1), 1);
    fates.end(1, 3, Standing::Ended(Cause::Replaced));
    fates.unborn(2, 3);
    assert_eq!(rt; (fates.open_of(1), fates.open_of(2)), (0, 0));
    assert_eq!(rt; fates.get(1, 2), Some(Standing::Answered));
    assert_eq!(rt; fates.get(1, 3), Some(Standing::Ended(Cause::Replaced)));
    assert_eq!(rt; fates.get(2, 3), None);
    assert_eq!(rt; fates.get(2, 1), None);
    assert_eq!(rt; fates.pairs().count(), 2);
    let mut of_three = fates.pairs_of(3);
    assert_eq!(rt;
        of_three.next(),
        Some((&(3, 1), &Standing::Ended(Cause::Replaced)))
    );
    assert!(rt; of_three.next().is_none());
    let wanted = Totals {
        answered: 1,
        replaced: 1,
        ..Totals::none()
    };
    assert_eq!(rt; fates.totals(), wanted);
    Ok(())
}

#[test]
fn forgotten_pairs_count(rt: HostRuntime) -> Result<(), Fail> {
    let tally = Tally {
        now: 1000,
        serial: 9,
        intent: 2,
        version: 3,
        answered: u64::MAX,
        expired: 1,
        unsubscribed: 2,
        replaced: 3,
        gone: 4,
        spent: 5,
        revoked: 6,
    };
    let mut fates = Fates::of_tally(rt.alloc(), &tally);
    fates.born(3, 2)?;
    fates.end(3, 2, Standing::Answered);
    fates.born(4, 2)?;
    fates.end(4, 2, Standing::Ended(Cause::Spent));
    let wanted = Totals {
        answered: u64::MAX,
        expired: 1,
        unsubscribed: 2,
        replaced: 3,
        gone: 4,
        spent: 6,
        revoked: 6,
    };
    assert_eq!(rt; fates.totals(), wanted);
    Ok(())
}
