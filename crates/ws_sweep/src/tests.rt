// Two rounds over a few members, worked out by hand.
use crate::Sweep;
use std::alloc::{AllocError, Global};
use std::test::Fail;

/// The numbers from 1 to 5, none of which was looked at.
fn five(alloc: Global) -> Result<Sweep<u64>, AllocError> {
    let mut list = Sweep::empty(alloc);
    for number in 1..6 {
        list.push(number)?;
    }
    Ok(list)
}

/// Keeps the even ones of the next members and takes the odd ones out.
fn look(list: &mut Sweep<u64>, times: usize) {
    for _ in 0..times {
        match list.next().copied() {
            None => list.begin_again(),
            Some(number) if number % 2 == 0 => list.keep_next(),
            Some(_) => list.take_next(),
        }
    }
}

#[test]
fn odd_ones_are_taken_out(rt: HostRuntime) -> Result<(), Fail> {
    let mut list = five(rt.alloc())?;
    assert_eq!(rt;
        (list.looked(), list.left()),
        (&[][..], &[1, 2, 3, 4, 5][..])
    );
    look(&mut list, 3);
    assert_eq!(rt; (list.looked(), list.left()), (&[2][..], &[4, 5][..]));
    list.push(6)?;
    look(&mut list, 3);
    assert_eq!(rt; (list.looked(), list.left()), (&[2, 4, 6][..], &[][..]));
    look(&mut list, 1);
    assert_eq!(rt; (list.looked(), list.left()), (&[][..], &[2, 4, 6][..]));
    list.push(7)?;
    look(&mut list, 4);
    assert_eq!(rt; (list.looked(), list.left()), (&[2, 4, 6][..], &[][..]));
    Ok(())
}
