// The numbers of the live leases of a topic.
ghost use Rattle.std.specs.Prelude.{◌≡◌, [], length};
ghost use Rattle.std.specs.Iterator.{YieldsFirst, at_most};
ghost use Rattle.ws_lease.specs.Unexpired.{unexpired_numbers};

use std::collections::btree_map::Iter;
use std::marker::Model;

/// The numbers of the live leases of a topic, rising. It borrows the table. Contracts see it as the
/// list of the numbers that are left.
#[derive(Drop)]
pub struct LiveOf<'a> {
    left: Option<Iter<'a, u64, u64>>,
    t: u64,
}

impl<'a> Model for LiveOf<'a> {
    ghost use Rattle.std.specs.Prelude.{List, ℕ};

    ghost Value = { List ℕ };

    ghost use Rattle.ws_lease.specs.Unexpired.{all_unexpired};

    ghost view = { λ s. all_unexpired s.t s.left };
}

impl<'a> LiveOf<'a> {
    /// Of these ends by number the numbers whose ends are after `t`.
    pub(crate) fn of(ends: Iter<'a, u64, u64>, t: u64) -> LiveOf<'a>
        ensures { result ≡ unexpired_numbers t ends.entry }
    {
        LiveOf {
            left: Some(ends),
            t,
        }
    }

    /// No numbers.
    pub(crate) fn none(t: u64) -> LiveOf<'a>
        ensures { result ≡ [] }
    {
        LiveOf { left: None, t }
    }
}

impl<'a> Iterator for LiveOf<'a> {
    type Item = u64;

    ghost next_gives = { YieldsFirst (λ s. s) };

    ghost remaining = { λ s. at_most (length s) };

    fn next(&mut self) -> Option<u64> {
        match &mut self.left {
            Some(left) => next_unexpired(left, self.t),
            None => None,
        }
    }
}

/// The next number whose end is after `t`.
fn next_unexpired(left: &mut Iter<'_, u64, u64>, t: u64) -> Option<u64>
    ensures { YieldsFirst (unexpired_numbers t) left.old result left.new }
{
    while let Some((n, end)) = left.next() {
        if t < *end {
            return Some(*n);
        }
    }
    None
}
