// One vector with a gap between the members that a round has looked at and those that are left.
ghost use Rattle.std.specs.Prelude.{◌≡◌, ◌∷◌, ◌++◌, ◌+◌, ◌≤◌, ◌<◌, [], OnOk, OnErr, drop, length, take};
ghost use Rattle.std.specs.Option.{option_copied};
ghost use Rattle.ws_sweep.specs.Rows.{first_of};

use std::alloc::{AllocError, Global};
use std::marker::Model;

/// A list in two parts: the members that the round has looked at, which stay, and behind them those that are
/// left. Between them lie those that were taken out, until the round is over.
#[derive(Drop)]
pub struct Sweep<T> {
    items: Vec<T>,
    looked: usize,
    left: usize,
}

impl<T> Model for Sweep<T> {
    ghost use Rattle.std.specs.Prelude.{◌≤◌, ◌-◌, take, drop};
    ghost use Rattle.std.specs.Vec.{vec_capacity, vec_len};
    ghost use Rattle.ws_sweep.specs.Rows.{Rows};
    ghost use Rattle.ws_sweep.specs.Bounds.{AreWithin};

    ghost Value = { Rows T };

    ghost view = { λ s. record { looked = take s.looked s.items.items; left = drop s.left s.items.items; room = vec_capacity s.items - vec_len s.items } };

    ghost invariant = { λ s. AreWithin s.looked s.left (vec_len s.items) };
}

impl<T> Sweep<T> {
    /// A list without members. It takes no memory.
    pub fn empty(alloc: Global) -> Sweep<T>
        ensures looked { result.looked ≡ [] }
        ensures left { result.left ≡ [] }
    {
        Sweep {
            items: Vec::new(alloc),
            looked: 0,
            left: 0,
        }
    }

    /// The members that the round has looked at.
    pub fn looked(&self) -> &[T]
        ensures { result.now ≡ self.now.looked }
    {
        &self.items[..self.looked]
    }

    /// The members that are left, and come behind the others.
    pub fn left(&self) -> &[T]
        ensures { result.now ≡ self.now.left }
    {
        &self.items[self.left..]
    }

    /// Takes room for so many more members. At an error the list is as it was.
    pub fn reserve(&mut self, count: usize) -> Result<(), AllocError>
        ensures looked { self.new.looked ≡ self.old.looked }
        ensures left { self.new.left ≡ self.old.left }
        ensures room { OnOk result (count ≤ self.new.room) }
        ensures err { OnErr result (self.new ≡ self.old) }
    {
        self.items.reserve(count)
    }

    /// Adds a member at the end, for which there is room.
    pub fn push_reserved(&mut self, member: T)
        requires { 0 < self.old.room }
        ensures looked { self.new.looked ≡ self.old.looked }
        ensures left { self.new.left ≡ self.old.left ++ member ∷ [] }
        ensures room { self.new.room + 1 ≡ self.old.room }
    {
        self.items.push_reserved(member);
    }

    /// Adds a member at the end. At an error the list is as it was.
    pub fn push(&mut self, member: T) -> Result<(), AllocError>
    where
        T: Drop,
        ensures looked { self.new.looked ≡ self.old.looked }
        ensures left { OnOk result (self.new.left ≡ self.old.left ++ member ∷ []) }
        ensures err { OnErr result (self.new ≡ self.old) }
    {
        self.reserve(1)?;
        self.push_reserved(member);
        Ok(())
    }

    /// The first of those that are left.
    pub fn next(&self) -> Option<&T>
        ensures { option_copied result ≡ first_of self.now.left }
    {
        self.items.get(self.left)
    }

    /// Keeps the first of those that are left: it was looked at. It takes no memory.
    pub fn keep_next(&mut self)
        requires { 0 < length self.old.left }
        ensures looked { self.new.looked ≡ self.old.looked ++ take 1 self.old.left }
        ensures left { self.new.left ≡ drop 1 self.old.left }
        ensures room { self.new.room ≡ self.old.room }
    {
        self.items.swap(self.looked, self.left);
        self.looked += 1;
        self.left += 1;
    }

    /// Takes the first of those that are left out. It takes no memory.
    pub fn take_next(&mut self)
        requires { 0 < length self.old.left }
        ensures looked { self.new.looked ≡ self.old.looked }
        ensures left { self.new.left ≡ drop 1 self.old.left }
        ensures room { self.new.room ≡ self.old.room }
    {
        self.left += 1;
    }

    /// Begins a new round, where none is left: all members are to be looked at again, and the memory of those
    /// that were taken out is room for new ones. It takes no memory.
    pub fn begin_again(&mut self)
    where
        T: Drop,
        requires { self.old.left ≡ [] }
        ensures looked { self.new.looked ≡ [] }
        ensures left { self.new.left ≡ self.old.looked }
        ensures room { self.old.room ≤ self.new.room }
    {
        self.items.truncate(self.looked);
        self.looked = 0;
        self.left = 0;
    }
}
