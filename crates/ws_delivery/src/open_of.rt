// The versions that are open for a lease.
ghost use Rattle.std.specs.Prelude.{◌≡◌, [], ◌∷◌, length, MatchOption};
ghost use Rattle.std.specs.Iterator.{YieldsFirst, at_most};
ghost use Rattle.ws_delivery.specs.OpenOf.{first_versions};

use crate::OpenPair;
use std::collections::btree_map::Range;
use std::marker::Model;

/// The versions of the open pairs of a lease, rising. It borrows the table. Contracts see it as the list
/// of the versions that are left.
#[derive(Drop)]
pub struct OpenOf<'a> {
    left: Option<Range<'a, (u64, u64), OpenPair>>,
    lease: u64,
}

impl<'a> Model for OpenOf<'a> {
    ghost use Rattle.std.specs.Prelude.{List, ℕ};

    ghost Value = { List ℕ };

    ghost use Rattle.ws_delivery.specs.OpenOf.{versions_left};

    ghost view = { λ s. versions_left s.lease s.left };
}

impl<'a> OpenOf<'a> {
    /// The versions of these pairs up to the first pair that is of another lease.
    pub(crate) fn of(pairs: Range<'a, (u64, u64), OpenPair>, lease: u64) -> OpenOf<'a>
        ensures { result ≡ first_versions lease pairs.entry }
    {
        OpenOf {
            left: Some(pairs),
            lease,
        }
    }
}

impl<'a> Iterator for OpenOf<'a> {
    type Item = u64;

    ghost next_gives = { YieldsFirst (λ s. s) };

    ghost remaining = { λ s. at_most (length s) };

    fn next(&mut self) -> Option<u64> {
        let version = match &mut self.left {
            Some(left) => next_version(left, self.lease),
            None => None,
        };
        if version.is_none() {
            self.left = None;
        }
        version
    }
}

/// The version of the next pair, where it is of the lease.
fn next_version(left: &mut Range<'_, (u64, u64), OpenPair>, lease: u64) -> Option<u64>
    ensures { MatchOption result (first_versions lease left.old ≡ []) (λ v. first_versions lease left.old ≡ v ∷ first_versions lease left.new) }
{
    match left.next() {
        Some((key, _)) => { if key.0 == lease { Some(key.1) } else { None } }
        None => None,
    }
}
