// The tries of one pair, in a room that is taken at once.
ghost use Rattle.std.specs.Prelude.{◌≡◌, ◌<◌, ◌∷◌, ◌++◌, [], length, IfOk};
ghost use Rattle.std.specs.Vec.{vec_capacity};

use std::alloc::Global;
use std::marker::Model;
use ws_model::{How, NoMemory};

// As many pushes as a pair can have: it is spent with the eighth that was missed.
const MOST: usize = 8;

/// A push of a pair that ended: the serial and the time, in seconds, of its event, and how it ended.
#[derive(Clone, Copy, Debug, PartialEq, Eq)]
pub struct Try {
    pub serial: u64,
    pub t: u64,
    pub how: How,
}

/// The tries of a pair, the oldest first, in a room for eight that is taken when it is made. Contracts
/// see it as the list of the tries.
#[derive(Drop)]
pub struct Room {
    tries: Vec<Try>,
}

impl Model for Room {
    ghost use Rattle.std.specs.Prelude.{◌≡◌, List};
    ghost use Rattle.std.specs.Vec.{vec_capacity};
    ghost use Rattle.ws_tries.specs.declared.room.Try.{Try};

    ghost Value = { List Try };

    ghost view = { λ r. r.tries.items };

    ghost invariant = { λ r. vec_capacity r.tries ≡ 8 };
}

impl Room {
    /// A room without tries.
    pub(crate) fn new(alloc: Global) -> Result<Room, NoMemory>
        ensures { IfOk result (λ r. r ≡ []) }
    {
        Ok(Room {
            tries: Vec::with_capacity(alloc, MOST)?,
        })
    }

    /// Adds a try behind the others. It takes no memory.
    pub(crate) fn add(&mut self, made: Try)
        requires { length self.old < 8 }
        ensures { self.new ≡ self.old ++ made ∷ [] }
    {
        self.tries.push_reserved(made);
    }

    /// The tries, the oldest first.
    pub fn as_slice(&self) -> &[Try]
        ensures { result.now ≡ self.now }
    {
        &self.tries
    }
}
