// Bytes, keys, and pairs of a name and a value. Contracts see them as plain lists.
ghost use Rattle.std.specs.Prelude.{◌≡◌, [], ◌∷◌, ◌++◌, List, ℕ, IfOk, OnOk, OnErr};

use std::alloc::{AllocError, AllocFailed, Global};
use std::marker::Model;

/// There was no memory.
#[derive(Clone, Copy, Debug, PartialEq, Eq, thiserror::Error)]
#[error("no memory")]
pub struct NoMemory;

impl From<AllocError> for NoMemory {
    fn from(_: AllocError) -> Self {
        NoMemory
    }
}

impl<T: Drop> From<AllocFailed<T>> for NoMemory {
    fn from(_: AllocFailed<T>) -> Self {
        NoMemory
    }
}

/// Bytes of one's own. A contract sees them as a list.
#[derive(Debug, Drop)]
pub struct Bytes {
    content: Vec<u8>,
}

impl Model for Bytes {
    ghost use Rattle.std.specs.Prelude.{List, ℕ};

    ghost Value = { List ℕ };

    ghost view = { λ b. b.content.items };
}

/// A topic or a callback: the serialization of its URL.
pub type Key = Bytes;

impl Bytes {
    /// A copy of the bytes.
    pub fn copy(alloc: Global, from: &[u8]) -> Result<Bytes, NoMemory>
        ensures { IfOk result (λ b. b ≡ from.now) }
    {
        Ok(Bytes {
            content: from.to_vec(alloc)?,
        })
    }

    /// Takes over the bytes of a vector. It takes no memory.
    pub fn from_vec(content: Vec<u8>) -> Bytes
        ensures { result ≡ content.items }
    {
        Bytes { content }
    }

    /// Gives the vector back. It takes no memory.
    pub fn into_vec(self) -> Vec<u8>
        ensures { result.items ≡ self }
    {
        let Bytes { content } = self;
        content
    }

    /// The bytes as a slice.
    pub fn as_slice(&self) -> &[u8]
        ensures { result.now ≡ self.now }
    {
        &self.content
    }
}

impl PartialEq for Bytes {
    ghost use Rattle.std.specs.Str.{bytes_eq};
    ghost use Rattle.ws_model.specs.Equality.{bytes_laws};

    ghost eq = { bytes_eq };

    ghost laws = { bytes_laws };

    fn eq(&self, other: &Bytes) -> bool {
        self.content == other.content
    }
}

/// A name and a value, as a form or a message has them.
#[derive(Debug, Drop)]
pub struct Pair {
    pub name: Bytes,
    pub value: Bytes,
}

/// A list of keys. A contract sees it as a list of lists.
#[derive(Debug, Drop)]
pub struct Keys {
    list: Vec<Key>,
}

impl Model for Keys {
    ghost use Rattle.std.specs.Prelude.{List, ℕ};

    ghost Value = { List (List ℕ) };

    ghost view = { λ k. k.list.items };
}

impl Keys {
    /// No keys. It takes no memory.
    pub fn empty(alloc: Global) -> Keys
        ensures { result ≡ [] }
    {
        Keys {
            list: Vec::new(alloc),
        }
    }

    /// Adds a key at the end. At an error the list is as it was.
    pub fn push(&mut self, key: Key) -> Result<(), NoMemory>
        ensures ok { OnOk result (self.new ≡ self.old ++ key ∷ []) }
        ensures err { OnErr result (self.new ≡ self.old) }
    {
        self.list.push(key)?;
        Ok(())
    }

    /// The keys as a slice.
    pub fn as_slice(&self) -> &[Key]
        ensures { result.now ≡ self.now }
    {
        &self.list
    }
}
