// Which of two devices counts.
ghost use Rattle.std.specs.Prelude.{◌≡◌, ℕ, List, Err};
ghost use Rattle.ws_journal.specs.Image.{IsDevice};
ghost use Rattle.ws_journal.specs.Device.{IsHead};
ghost use Rattle.ws_journal.specs.Recovered.{Chooses};

use crate::head::Head;
use crate::store::{Edition, OpenFault, Side};

/// The device that counts.
#[derive(Clone, Copy)]
pub(crate) struct Counting {
    pub(crate) side: Side,
    pub(crate) edition: Edition,
    pub(crate) generation: u64,
}

/// Which of two devices counts, by their heads: the one with the greater generation. None where neither is
/// used.
pub(crate) fn choose(a: Head, b: Head) -> Result<Option<Counting>, OpenFault>
    ensures chooses { (first second : List ℕ) → IsHead first a → IsHead second b → Chooses first second result }
    ensures no_disk { result ≡ Err OpenFault.Disk → ⊥ }
{
    match a {
        Head::Foreign { at } => Err(OpenFault::Foreign { at }),
        Head::Unused => match b {
            Head::Foreign { at } => Err(OpenFault::Foreign { at }),
            Head::Unused => Ok(None),
            Head::Used {
                edition,
                generation,
            } => Ok(Some(counts(Side::B, edition, generation))),
        },
        Head::Used {
            edition,
            generation,
        } => beside(edition, generation, b),
    }
}

/// Which device counts, where `a` is used with this edition and generation.
fn beside(edition: Edition, generation: u64, b: Head) -> Result<Option<Counting>, OpenFault>
    ensures chooses { (first second rest : List ℕ) → IsDevice edition generation rest first → IsHead second b → Chooses first second result }
    ensures no_disk { result ≡ Err OpenFault.Disk → ⊥ }
{
    match b {
        Head::Foreign { at } => Err(OpenFault::Foreign { at }),
        Head::Unused => Ok(Some(counts(Side::A, edition, generation))),
        Head::Used {
            edition: other,
            generation: number,
        } => {
            if generation == number {
                Err(OpenFault::Foreign { at: 9 })
            } else if generation > number {
                Ok(Some(counts(Side::A, edition, generation)))
            } else {
                Ok(Some(counts(Side::B, other, number)))
            }
        }
    }
}

fn counts(side: Side, edition: Edition, generation: u64) -> Counting
    ensures { result ≡ record { side = side; edition = edition; generation = generation } }
{
    Counting {
        side,
        edition,
        generation,
    }
}
