// The first numbers of the topics and callbacks in their order, of which one gives way to another without
// memory: the next one takes the room of the one that leaves.
ghost use Rattle.std.specs.Prelude.{◌≡◌, ℕ, ◌||◌, ◌&&◌, not, ◌==◌, cond, false, true, IfOk, IsSome, is_none, is_some, find, nat_lt};
ghost use Rattle.ws_model.specs.declared.work.Work.TheVariants.{Verify};
ghost use Rattle.ws_model.specs.Due.{is_out, place, same_work};
ghost use Rattle.ws_intent.specs.Rising.{IsRising, has_number, is_it};

use std::alloc::Global;
use ws_model::{Held, NoMemory, Work};
use ws_order::{Order, Room, Sought};

pub type Firsts = Order<u64>;

/// Room for a number, where there is no earlier one.
pub fn room_for(alloc: Global, earlier: Option<u64>) -> Result<Option<Room<u64>>, NoMemory>
    ensures { IfOk result (λ room. is_some room ≡ is_none earlier) }
{
    match earlier {
        Some(_) => Ok(None),
        None => Ok(Some(Room::new(alloc)?)),
    }
}

/// Puts `n` in, where there is room for it.
pub fn enter(numbers: &mut Firsts, n: u64, room: Option<Room<u64>>)
    requires new { has_number numbers.old n ≡ false }
    ensures { numbers.new ≡ cond (is_some room) (place nat_lt n numbers.old) numbers.old }
{
    if let Some(room) = room {
        numbers.put(n, room);
    }
}

/// Takes `n` out, and where it was there puts `next` in.
pub fn give_way(numbers: &mut Firsts, n: u64, next: Option<u64>)
    requires rising { IsRising numbers.old }
    ensures rising { IsRising numbers.new }
    ensures numbers { (q : ℕ) → has_number numbers.new q ≡ cond (has_number numbers.old n) (is_it next q || (not (n == q) && has_number numbers.old q)) (has_number numbers.old q) }
{
    if let Some(room) = numbers.take(&n) {
        if let Some(m) = next {
            put_in(numbers, m, room);
        }
    }
}

fn put_in(numbers: &mut Firsts, m: u64, room: Room<u64>)
    requires rising { IsRising numbers.old }
    ensures rising { IsRising numbers.new }
    ensures numbers { (q : ℕ) → has_number numbers.new q ≡ ((m == q) || has_number numbers.old q) }
{
    if !numbers.contains(&m) {
        numbers.put(m, room);
    }
}

/// The first number whose verification isn't held.
pub fn first_free(numbers: &Firsts, held: &Held) -> Option<u64>
    ensures { result ≡ find (λ n. not (is_out held.now (Verify n))) numbers.now }
{
    numbers.first(&Free { held })
}

// A number whose verification isn't held.
#[derive(Drop)]
struct Free<'a> {
    held: &'a Held,
}

impl Sought<u64> for Free<'_> {
    ghost wanted = { λ s n. not (is_out s.held.now (Verify n)) };

    ghost past = { λ s n. false };

    fn is_wanted(&self, n: &u64) -> bool {
        !is_held(self.held.as_slice(), *n)
    }

    fn is_past(&self, _: &u64) -> bool {
        false
    }
}

fn is_held(held: &[Work], n: u64) -> bool
    ensures { result ≡ is_out held.now (Verify n) }
{
    held.iter().any(|work| is_verify(work, n))
}

fn is_verify(work: &Work, n: u64) -> bool
    ensures { result ≡ same_work (Verify n) work.now }
{
    match work {
        Work::Verify { n: other } => n == *other,
        _ => false,
    }
}
