// A struct that carries its past, with a fact on it, is read and changed by proved code alone.
ghost use Rattle.std.specs.Prelude.{◌≡◌, [], ◌∷◌, length, true, false};
ghost use Rattle.ws_port.specs.Calls.{committed};

use super::*;
use std::slice;
use std::test::Fail;
use ws_model::{How, What};

#[derive(Drop)]
struct Counted {
    count: u64,
    past: Past,
    ghost counted: { count ≡ length past.events },
}

impl Counted {
    fn none() -> Counted
        ensures { result.past.events ≡ [] }
    {
        Counted {
            count: 0,
            past: Past::none(),
        }
    }

    fn count(&self) -> u64
        ensures { result ≡ length self.now.past.events }
    {
        self.count
    }

    fn add(&mut self, t: u64, what: &What) -> bool
        ensures added { result ≡ true → self.new.past.events ≡ committed t (what.now ∷ []) self.old.past.events }
        ensures kept { result ≡ false → self.new.past.events ≡ self.old.past.events }
    {
        let Some(count) = self.count.checked_add(1) else {
            return false;
        };
        self.past = self.past.with(t, slice::from_ref(what));
        self.count = count;
        true
    }
}

// The past goes on from where it was, through two borrows.
fn add_both(counted: &mut Counted, t: u64, first: &What, second: &What) -> bool
    ensures { result ≡ true → counted.new.past.events ≡ committed t (first.now ∷ second.now ∷ []) counted.old.past.events }
{
    counted.add(t, first) && counted.add(t, second)
}

fn may_go_to_a_thread<T: Send + Drop>(_value: T) {}

#[test]
fn counts_what_happened(rt: HostRuntime) -> Result<(), Fail> {
    let mut counted = Counted::none();
    assert_eq!(rt; counted.count(), 0);
    assert!(rt; counted.add(7, &What::Unheard { n: 1 }));
    assert_eq!(rt; counted.count(), 1);
    let pushed = What::Pushed {
        ver: 1,
        lease: 2,
        how: How::Done,
    };
    assert!(rt; add_both(&mut counted, 9, &What::Unheard { n: 1 }, &pushed));
    assert_eq!(rt; counted.count(), 3);
    may_go_to_a_thread(counted);
    Ok(())
}
