// What the table has of one pair.
ghost use Rattle.std.specs.Prelude.{◌≡◌, ◌<◌, ◌^◌};
ghost use Rattle.ws_delivery.specs.Table.{fate_at, fresh, missed};

use ws_model::{Cause, Fate, delay};

/// A version that is owed to a lease: the pushes that were missed, the time of the next try, and the
/// end of the lease, both in seconds.
#[derive(Clone, Copy, Debug, PartialEq, Eq)]
pub struct OpenPair {
    pub tries: u8,
    pub next: u64,
    pub exp: u64,
}

impl OpenPair {
    /// A pair that is born at `t`: its first try is due at once.
    pub fn fresh(exp: u64, t: u64) -> OpenPair
        ensures { result ≡ fresh exp t }
    {
        OpenPair {
            tries: 0,
            next: t,
            exp,
        }
    }

    /// The pair after one more miss, at `t`: it waits longer each time (own).
    pub fn missed(&self, t: u64) -> OpenPair
        requires few { self.now.tries < 7 }
        requires in_time { t < 2 ^ 48 }
        ensures { result ≡ missed t self.now }
    {
        let tries = self.tries + 1;
        OpenPair {
            tries,
            next: t + delay(tries),
            exp: self.exp,
        }
    }

    /// How the pair stands at `t`: owed, or ended with its lease, which has expired.
    pub fn fate(&self, t: u64) -> Fate
        ensures { result ≡ fate_at t self.now }
    {
        if t < self.exp {
            Fate::Owed {
                tries: self.tries,
                next: self.next,
            }
        } else {
            Fate::Ended(Cause::Expired)
        }
    }
}
