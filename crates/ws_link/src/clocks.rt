// What tells the time.
ghost use Rattle.std.specs.Prelude.{◌≡◌, ◌<◌, ◌-◌, ◌^◌, ◌∷◌, [], ℕ, List, Option};
ghost use Rattle.std.specs.Io.KnownBytes.{append_known};
ghost use Rattle.ws_link.specs.Links.{RoseByOne};

use std::time::SystemTime;

/// A source of times, in whole seconds.
pub trait Clock {
    /// The values that it gave, where it tells.
    ghost given: { Self → Option (List ℕ) };

    /// How often it was asked, up to 2^64 - 1.
    ghost draws: { Self → ℕ };

    /// The time now. A clock whose count of draws stands at its last value tells no more.
    fn now(&mut self) -> u64
        ensures told { draws self.new < 2 ^ 64 - 1 → given self.new ≡ append_known (given self.old) (result ∷ []) }
        ensures drawn { RoseByOne (draws self.old) (draws self.new) };
}

/// The clock of the system: seconds since the beginning of 1970, or 0 where the system gives no time.
///
/// That it gives the true time is trusted, and not proved.
#[derive(Drop)]
pub struct SystemClock {
    rt: HostRuntime,
    draws: u64,
}

impl SystemClock {
    ghost use Rattle.ws_link.specs.MemoryClocks.{system_draws};

    /// The system's clock, which wasn't asked yet.
    pub fn new(rt: HostRuntime) -> SystemClock
        ensures { system_draws result ≡ 0 }
    {
        SystemClock { rt, draws: 0 }
    }
}

impl Clock for SystemClock {
    ghost use Rattle.std.specs.Prelude.{None};
    ghost use Rattle.ws_link.specs.MemoryClocks.{system_draws};

    ghost given = { λ _. None };

    ghost draws = { system_draws };

    fn now(&mut self) -> u64 {
        self.draws = self.draws.saturating_add(1);
        match SystemTime::now(&self.rt) {
            Ok(time) => match time.duration_since(SystemTime::UNIX_EPOCH) {
                Ok(since) => since.as_secs(),
                Err(_) => 0,
            },
            Err(_) => 0,
        }
    }
}
