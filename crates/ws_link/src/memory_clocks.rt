// A clock in memory, for tests.
ghost use Rattle.std.specs.Prelude.{◌≡◌, IfOk, min, length, get_or, ◌-◌};
ghost use Rattle.ws_link.specs.Links.{RoseByOne};

use crate::Clock;
use std::alloc::Global;
use ws_model::NoMemory;

/// Times in memory, given one after another, and then the last one again; 0 where there is none.
#[derive(Drop)]
pub struct MemClock {
    times: Vec<u64>,
    draws: u64,
}

impl MemClock {
    ghost use Rattle.ws_link.specs.MemoryClocks.{clock_times, clock_draws, clock_given, time_at};

    /// Gives these times in order.
    pub fn made(alloc: Global, times: &[u64]) -> Result<MemClock, NoMemory>
        ensures times { IfOk result (λ clock. clock_times clock ≡ times.now) }
        ensures draws { IfOk result (λ clock. clock_draws clock ≡ 0) }
    {
        Ok(MemClock {
            times: times.to_vec(alloc)?,
            draws: 0,
        })
    }

    fn time(&self) -> u64
        ensures { result ≡ time_at (clock_times self.now) (clock_draws self.now) }
    {
        let last = self.times.len().saturating_sub(1);
        match self.times.get(last.min(self.draws as usize)) {
            Some(time) => *time,
            None => 0,
        }
    }
}

impl Clock for MemClock {
    ghost use Rattle.std.specs.Prelude.{Some, ◌<◌, ◌^◌, ◌∷◌, []};
    ghost use Rattle.std.specs.Io.KnownBytes.{append_known};
    ghost use Rattle.ws_link.specs.MemoryClocks.{clock_times, clock_draws, clock_given, time_at};

    ghost given = { λ clock. Some (clock_given clock) };

    ghost draws = { clock_draws };

    fn now(&mut self) -> u64
        ensures told { clock_draws self.new < 2 ^ 64 - 1 → Some (clock_given self.new) ≡ append_known (Some (clock_given self.old)) (result ∷ []) }
        ensures drawn { RoseByOne (clock_draws self.old) (clock_draws self.new) }
        ensures value { result ≡ time_at (clock_times self.old) (clock_draws self.old) }
        ensures times { clock_times self.new ≡ clock_times self.old }
    {
        let time = self.time();
        self.draws = self.draws.saturating_add(1);
        time
    }
}
