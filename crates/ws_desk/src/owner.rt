// The owner of the core.
ghost use Rattle.std.specs.Prelude.{◌<◌, ◌^◌};
ghost use Rattle.ws_desk.specs.Holds.{Holds};
ghost use Rattle.ws_desk.specs.Once.{holds_prop};

use std::alloc::Global;
use ws_core::Core;
use ws_model::Settings;
use ws_past::Past;

/// The owner of a hub's core: nobody else uses the hub. It keeps no journal and gives no tickets.
#[derive(Drop)]
pub struct Desk {
    pub(crate) core: Core,
    pub(crate) settings: Settings,
    /// The last hub time that was used, in seconds.
    pub(crate) used: u64,
    /// How many events there are.
    pub(crate) count: u64,
    pub(crate) past: Past,
    ghost bounded: { used < 2 ^ 48 },
    ghost held: { Holds core used count past.events } by { holds_prop core used count past.events },
}

impl Desk {
    ghost use Rattle.std.specs.Prelude.{◌≡◌, [], ◌≤◌};
    ghost use Rattle.ws_desk.specs.Commits.{hub_time};
    ghost use Rattle.ws_desk.specs.Seen.{Seen, moment_of, settings_of};

    /// A desk to which nothing has happened, at the hub time 0. It takes no memory.
    pub fn start(alloc: Global, settings: Settings) -> Desk
        ensures seen { Seen result [] }
        ensures time { moment_of result ≡ 0 }
        ensures settings { settings_of result ≡ settings }
    {
        Desk {
            core: Core::empty(alloc),
            settings,
            used: 0,
            count: 0,
            past: Past::none(),
        }
    }

    /// The last hub time that was used, in seconds.
    pub fn time(&self) -> u64
        ensures { result ≡ moment_of self.now }
    {
        self.used
    }

    /// The hub time of a call at the clock's value `now`.
    pub(crate) fn hub_time(&self, now: u64) -> u64
        ensures value { result ≡ hub_time now (moment_of self.now) }
        ensures later { moment_of self.now ≤ result }
        ensures bounded { result < 2 ^ 48 }
    {
        now.min(LAST_MOMENT).max(self.used)
    }
}

/// The greatest hub time, in seconds.
const LAST_MOMENT: u64 = 281_474_976_710_655;
