// What one request makes, applied to the core together or not at all.
ghost use Rattle.std.specs.Prelude.{◌≡◌, ◌≤◌, ◌++◌, OnOk, OnErr, map, true};
ghost use Rattle.std.specs.Vec.{vec_len};
ghost use Rattle.ws_core_tables.specs.Committing.{GoTogether};
ghost use Rattle.ws_kept.specs.Stands.{light_event};
ghost use Rattle.ws_core.specs.Committing.{AllGoOn, CanHappen, are_quiet};
ghost use Rattle.ws_sweep.specs.Rows.{members};

use crate::Core;
use std::alloc::Global;
use ws_copies::lightened;
use ws_model::{Event, NoMemory, What};
use ws_sweep::Sweep;

impl Core {
    /// Applies what happens at `t`, in seconds, in its order, each under the next serial: all of it, or
    /// nothing. It is what a request makes: an intent, with its denial or without, or pings. At an error the
    /// core is as it was.
    pub fn commit(&mut self, t: u64, whats: Vec<What>) -> Result<(), NoMemory>
        requires quiet { are_quiet whats.items ≡ true }
        requires together { GoTogether whats.items }
        requires follow { CanHappen self.old t whats.items }
        ensures ok { OnOk result (AllGoOn t whats.items self.old self.new) }
        ensures err { OnErr result (self.new ≡ self.old) }
    {
        let added = whats.len();
        self.log.reserve(added)?;
        let events = self.ledger.commit(t, whats)?;
        add_all_reserved(self.alloc, &mut self.log, events);
        self.sweep(t, added);
        Ok(())
    }
}

/// Adds events behind the others, without the texts of what was asked for. It takes no memory.
fn add_all_reserved(alloc: Global, log: &mut Sweep<Event>, events: Vec<Event>)
    requires { vec_len events ≤ log.old.room }
    ensures { members log.new ≡ members log.old ++ map light_event events.items }
{
    for event in events {
        log.push_reserved(lightened(alloc, event));
    }
}
