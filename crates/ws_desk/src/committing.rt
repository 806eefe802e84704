// What happens, added to the desk's history.
ghost use Rattle.std.specs.Prelude.{◌≡◌, ◌≤◌, ◌<◌, ◌^◌, ◌∷◌, [], ℕ, suc, List, IfOk, OnOk, OnErr, true};
ghost use Rattle.ws_model.specs.declared.event.Event.{Event};
ghost use Rattle.ws_model.specs.Moment.{serial};
ghost use Rattle.ws_core.specs.Committing.{are_quiet};
ghost use Rattle.ws_commit.specs.Laws.{MayCommit};
ghost use Rattle.ws_desk.specs.Commits.{Commits, Keeps, Tells, is_new};
ghost use Rattle.ws_desk.specs.Seen.{Seen, moment_of, past_of, settings_of};

use crate::Desk;
use std::slice;
use ws_model::{Event, NoMemory, What};
use ws_port::Told;

impl Desk {
    /// Uses a hub time.
    pub(crate) fn pass_to(&mut self, t: u64)
        requires later { moment_of self.old ≤ t }
        requires bounded { t < 2 ^ 48 }
        ensures keeps { Keeps self.old self.new }
        ensures time { moment_of self.new ≡ t }
        ensures settings { settings_of self.new ≡ settings_of self.old }
    {
        self.used = t;
    }

    /// Adds what a request makes at a hub time, all of it or nothing. At an error the desk is as it was.
    pub(crate) fn commit(&mut self, t: u64, whats: Vec<What>) -> Result<Told, NoMemory>
        requires later { moment_of self.old ≤ t }
        requires bounded { t < 2 ^ 48 }
        requires quiet { are_quiet whats.items ≡ true }
        requires may { MayCommit (past_of self.old) t whats.items }
        ensures ok { OnOk result (Commits t whats.items self.old self.new) }
        ensures told { IfOk result (Tells whats.items self.old) }
        ensures time { OnOk result (moment_of self.new ≡ t) }
        ensures settings { settings_of self.new ≡ settings_of self.old }
        ensures err { OnErr result (self.new ≡ self.old) }
    {
        let events = whats.len();
        let Some(count) = self.count.checked_add(events as u64) else {
            return Err(NoMemory);
        };
        let past = self.past.with(t, &whats);
        self.core.commit(t, whats)?;
        self.used = t;
        self.count = count;
        self.past = past;
        Ok(Told {
            at: count,
            events: events as u32,
        })
    }

    /// Adds one event, whose time is a hub time, and whose serial is the next one. At an error the desk is as
    /// it was.
    pub(crate) fn add(&mut self, event: &Event) -> Result<Told, NoMemory>
        requires later { moment_of self.old ≤ event.now.t }
        requires bounded { event.now.t < 2 ^ 48 }
        requires new { is_new event.now.what ≡ true }
        requires next { (h : List Event) → Seen self.old h → event.now.serial ≡ suc (serial h) }
        requires may { MayCommit (past_of self.old) event.now.t (event.now.what ∷ []) }
        ensures ok { OnOk result (Commits event.now.t (event.now.what ∷ []) self.old self.new) }
        ensures told { IfOk result (Tells (event.now.what ∷ []) self.old) }
        ensures time { OnOk result (moment_of self.new ≡ event.now.t) }
        ensures settings { settings_of self.new ≡ settings_of self.old }
        ensures err { OnErr result (self.new ≡ self.old) }
    {
        let Some(count) = self.count.checked_add(1) else {
            return Err(NoMemory);
        };
        let past = self.past.with(event.t, slice::from_ref(&event.what));
        self.core.apply(event)?;
        self.used = event.t;
        self.count = count;
        self.past = past;
        Ok(Told {
            at: count,
            events: 1,
        })
    }
}
