// What happened, applied to the tables, kind by kind.
ghost use Rattle.std.specs.Prelude.{◌≡◌, OnOk, OnErr};
ghost use Rattle.ws_model.specs.declared.event.What.TheVariants.{Confirmed, Pushed};
ghost use Rattle.ws_core_tables.specs.Stands.{CanFollow, GoesOn};

use crate::Tables;
use ws_intent::Settle;
use ws_model::{Event, How, Mode, NoMemory, What};

impl Tables {
    /// Applies what happened. At an error the tables are as they were.
    pub fn apply(&mut self, event: &Event) -> Result<(), NoMemory>
        requires follows { CanFollow self.old event.now }
        ensures ok { OnOk result (GoesOn event.now self.old self.new) }
        ensures err { OnErr result (self.new ≡ self.old) }
    {
        match &event.what {
            What::Asked(intent) => self.asked(event, intent)?,
            What::Confirmed { n, sent } => self.confirmed(event, *n, *sent)?,
            What::Declined { n, .. } => self.settled(event, *n, Settle::Declined),
            What::Unheard { n } => self.settled(event, *n, Settle::Unheard),
            What::Barred { n, reason } => self.barred(event, *n, reason)?,
            What::Noticed { n, heard } => self.settled(event, *n, Settle::Noticed(*heard)),
            What::Pinged { topic } => self.pinged(event, topic)?,
            What::Fetched(version) => self.fetched(event, version)?,
            What::Same { topic, upto } => self.same(event, topic, *upto),
            What::Unfetched { topic, upto, why } => self.unfetched(event, topic, *upto, *why),
            What::Pushed { ver, lease, how } => self.pushed(event, *ver, *lease, *how),
            What::Tally(tally) => self.tallied(event, tally),
            What::Revoked { n, reason } => self.revoked(event, *n, reason)?,
        }
        Ok(())
    }

    /// A verification was confirmed.
    fn confirmed(&mut self, event: &Event, n: u64, sent: u64) -> Result<(), NoMemory>
        requires kind { event.now.what ≡ Confirmed n sent }
        requires follows { CanFollow self.old event.now }
        ensures ok { OnOk result (GoesOn event.now self.old self.new) }
        ensures err { OnErr result (self.new ≡ self.old) }
    {
        match self.waiting_mode(n) {
            Mode::On => self.subscribed(event, n, sent),
            Mode::Off => {
                self.unsubscribed(event, n, sent);
                Ok(())
            }
        }
    }

    /// A push ended. It takes no memory.
    pub fn pushed(&mut self, event: &Event, ver: u64, lease: u64, how: How)
        requires kind { event.now.what ≡ Pushed ver lease how }
        requires follows { CanFollow self.old event.now }
        ensures stands { GoesOn event.now self.old self.new }
    {
        match how {
            How::Done => self.pushed_done(event, ver, lease),
            How::Gone => self.pushed_gone(event, ver, lease),
            How::Missed(code) => self.pushed_missed(event, ver, lease, code),
        }
    }
}
