// What happened, applied to the tables: the kinds that one table alone keeps.
ghost use Rattle.std.specs.Prelude.{◌≡◌, OnOk, OnErr, true};
ghost use Rattle.ws_model.specs.declared.event.What.TheVariants.{Asked, Barred, Pinged, Same, Unfetched, Tally as TallyOf};
ghost use Rattle.ws_intent.specs.Stands.{IsSettling};
ghost use Rattle.ws_core_tables.specs.Committing.{with_asked, with_pinged};
ghost use Rattle.ws_core_tables.specs.Stands.{CanFollow, GoesOn, is_of_intents};

use crate::Tables;
use ws_intent::Settle;
use ws_model::{Bytes, Event, Intent, Key, NoMemory, Tally};

impl Tables {
    /// A request was accepted.
    pub(crate) fn asked(&mut self, event: &Event, intent: &Intent) -> Result<(), NoMemory>
        requires kind { event.now.what ≡ Asked intent.now }
        requires follows { CanFollow self.old event.now }
        ensures ok { OnOk result (GoesOn event.now self.old self.new) }
        ensures rows { OnOk result (self.new ≡ with_asked event.now intent.now self.old) }
        ensures err { OnErr result (self.new ≡ self.old) }
    {
        self.intents.asked(intent.copy(self.alloc)?)?;
        self.numbers = self.numbers.after(event);
        Ok(())
    }

    /// An intent isn't allowed.
    pub(crate) fn barred(&mut self, event: &Event, n: u64, reason: &Bytes) -> Result<(), NoMemory>
        requires kind { event.now.what ≡ Barred n reason.now }
        ensures ok { OnOk result (GoesOn event.now self.old self.new) }
        ensures err { OnErr result (self.new ≡ self.old) }
    {
        let reason = Bytes::copy(self.alloc, reason.as_slice())?;
        self.intents.barred(n, reason)?;
        self.numbers = self.numbers.after(event);
        Ok(())
    }

    /// A verification was declined or not heard, or a notice ended. It takes no memory.
    pub(crate) fn settled(&mut self, event: &Event, n: u64, how: Settle)
        requires kind { IsSettling n how event.now.what }
        requires alone { is_of_intents event.now.what ≡ true }
        ensures stands { GoesOn event.now self.old self.new }
    {
        let _ = self.intents.settle(n, how);
        self.numbers = self.numbers.after(event);
    }

    /// A publisher said that the topic has changed.
    pub(crate) fn pinged(&mut self, event: &Event, topic: &Key) -> Result<(), NoMemory>
        requires kind { event.now.what ≡ Pinged topic.now }
        ensures ok { OnOk result (GoesOn event.now self.old self.new) }
        ensures rows { OnOk result (self.new ≡ with_pinged event.now topic.now self.old) }
        ensures err { OnErr result (self.new ≡ self.old) }
    {
        self.topics.pinged(topic.as_slice(), event.serial)?;
        self.numbers = self.numbers.after(event);
        Ok(())
    }

    /// A fetch gave the latest version again. It takes no memory.
    pub(crate) fn same(&mut self, event: &Event, topic: &Key, upto: u64)
        requires kind { event.now.what ≡ Same topic.now upto }
        ensures stands { GoesOn event.now self.old self.new }
    {
        self.topics.same(topic.as_slice(), upto);
        self.numbers = self.numbers.after(event);
    }

    /// A fetch gave no version. It takes no memory.
    pub(crate) fn unfetched(&mut self, event: &Event, topic: &Key, upto: u64, _why: u16)
        requires kind { event.now.what ≡ Unfetched topic.now upto _why }
        ensures stands { GoesOn event.now self.old self.new }
    {
        self.topics.unfetched(topic.as_slice(), upto);
        self.numbers = self.numbers.after(event);
    }

    /// The head of a compacted history.
    pub(crate) fn tallied(&mut self, event: &Event, _tally: &Tally)
        requires kind { event.now.what ≡ TallyOf _tally.now }
        ensures stands { GoesOn event.now self.old self.new }
    {
        self.numbers = self.numbers.after(event);
    }
}
