// What one request makes, applied together or not at all.
ghost use Rattle.std.specs.Prelude.{◌≡◌, ◌≤◌, ℕ, List, true, map, IfOk, OnOk, OnErr};
ghost use Rattle.ws_model.specs.declared.event.Event.{Event};
ghost use Rattle.ws_model.specs.declared.event.What.TheVariants.{Asked, Pinged};
ghost use Rattle.ws_model.specs.Legal.{Legal};
ghost use Rattle.ws_core_tables.specs.Committing.{AllGoOn, CanAllFollow, CanHappen, GoTogether, can_be_undone, committed, numbered, taken_back};
ghost use Rattle.ws_core_tables.specs.Stands.{CanFollow, GoesOn, StandsFor};

use crate::{Numbers, Tables};
use ws_intent::Settle;
use ws_model::{Event, Intent, Key, NoMemory, What};
use ws_topic::LastPing;

/// What stood before a request or a ping, to be put back: the numbers, and the latest ping of a pinged
/// topic.
#[derive(Clone, Copy)]
pub(crate) struct Before {
    pub(crate) numbers: Numbers,
    pub(crate) ping: Option<LastPing>,
}

impl Tables {
    /// Applies what happens at `t` in its order, all of it or nothing, and gives its events, each under the
    /// next serial. At an error the tables are as they were.
    pub fn commit(&mut self, t: u64, whats: Vec<What>) -> Result<Vec<Event>, NoMemory>
        requires follow { CanHappen self.old t whats.items }
        requires together { GoTogether whats.items }
        ensures ok { OnOk result ((h : List Event) (since : ℕ) → StandsFor h since self.old → Legal (committed t whats.items h) → since ≤ t → StandsFor (committed t whats.items h) t self.new) }
        ensures events { (h : List Event) (since : ℕ) → StandsFor h since self.old → IfOk result (λ v. v.items ≡ numbered t whats.items h) }
        ensures err { OnErr result (self.new ≡ self.old) }
    {
        let events = self.numbered(t, whats)?;
        self.apply_all(&events)?;
        Ok(events)
    }

    /// The events of what happens at `t` in its order, each under the next serial.
    pub fn numbered(&self, t: u64, whats: Vec<What>) -> Result<Vec<Event>, NoMemory>
        requires follow { CanHappen self.now t whats.items }
        ensures events { (h : List Event) (since : ℕ) → StandsFor h since self.now → IfOk result (λ v. v.items ≡ numbered t whats.items h) }
    {
        let mut events = Vec::new(self.alloc);
        let mut numbers = self.numbers;
        for what in whats {
            let event = Event {
                serial: numbers.all.serial + 1,
                t,
                what,
            };
            numbers = numbers.after(&event);
            events.push(event)?;
        }
        Ok(events)
    }

    /// Applies events, oldest first, all of them or none. At an error the tables are as they were.
    pub fn apply_all(&mut self, events: &[Event]) -> Result<(), NoMemory>
        requires follow { CanAllFollow self.old events.now }
        requires together { GoTogether (map (λ e. e.what) events.now) }
        ensures ok { OnOk result (AllGoOn events.now self.old self.new) }
        ensures err { OnErr result (self.new ≡ self.old) }
    {
        let Some((first, rest)) = events.split_first() else {
            return Ok(());
        };
        if rest.is_empty() {
            return self.apply(first);
        }
        let before = self.begin(first)?;
        match self.apply_all(rest) {
            Ok(()) => Ok(()),
            Err(fault) => {
                self.take_back(first, before);
                Err(fault)
            }
        }
    }

    /// Applies a request or a ping, and gives what stood before it.
    fn begin(&mut self, event: &Event) -> Result<Before, NoMemory>
        requires undone { can_be_undone event.now.what ≡ true }
        requires follows { CanFollow self.old event.now }
        ensures ok { OnOk result (GoesOn event.now self.old self.new) }
        ensures undone { IfOk result (λ before. taken_back event.now.what before self.new ≡ self.old) }
        ensures err { OnErr result (self.new ≡ self.old) }
    {
        match &event.what {
            What::Asked(intent) => self.begin_asked(event, intent),
            What::Pinged { topic } => self.begin_pinged(event, topic),
            _ => unreachable!(),
        }
    }

    fn begin_asked(&mut self, event: &Event, intent: &Intent) -> Result<Before, NoMemory>
        requires kind { event.now.what ≡ Asked intent.now }
        requires follows { CanFollow self.old event.now }
        ensures ok { OnOk result (GoesOn event.now self.old self.new) }
        ensures undone { IfOk result (λ before. taken_back (Asked intent.now) before self.new ≡ self.old) }
        ensures err { OnErr result (self.new ≡ self.old) }
    {
        let before = Before {
            numbers: self.numbers,
            ping: None,
        };
        self.asked(event, intent)?;
        Ok(before)
    }

    fn begin_pinged(&mut self, event: &Event, topic: &Key) -> Result<Before, NoMemory>
        requires kind { event.now.what ≡ Pinged topic.now }
        ensures ok { OnOk result (GoesOn event.now self.old self.new) }
        ensures undone { IfOk result (λ before. taken_back (Pinged topic.now) before self.new ≡ self.old) }
        ensures err { OnErr result (self.new ≡ self.old) }
    {
        let before = Before {
            numbers: self.numbers,
            ping: self.topics.last_ping(topic.as_slice()),
        };
        self.pinged(event, topic)?;
        Ok(before)
    }

    /// Takes a request or a ping back. It takes no memory.
    fn take_back(&mut self, event: &Event, before: Before)
        ensures { self.new ≡ taken_back event.now.what before self.old }
    {
        match &event.what {
            What::Asked(intent) => {
                let _ = self.intents.settle(intent.n, Settle::Declined);
            }
            What::Pinged { topic } => self.topics.restore(topic.as_slice(), before.ping),
            _ => (),
        }
        self.numbers = before.numbers;
    }
}
