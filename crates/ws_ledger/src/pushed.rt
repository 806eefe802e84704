// What happened, applied to the ledger: pushes that ended. It takes no memory.
ghost use Rattle.std.specs.Prelude.{◌≡◌};
ghost use Rattle.ws_model.specs.declared.event.How.TheVariants.{Done, Gone, Missed};
ghost use Rattle.ws_model.specs.declared.event.What.TheVariants.{Pushed};
ghost use Rattle.ws_ledger.specs.Spent.{is_last};
ghost use Rattle.ws_ledger.specs.Stands.{CanFollow, GoesOn};

use crate::Ledger;
use crate::ends::end_open;
use ws_fate::Standing;
use ws_model::{Cause, Event, Fate, How, What};

impl Ledger {
    /// Applies the end of a push at `t`, in seconds, which the ledger accepts as the next event. It takes no
    /// memory.
    pub fn apply_pushed(&mut self, serial: u64, t: u64, ver: u64, lease: u64, how: How)
        requires follows { CanFollow self.old (record { serial = serial; t = t; what = Pushed ver lease how }) }
        ensures stands { GoesOn (record { serial = serial; t = t; what = Pushed ver lease how }) self.old self.new }
    {
        let event = Event {
            serial,
            t,
            what: What::Pushed { ver, lease, how },
        };
        self.pushed(&event, ver, lease, how);
    }

    /// Applies an event that ends a push.
    pub(crate) fn pushed(&mut self, event: &Event, ver: u64, lease: u64, how: How)
        requires kind { event.now.what ≡ Pushed ver lease how }
        requires follows { CanFollow self.old event.now }
        ensures stands { GoesOn event.now self.old self.new }
    {
        match how {
            How::Done => self.answered(event, ver, lease),
            How::Gone => self.gone(event, ver, lease),
            How::Missed(code) => self.missed(event, ver, lease, code),
        }
    }

    /// A push was answered.
    fn answered(&mut self, event: &Event, ver: u64, lease: u64)
        requires kind { event.now.what ≡ Pushed ver lease Done }
        requires follows { CanFollow self.old event.now }
        ensures stands { GoesOn event.now self.old self.new }
    {
        self.tables.pushed(event, ver, lease, How::Done);
        self.end_all(&[(ver, lease)], Standing::Answered);
    }

    /// A push was missed, for the eighth time or not.
    fn missed(&mut self, event: &Event, ver: u64, lease: u64, code: u16)
        requires kind { event.now.what ≡ Pushed ver lease (Missed code) }
        requires follows { CanFollow self.old event.now }
        ensures stands { GoesOn event.now self.old self.new }
    {
        let last = is_last(self.tables.open_fate(ver, lease, event.t));
        self.tables.pushed(event, ver, lease, How::Missed(code));
        if last {
            self.end_all(&[(ver, lease)], Standing::Ended(Cause::Spent));
        }
    }

    /// A push was answered 410 (WebSub section 7), which ends all that is owed to the lease.
    fn gone(&mut self, event: &Event, ver: u64, lease: u64)
        requires kind { event.now.what ≡ Pushed ver lease Gone }
        requires follows { CanFollow self.old event.now }
        ensures stands { GoesOn event.now self.old self.new }
    {
        end_open(
            &mut self.fates,
            &mut self.open_pairs,
            self.tables.open_of(lease),
            lease,
            Standing::Ended(Cause::Gone),
        );
        self.tables.pushed(event, ver, lease, How::Gone);
    }
}

/// Whether the next miss of a pair is its eighth.
fn is_last(fate: Option<Fate>) -> bool
    ensures { result ≡ is_last fate }
{
    match fate {
        Some(Fate::Owed { tries, .. }) => tries >= 7,
        _ => false,
    }
}
