// What happened, applied to the ledger: the kinds that make and end no pair.
ghost use Rattle.std.specs.Prelude.{◌≡◌, OnOk, OnErr, true};
ghost use Rattle.ws_model.specs.declared.event.What.TheVariants.{Tally as TallyOf};
ghost use Rattle.ws_fate.specs.Stands.{is_quiet};
ghost use Rattle.ws_ledger.specs.Stands.{CanFollow, GoesOn};

use crate::Ledger;
use ws_fate::Fates;
use ws_model::{Event, NoMemory, Tally};

impl Ledger {
    /// Applies what happened, where it confirms nothing, gives no version, ends no push, revokes nothing
    /// and is no Tally. At an error the ledger is as it was.
    pub(crate) fn quiet(&mut self, event: &Event) -> Result<(), NoMemory>
        requires quiet { is_quiet event.now.what ≡ true }
        requires follows { CanFollow self.old event.now }
        ensures ok { OnOk result (GoesOn event.now self.old self.new) }
        ensures err { OnErr result (self.new ≡ self.old) }
    {
        self.tables.apply(event)?;
        Ok(())
    }

    /// The head of a compacted history: the pairs that were forgotten count from now on.
    pub(crate) fn tallied(&mut self, event: &Event, tally: &Tally) -> Result<(), NoMemory>
        requires kind { event.now.what ≡ TallyOf tally.now }
        requires follows { CanFollow self.old event.now }
        ensures ok { OnOk result (GoesOn event.now self.old self.new) }
        ensures err { OnErr result (self.new ≡ self.old) }
    {
        self.tables.apply(event)?;
        self.fates = Fates::of_tally(self.alloc, tally);
        self.open_pairs = 0;
        Ok(())
    }
}
