// The tables, and what became of each pair.
ghost use Rattle.std.specs.Prelude.{◌≡◌, []};
ghost use Rattle.ws_ledger.specs.Follows.{HasHistory};
ghost use Rattle.ws_ledger.specs.Stands.{StandsFor};

use std::alloc::Global;
use std::marker::Model;
use ws_core_tables::Tables;
use ws_fate::Fates;

/// The hub's ledger: the four tables, what became of each pair of a version and a lease, and how many pairs
/// stand open. Contracts see it as the record of what these show.
#[derive(Drop)]
pub struct Ledger {
    pub(crate) alloc: Global,
    pub(crate) tables: Tables,
    pub(crate) fates: Fates,
    pub(crate) open_pairs: u64,
}

impl Model for Ledger {
    ghost use Rattle.ws_ledger.specs.Rows.{Rows};

    ghost Value = { Rows };

    ghost view = { λ s. record { tables = s.tables; fates = s.fates; open_pairs = s.open_pairs } };
}

impl Ledger {
    /// The ledger of a hub to which nothing has happened. It takes no memory.
    pub fn empty(alloc: Global) -> Ledger
        ensures stands { StandsFor [] 0 result }
        ensures history { HasHistory result }
    {
        Ledger {
            alloc,
            tables: Tables::empty(alloc),
            fates: Fates::empty(alloc),
            open_pairs: 0,
        }
    }

    /// The tables of intents, leases, topics and deliveries.
    pub fn tables(&self) -> &Tables
        ensures { result.now ≡ self.now.tables }
    {
        &self.tables
    }

    /// What became of each pair.
    pub fn fates(&self) -> &Fates
        ensures { result.now ≡ self.now.fates }
    {
        &self.fates
    }
}
