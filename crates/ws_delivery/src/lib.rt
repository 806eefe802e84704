//! The table of deliveries: which versions are still owed to which leases, with their tries.
#![tactic(auto)]

mod ends;
mod heads;
mod laws;
mod open_of;
mod open_pair;
mod open_pairs;
mod owed_versions;
mod table;

pub use laws::{next_due_agrees, stands_after, stands_empty, stands_later, stands_on};
pub use open_of::OpenOf;
pub use open_pair::OpenPair;
pub use table::Deliveries;
