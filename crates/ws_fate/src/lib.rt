//! What became of each pair of a version and a lease, and how many ended so.
#![tactic(auto)]

mod counts;
pub mod laws;
mod table;
mod totals;

pub use table::Fates;
pub use totals::{Standing, Totals};
