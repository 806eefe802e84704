//! A plain, slow program that computes the definitions of a history by scanning its events: what
//! tables of the hub are compared with in tests.
//!
//! Each function takes the events oldest first.
#![tactic(auto)]

mod compaction;
mod copies;
mod counts;
mod fates;
mod found;
mod intents;
mod leases;
mod moments;
mod order;
mod pair;
mod pair_fates;
mod pairs;
mod past;
mod ping;
mod sought;
mod versions;
mod works;

pub use compaction::keep;
pub use counts::account;
pub use intents::{notices, pending};
pub use leases::live;
pub use pair_fates::{PairFate, all_fates};
pub use pairs::fate;
pub use works::due;
