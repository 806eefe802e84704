//! What a compaction puts before the events that it keeps: how many pairs it and earlier ones forgot.
#![tactic(auto)]

mod account;
mod before;
mod counting;
mod head;
mod kept_pairs;
#[cfg(test)]
mod tests;

pub use head::tally;
