//! The law of compaction: what a compaction keeps of a history stands for the whole of it, now and
//! whatever comes after. Each law is the contract of a function that does nothing.
#![tactic(auto)]

pub mod compaction;
