//! The answers to requests, copies of events, and the desk, worked out by hand: tests alone.
#![tactic(auto)]

#[cfg(test)]
mod answers;
#[cfg(test)]
mod copies;
#[cfg(test)]
mod desk;
