//! One exchange with a peer over one link: it sends a request and reads the reply, a step at each poll.
#![tactic(auto)]

mod hear;
mod polls;

pub use polls::{Exchange, ExchangeUnmade, Polled};

#[cfg(test)]
mod tests;
