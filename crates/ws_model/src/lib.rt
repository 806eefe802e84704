//! The plain types of the hub: events, fates, counts, and what a history of events says.
#![tactic(auto)]

mod account;
mod answers;
mod bytes;
mod decimal;
mod event;
mod fate;
mod lease;
mod reply;
mod settings;
mod work;

pub use account::Account;
pub use answers::{Kind, Settled};
pub use bytes::{Bytes, Key, Keys, NoMemory, Pair};
pub use decimal::{are_digits, number_within};
pub use event::{Alg, Event, Events, How, Intent, Mode, Tally, Version, What};
pub use fate::{Cause, Fate};
pub use lease::Lease;
pub use reply::Reply;
pub use settings::{Policy, Settings};
pub use work::{Held, Outcome, Work, delay};

#[cfg(test)]
mod tests;
