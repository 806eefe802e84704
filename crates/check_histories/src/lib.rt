//! Legal histories, short and by chance, and the events that they are made of: what tests compare with.
#![tactic(auto)]

mod chance;
mod history;
mod made;

pub use chance::Chance;
pub use history::{History, is_first};
pub use made::{
    CALLBACKS, CB, CC, TOPICS, X, Y, asked, bytes, copy, fetched, happen, leased, pinged, same,
    unfetched,
};
