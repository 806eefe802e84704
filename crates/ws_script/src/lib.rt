//! The grammar of scripts, and the reading of one happening after another.
#![tactic(auto)]

pub mod laws;
mod script;
mod take;
mod words;

pub use script::{Happening, Line, MAX_TIME};
pub use take::{ReadFault, take_happening};
pub use words::Word;
