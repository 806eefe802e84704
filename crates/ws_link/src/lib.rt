//! The outside as traits: what an object holds, where it tells, and how often it failed.
#![tactic(auto)]

mod adapters;
mod clocks;
mod dials;
mod links;
mod memory;
mod memory_clocks;
mod memory_dials;
mod memory_links;
mod status;
mod traits;

pub use adapters::{ReaderSource, WriterSink};
pub use clocks::{Clock, SystemClock};
pub use dials::{Dial, DialFailed};
pub use links::{Link, LinkCounts, Step};
pub use memory::{MemSink, MemSource};
pub use memory_clocks::MemClock;
pub use memory_dials::MemDial;
pub use memory_links::MemLink;
pub use status::{ExchangeFault, Status};
pub use traits::{ReadFailed, Sink, Source, WriteFailed};
