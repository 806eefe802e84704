//! Form requests: what a form body asks for, or its first fault (WebSub, sections 5.1 and 7).
#![tactic(auto)]

mod ask;
mod fault;
mod fields;
mod lease;
mod named;
mod publication;
mod read;

pub use ask::Ask;
pub use fault::AskFault;
pub use read::read_ask;
