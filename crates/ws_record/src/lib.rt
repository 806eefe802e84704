//! The texts of batches of events, as the journal's records hold them: writing them, and reading
//! them back.
#![tactic(auto)]

mod batch;
mod field;
mod kinds;
mod pushed;

pub use batch::{batch_len, batches_apart, read_batch, write_batch};
pub use pushed::pushed_batch;

/// The greatest length of a batch's text, in bytes.
pub const MAX_BATCH: usize = 16_777_216;
