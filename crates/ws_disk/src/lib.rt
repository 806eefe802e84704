//! Disks: the trait that the journal stands on, with its crash model, disks in memory and the adapter over a file.
#![tactic(auto)]

mod content;
mod disk;
mod file;
mod gated;
mod log;
mod memory;
mod torn;

pub use disk::{Disk, DiskFailed};
pub use file::FileDisk;
pub use gated::write_gated;
pub use memory::MemDisk;
pub use torn::{Pick, TornDisk};
