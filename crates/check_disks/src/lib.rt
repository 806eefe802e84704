//! Records, and disks in memory and in files, on bytes that were worked out by hand: tests alone.
#![tactic(auto)]

#[cfg(test)]
mod disks;
#[cfg(test)]
mod records;
