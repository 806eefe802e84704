//! The core where it is full: of leases, and of bodies that are kept: tests alone.
#![tactic(auto)]

#[cfg(test)]
mod bodies;
#[cfg(test)]
mod happening;
#[cfg(test)]
mod leases;
