//! The tables by themselves, and the plain program, on histories that were worked out by hand: tests alone.
#![tactic(auto)]

#[cfg(test)]
mod deliveries;
#[cfg(test)]
mod fates;
#[cfg(test)]
mod gathering;
#[cfg(test)]
mod leases;
#[cfg(test)]
mod plain;
#[cfg(test)]
mod rooms;
