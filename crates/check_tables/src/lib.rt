//! The tables of intents, leases, topics and deliveries beside the plain program of the definitions:
//! tests alone.
#![tactic(auto)]

#[cfg(test)]
mod compared;
#[cfg(test)]
mod due;
#[cfg(test)]
mod examples;
#[cfg(test)]
mod generated;
#[cfg(test)]
mod moment;
#[cfg(test)]
mod tables;
