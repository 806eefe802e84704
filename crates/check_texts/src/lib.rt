//! Targets, forms, Link fields, signatures, scripts and connections in memory on values that were worked out by
//! hand: tests alone.
#![tactic(auto)]

#[cfg(test)]
mod connections;
#[cfg(test)]
mod forms;
#[cfg(test)]
mod link_fields;
#[cfg(test)]
mod own_links;
#[cfg(test)]
mod scripts;
#[cfg(test)]
mod signatures;
#[cfg(test)]
mod targets;
