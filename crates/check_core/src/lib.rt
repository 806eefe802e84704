//! The core beside the plain program of the definitions, on histories by chance and on worked ones: tests
//! alone.
#![tactic(auto)]

#[cfg(test)]
mod applied;
#[cfg(test)]
mod compacted;
#[cfg(test)]
mod compactions;
#[cfg(test)]
mod due;
#[cfg(test)]
mod examples;
#[cfg(test)]
mod fetches;
#[cfg(test)]
mod generated;
#[cfg(test)]
mod keeping;
#[cfg(test)]
mod moment;
#[cfg(test)]
mod next;
#[cfg(test)]
mod requests;
