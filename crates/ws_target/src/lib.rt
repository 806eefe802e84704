//! The keys of topics and callbacks, the places that requests for them go to, and request targets.
//!
//! All of it is stated over the URLs of the crate `url` (URL Standard, section 4).
#![tactic(auto)]

mod address;
mod fault;
mod form;
mod key;
mod location;
mod request;

pub use fault::TargetFault;
pub use key::{callback, is_key, join, key_is_its_own, topic};
pub use location::Place;
pub use request::{host_field, path_and_query, place, request_target, with_query};
