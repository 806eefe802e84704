//! A list that is gone over little by little, again and again, so that members that aren't needed any more
//! are taken out, each at once and without memory, while new ones come at its end.
#![tactic(auto)]

mod sweep;
#[cfg(test)]
mod tests;

pub use sweep::Sweep;
