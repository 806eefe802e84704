//! One HTTP connection of the hub, from the bytes that are read to those that are written (RFC 9110, RFC 9112).
#![tactic(auto)]

mod answer;
mod full;
mod give;
mod head;
mod message;
mod read;
mod refusal;
mod respond;
mod serve;
mod served;

pub use give::give_all;
pub use serve::serve_connection;
pub use served::Served;

#[cfg(test)]
mod tests;
