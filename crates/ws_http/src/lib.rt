//! HTTP/1.1 messages that come in any pieces, and the texts of those that are written (RFC 9112).
#![tactic(auto)]

mod chunk;
mod code;
mod extent;
mod fed;
mod flow;
mod head;
pub mod laws;
mod parts;
mod reply;
mod reply_chunks;
mod reply_data;
mod reply_head;
mod reply_stage;
mod reply_tail;
mod request;
mod request_chunks;
mod request_next;
mod response;
mod stage;
mod write;

pub use fed::{BadWhy, Fed, Need};
pub use request::RequestReader;
pub use response::ResponseReader;
pub use write::{no_memory_answer, write_request, write_response};

#[cfg(test)]
mod reply_tests;
#[cfg(test)]
mod tests;
