//! Runs over the lines of an input: each line's reply is written. `hp_wire_lines` reads a line and writes a reply.
#![tactic(auto)]

mod answering;
pub mod ends;
pub mod fixed_buffer;
mod gathering;
mod queue;
mod replies;
pub mod running;
mod unanswered;
pub mod written;

pub use hp_model::fault;
pub use hp_wire_lines::{reading, words, writing};
