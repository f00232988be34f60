//! Sessions on the parts of a machine.
#![tactic(auto)]

mod asking;
mod session;

pub use session::Session;
