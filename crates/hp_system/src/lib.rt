//! The machine for one thread: steps in, replies out; and the run of a script on it.
#![tactic(auto)]

mod script;
mod system;

pub use script::run_script;
pub use system::{Parts, System};
