//! The program over any words, ends and server: what it does, what it says, and its status.
#![tactic(auto)]

mod run;
mod server;

pub use run::{program, refuse};
pub use server::Server;
