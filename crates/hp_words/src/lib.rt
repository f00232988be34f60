//! What the words of a command line ask for.
#![tactic(auto)]

pub mod config;
pub mod settings;
