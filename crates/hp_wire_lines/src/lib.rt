//! The step that a line reads as, and the text of a reply.
#![tactic(auto)]

pub mod accesses;
mod command;
mod commands;
mod hex_digits;
mod known;
mod output;
mod parts;
pub mod reading;
pub mod words;
pub mod writing;
