//! What texts share: numbers, pieces between separators, and what is added to what waits to be written.
#![tactic(auto)]

pub mod meminfo;
pub mod numbers;
pub mod output;
pub mod pieces;
