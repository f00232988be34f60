//! The options of a mount.
#![tactic(auto)]

mod amounts;
pub mod options;
mod quantities;
mod wanted;
