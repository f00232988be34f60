//! Trails of events, and the audit that joins them into one run of the machine.
#![tactic(auto)]

pub mod audit;
mod join;
pub mod kept;
mod same;
mod tellers;
mod telling;
pub mod trace;
pub mod trail;
mod trails;
pub mod unkept;
mod walk;
