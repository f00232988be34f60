//! The tasks with their home nodes.
#![tactic(auto)]

mod order;
mod table;

pub use table::TaskTable;
