//! The pool and the frames of its nodes, each under a lock, and a session's door to them.
#![tactic(auto)]

mod door;
mod gate;
mod nodes;
mod noted;
mod noting;
mod pool_core;
mod pool_told;
mod ways;

pub use door::{Door, SessionDoor};
pub use gate::Gate;
pub use nodes::NodeLocks;
pub use noted::{Entered, Noted, Notes};
pub use pool_core::{Core, Full};
pub use pool_told::PoolTold;
pub use ways::Ways;
