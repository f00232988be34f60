//! The door through which a mount's events reach the pool.
#![tactic(auto)]

mod door;

pub use door::PoolDoor;
