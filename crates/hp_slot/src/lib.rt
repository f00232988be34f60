//! A slot, which has a mount or none: what is asked of it, and what it answers, through any door to the pool.
#![tactic(auto)]

mod mounting;
mod slot;

pub use slot::{act, ask, fork, has_maps, has_maps_for, leave};
