//! The pool: how many huge pages there are, how many of them are promised, and how many are in use.
#![tactic(auto)]

mod blanks;
mod moves;
mod pool;

pub use blanks::Blanks;
pub use pool::Pool;
