//! The way into the parts of the machine that threads share.
#![tactic(auto)]

mod asking;
mod entrance;
mod holding;
mod member;

pub use entrance::Entrance;
pub use member::Member;
