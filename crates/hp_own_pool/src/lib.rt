//! The pool with the frames of its nodes, as the door of one thread, and what every door does in a section.
#![tactic(auto)]

pub mod filling;
pub mod limits;
pub mod opening;
mod own;
mod parcel;

pub use own::OwnPool;
pub use parcel::Parcel;
