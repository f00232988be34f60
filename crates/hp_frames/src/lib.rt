//! The frames of a node's huge pages. They lie in one block of memory, which is asked for once: no byte of a frame is
//! written before the frame is first used.
#![tactic(auto)]

mod draft;
mod frame;
mod lodging;
mod stock;

pub use draft::{Draft, Fresh};
pub use frame::Frame;
pub use stock::Stock;
