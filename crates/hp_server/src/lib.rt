//! The machine that threads share, as one that sessions over connections are served on.
#![tactic(auto)]

mod gate;
mod host;
mod served;

pub use gate::Open;
pub use host::Waiting;
pub use served::Served;
