//! How the machine that threads shared ends: it is a machine of one thread again, its trails are audited, and it is closed.
#![tactic(auto)]

mod closing;
mod law;

pub use closing::{Closed, audit, close, into_system};
pub use law::answered_first;
