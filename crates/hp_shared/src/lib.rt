//! The machine that threads share: its parts, each under a lock of its own; how it is opened, lent by these, and taken apart.
#![tactic(auto)]

mod ended;
mod finished;
mod locked_slot;
mod making;
mod names;
mod opener;
mod parting;
mod parts;
mod run;
mod seated_slot;
mod seats;
mod shared;
mod spare;
mod table;
mod taken;
mod told;

pub use ended::Ended;
pub use finished::Finished;
pub use hp_locked::Ways;
pub use locked_slot::Slot;
pub use seated_slot::SeatedSlot;
pub use shared::{Shared, Trails, Unshared};
pub use table::Table;
