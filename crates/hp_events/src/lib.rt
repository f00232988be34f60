//! What a step asks of which part of the machine; and the parts of a machine that threads share, as a session asks them.
#![tactic(auto)]

mod answers;
pub mod copies;
mod event;
mod parts;
mod table_told;
mod work;

pub use answers::{into_bytes, into_done};
pub use event::{LentEvent, is_exit, is_of_mount, set_home};
pub use parts::Parts;
pub use table_told::TableTold;
pub use work::{Work, most_receipts, work_of};
