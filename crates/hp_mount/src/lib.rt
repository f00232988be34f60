//! One mount's events: its files, their pages and their maps, through any door to the pool.
#![tactic(auto)]

mod mount;
mod run_door;

pub use hp_mount_door::PoolDoor;
pub use hp_mount_files::MapRange;
pub use mount::{MapAccess, Mount};
pub use run_door::RunDoor;
