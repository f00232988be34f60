//! A file with its maps, and the pages that they hold; and the list of a mount's files.
#![tactic(auto)]

mod dropping;
mod file;
mod file_list;
mod fork_lists;
mod forking;
mod held_pages;
mod leaving;

pub use dropping::drop_holder;
pub use file::{CellState, File, word_end};
pub use file_list::FileList;
pub use fork_lists::{FileMaps, children, join_all, retain_some_used, room_for};
pub use forking::copies_of;
pub use held_pages::HeldPages;
pub use leaving::{drop_maps_of, drop_some_maps_of, sweep_file};
