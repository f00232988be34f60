//! Looking up: where the names and the maps of a mount were found last, and what tasks have there.
#![tactic(auto)]

mod copy_state;
mod departed;
mod file_tag;
mod hints;
mod map_place;
mod map_table;
mod map_tag;
mod name;
mod name_bytes;
mod name_query;
mod next_map;
mod spot;
mod tagged;
mod tags;
mod task_maps;

pub use copy_state::CopyState;
pub use departed::Departed;
pub use file_tag::FileTag;
pub use hints::Hints;
pub use map_place::MapPlace;
pub use map_tag::MapTag;
pub use name::FileName;
pub use next_map::{MapRange, NextMap};
pub use spot::TaggedNumber;
pub use tags::Tags;
pub use task_maps::TaskMaps;
