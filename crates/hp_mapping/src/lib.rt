//! A task's map of a range of a file.
#![tactic(auto)]

mod dense;
mod flags;
mod mapping;
mod marks;
mod packed_place;
mod places;
mod row;
mod sparse;
mod summed;
mod word;
mod words;

pub use flags::MapFlags;
pub use mapping::Mapping;
pub use packed_place::{PackedPlace, copy_in};
