//! The huge pages of all nodes: pages that can be held, and the rows of numbers that say how many are free.
#![tactic(auto)]

mod blanks;
mod draft;
mod frames;
mod lists;
mod node;
mod page;
mod rounds;
mod search;
mod tally;

pub use blanks::{Blanks, NodeBlanks};
pub use draft::PageDraft;
pub use frames::{Frames, NodeFrames};
pub use lists::NodeLists;
pub use page::Page;
pub use tally::PageTally;
