//! How a copy is held.

/// What a private map has of its own at an index: nothing; a copy that it alone holds; or one that other maps hold too.
#[derive(Clone, Copy, Debug, PartialEq, Eq)]
pub enum CopyState {
    Missing,
    HeldOnce,
    HeldBySeveral,
}
