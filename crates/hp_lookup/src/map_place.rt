//! Where a map stands.

/// The place of a file, and of a map among its maps; in order of files, and then of maps.
#[derive(Clone, Copy, Debug, PartialEq, Eq, PartialOrd, Ord)]
pub struct MapPlace {
    pub file: usize,
    pub map: usize,
}
