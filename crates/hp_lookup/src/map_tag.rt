//! What a map is found by.

use crate::map_place::MapPlace;
use crate::spot::{number_in, tag_in, word_of};

/// Where a map stood when it was noted, as most still do, with its file's tag and its own, which stay. Each word has a tag, and
/// below it the place of the file, and of the map among its maps.
#[derive(Clone, Copy)]
pub struct MapTag {
    file: u64,
    map: u64,
}

impl MapTag {
    /// A map stands at a place; these are its file's tag and its own.
    pub fn new(at: MapPlace, file: u64, map: u64) -> Self {
        MapTag {
            file: word_of(file, at.file as u64),
            map: word_of(map, at.map as u64),
        }
    }

    /// The same map, which stands at a place now.
    pub fn moved_to(self, at: MapPlace) -> Self {
        MapTag::new(at, self.file(), self.map())
    }

    /// Where the map stood.
    pub fn place(self) -> MapPlace {
        MapPlace {
            file: number_in(self.file) as usize,
            map: number_in(self.map) as usize,
        }
    }

    /// Its file's tag.
    pub fn file(self) -> u64 {
        tag_in(self.file)
    }

    /// Its own tag.
    pub fn map(self) -> u64 {
        tag_in(self.map)
    }
}
