//! What a file is found by.

use crate::spot::{number_in, tag_in, word_of};

/// Where a file stood when it was noted, as most still do, below its tag, which stays.
#[derive(Clone, Copy)]
pub struct FileTag {
    word: u64,
}

impl FileTag {
    /// The file with the tag stands at a place.
    pub fn new(at: usize, tag: u64) -> Self {
        FileTag {
            word: word_of(tag, at as u64),
        }
    }

    /// Where the file stood.
    pub fn at(self) -> usize {
        number_in(self.word) as usize
    }

    pub fn tag(self) -> u64 {
        tag_in(self.word)
    }
}
