//! Tags of files and maps.

/// The tags of a mount's files and maps. They rise, so that in a list in order of making a tag is found by a binary search.
/// What stands where a tag is found is looked at, so no contract speaks of tags.
#[derive(Drop)]
pub struct Tags {
    next: u64,
}

impl Tags {
    pub fn new() -> Self {
        Tags { next: 0 }
    }

    /// A tag greater than those before it.
    pub fn take(&mut self) -> u64 {
        let tag = self.next;
        self.next = tag.wrapping_add(1);
        tag
    }
}
