//! The limits of a mount.

/// The most pages, the pages that are kept at least, and the most files. None is no limit.
#[derive(Clone, Copy)]
pub struct Limits {
    /// Pages.
    pub max: Option<u64>,
    /// Pages.
    pub min: u64,
    /// Files, named or not.
    pub inodes: Option<u64>,
}
