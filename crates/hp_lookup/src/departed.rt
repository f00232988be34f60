//! What went with maps that left.

/// Maps that left, and the reservations that went with them.
#[derive(Clone, Copy)]
pub struct Departed {
    pub maps: u64,
    pub reserves: u64,
}
