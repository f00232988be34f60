//! The limits of this profile, as `specs/Profile.antt` has them for contracts.

/// Nodes of a machine.
pub const MOST_NODES: usize = 4;

/// Frames of a node.
pub const MOST_FRAMES: u64 = 65_536;

/// The size of a page, in bytes, is a power of two from here on.
pub const LEAST_PAGE_BYTES: u64 = 1024;

/// Bytes of a page.
pub const MOST_PAGE_BYTES: u64 = 2_097_152;

/// Slots of a machine, for a mount each.
pub const MOST_SLOTS: usize = 64;

/// Files of a slot, named or not.
pub const MOST_FILES: usize = 1024;

/// Maps of a slot. Their numbers begin at 1.
pub const MOST_MAPS: u64 = 4096;

/// Tasks of the table, and tasks with maps of a slot.
pub const MOST_TASKS: usize = 4096;

/// Pages of a file.
pub const MOST_FILE_PAGES: u64 = 16_777_216;

/// Pages of a map, and indices that one step fills.
pub const MOST_MAP_PAGES: u64 = 65_536;

/// Bytes of a load, a store or a read.
pub const MOST_BYTES: usize = 256;

/// Surplus pages that may be asked for.
pub const MOST_OVERCOMMIT: u64 = 4_294_967_295;

/// Bytes of a name.
pub const MOST_NAME_BYTES: usize = 64;

/// Bytes of a line, without its end.
pub const MOST_LINE_BYTES: usize = 1024;

/// Bytes of an input.
pub const MOST_INPUT_BYTES: u64 = 1_073_741_824;

/// Entries that each trail has room for, and receipts each session.
pub const MOST_PLACES: u64 = 16_777_216;
