//! The steps that a caller may ask for: one variant for each command.

use crate::lent::Lent;

/// Whether the pages of a map belong to its file or to the map.
#[derive(Clone, Copy, PartialEq, Eq)]
pub enum Sharing {
    Shared,
    Private,
}

/// Whether a map takes reservations when it is made.
#[derive(Clone, Copy, PartialEq, Eq)]
pub enum Reserving {
    Reserve,
    NoReserve,
}

/// Whether a fault is a read or a write.
#[derive(Clone, Copy, PartialEq, Eq)]
pub enum Intent {
    Read,
    Write,
}

/// One command with its numbers, and with names and bytes that lie elsewhere.
#[derive(Drop)]
pub enum Step<'a> {
    /// Adds a task whose home is a node. Answers `Done`.
    Connect {
        task: u64,
        home: u64,
    },
    /// Answers the home node of a task.
    Attach {
        task: u64,
    },
    /// Adds a task with copies of another's maps, on every slot. Answers `Done`.
    Fork {
        parent: u64,
        child: u64,
    },
    /// Removes a task and its maps. Answers `Done`.
    Exit {
        task: u64,
    },
    /// Opens a slot with options. Answers `Done`.
    Mount {
        slot: u64,
        options: Lent<'a>,
    },
    /// Sets a mount's limits by options. Answers `Done`.
    Remount {
        slot: u64,
        options: Lent<'a>,
    },
    /// Closes a slot without maps, with its files. Answers `Done`.
    Umount {
        slot: u64,
    },
    /// Makes an empty file. Answers `Done`.
    Create {
        slot: u64,
        name: Lent<'a>,
    },
    /// Takes a file's name; with its last map the file goes. Answers `Done`.
    Unlink {
        slot: u64,
        name: Lent<'a>,
    },
    /// Sets a file's length, in pages. Answers `Done`.
    Truncate {
        slot: u64,
        name: Lent<'a>,
        pages: u64,
    },
    /// Takes the pages from index `from` up to, not including, `to` out of a file. Answers `Done`.
    Punch {
        slot: u64,
        name: Lent<'a>,
        from: u64,
        to: u64,
    },
    /// Gives each index from `from` up to, not including, `to` of a file a page, and the file at least this length.
    /// Answers `Done`.
    Preallocate {
        slot: u64,
        name: Lent<'a>,
        from: u64,
        to: u64,
    },
    /// Answers `count` bytes from byte `offset` of the page at `index` of a file.
    Read {
        slot: u64,
        name: Lent<'a>,
        index: u64,
        offset: u64,
        count: u64,
    },
    /// Answers the names of a slot's files, in order of creation.
    Ls {
        slot: u64,
    },
    /// Answers a file's length, pages present, indices entered, and maps.
    Stat {
        slot: u64,
        name: Lent<'a>,
    },
    /// Maps `pages` pages of a file from index `from` on. Answers the map's number.
    Map {
        task: u64,
        slot: u64,
        name: Lent<'a>,
        from: u64,
        pages: u64,
        sharing: Sharing,
        reserving: Reserving,
    },
    /// Makes a file without a name in slot 0, and maps all of its `pages` pages. Answers the map's number.
    Anon {
        task: u64,
        pages: u64,
        sharing: Sharing,
        reserving: Reserving,
    },
    /// Takes the indices from `from` up to, not including, `to` out of a map. Answers `Done`.
    Unmap {
        task: u64,
        slot: u64,
        map: u64,
        from: u64,
        to: u64,
    },
    /// Touches the page at a file's index through a map. Answers `Done`.
    Fault {
        task: u64,
        slot: u64,
        map: u64,
        index: u64,
        intent: Intent,
    },
    /// Answers `count` bytes from byte `offset` of the page at a file's index, through a map.
    Load {
        task: u64,
        slot: u64,
        map: u64,
        index: u64,
        offset: u64,
        count: u64,
    },
    /// Writes bytes from byte `offset` of the page at a file's index on, through a map. Answers `Done`.
    Store {
        task: u64,
        slot: u64,
        map: u64,
        index: u64,
        offset: u64,
        bytes: Lent<'a>,
    },
    /// Sets nr, in pages. Answers the value set.
    Nr {
        pages: u64,
    },
    /// Sets overcommit, in pages. Answers `Done`.
    Overcommit {
        pages: u64,
    },
    /// Answers the pool's numbers.
    Meminfo,
    /// Answers the numbers of each node.
    Nodes,
    /// Answers a slot's limits, usage and files.
    Df {
        slot: u64,
    },
}
