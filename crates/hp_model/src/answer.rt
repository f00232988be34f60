//! What a step or an event answers.

use crate::names::Names;
use crate::profile::MOST_BYTES;
use crate::refusal::Refusal;

/// The pool's numbers, in pages (`admin-guide/mm/hugetlbpage.rst`, on HugePages_Total, _Free, _Rsvd and _Surp).
#[derive(Clone, Copy, Debug, PartialEq, Eq)]
pub struct Counts {
    /// Pages in the pool.
    pub total: u64,
    /// Pages of the pool that are not in use.
    pub free: u64,
    /// Pages committed and not yet in use.
    pub rsvd: u64,
    /// Pages of the pool above nr.
    pub surp: u64,
    /// The size that was asked for.
    pub nr: u64,
    /// How many surplus pages there may be.
    pub overcommit: u64,
}

/// One node's share of the pool, in pages. A node has at most `MOST_FRAMES`, so 32 bits hold each number.
#[derive(Clone, Copy, Debug, PartialEq, Eq)]
pub struct NodeCount {
    /// Pages of the pool that the node has.
    pub total: u32,
    /// Pages of these that are not in use.
    pub free: u32,
    /// Pages of these above nr.
    pub surp: u32,
}

/// The answer of a step or an event that is not refused.
#[derive(Drop, Debug, PartialEq, Eq)]
pub enum Answer {
    /// Nothing but that it is done.
    Done,
    /// A node.
    Home(u64),
    /// A new map's number.
    MapNo(u64),
    /// A number of pages.
    Number(u64),
    /// The first `count` of these bytes; the others are zero.
    Bytes {
        count: u64,
        bytes: [u8; MOST_BYTES],
    },
    /// A file's length, pages present, indices entered, and maps by all tasks.
    Stat {
        len: u64,
        pages: u64,
        entries: u64,
        maps: u64,
    },
    /// A mount's limit, minimum and usage in pages, its limit of files, and its files.
    Usage {
        max: Option<u64>,
        min: u64,
        used: u64,
        inodes: Option<u64>,
        files: u64,
    },
    /// The names of files.
    Names(Names),
    /// The pool's numbers.
    Numbers(Counts),
    /// How many nodes there are, and a row for each; the other rows are zero.
    PerNode {
        nodes: u64,
        rows: [NodeCount; 4],
    },
}

/// What a step or an event is answered.
pub type Reply = Result<Answer, Refusal>;
