//! Atomic events: each acts on the task table, on one slot, or on the pool alone.

use crate::bytes::Bytes;
use crate::step::{Intent, Reserving, Sharing};

/// An event of the task table.
#[derive(Clone, Copy, PartialEq, Eq)]
pub enum TableEvent {
    /// Adds a task with its home node.
    Add { task: u64, home: u64 },
    /// Answers a task's home node.
    Find { task: u64 },
    /// Finds a task, and adds another with its home.
    FindAndAdd { parent: u64, child: u64 },
    /// Removes a task.
    Remove { task: u64 },
}

/// An event of one slot, over what has its names, options and bytes: `Bytes` in a trail, `Lent` where it is asked for. What a
/// task does carries the task's number and home.
#[derive(Drop, PartialEq, Eq)]
pub enum SlotEvent<B> {
    /// The slot's part of `Step::Mount`.
    Mount {
        options: B,
    },
    /// The slot's part of `Step::Remount`.
    Remount {
        options: B,
    },
    /// The slot's part of `Step::Umount`.
    Umount,
    /// The slot's part of `Step::Create`.
    Create {
        name: B,
    },
    /// The slot's part of `Step::Unlink`.
    Unlink {
        name: B,
    },
    /// The slot's part of `Step::Truncate`.
    Truncate {
        name: B,
        pages: u64,
    },
    /// The slot's part of `Step::Punch`.
    Punch {
        name: B,
        from: u64,
        to: u64,
    },
    /// The slot's part of `Step::Preallocate`.
    Preallocate {
        name: B,
        from: u64,
        to: u64,
    },
    /// The slot's part of `Step::Read`.
    Read {
        name: B,
        index: u64,
        offset: u64,
        count: u64,
    },
    /// The slot's part of `Step::Ls`.
    Ls,
    /// The slot's part of `Step::Stat`.
    Stat {
        name: B,
    },
    /// The slot's part of `Step::Df`.
    Df,
    /// The slot's part of `Step::Map`.
    Map {
        task: u64,
        home: u64,
        name: B,
        from: u64,
        pages: u64,
        sharing: Sharing,
        reserving: Reserving,
    },
    /// The slot's part of `Step::Anon`.
    Anon {
        task: u64,
        home: u64,
        pages: u64,
        sharing: Sharing,
        reserving: Reserving,
    },
    /// The slot's part of `Step::Unmap`.
    Unmap {
        task: u64,
        map: u64,
        from: u64,
        to: u64,
    },
    /// The slot's part of `Step::Fault`.
    Fault {
        task: u64,
        home: u64,
        map: u64,
        index: u64,
        intent: Intent,
    },
    /// The slot's part of `Step::Load`.
    Load {
        task: u64,
        home: u64,
        map: u64,
        index: u64,
        offset: u64,
        count: u64,
    },
    /// The slot's part of `Step::Store`.
    Store {
        task: u64,
        home: u64,
        map: u64,
        index: u64,
        offset: u64,
        bytes: B,
    },
    /// Copies the maps of a task for its child.
    ForkMaps {
        parent: u64,
        child: u64,
    },
    /// Removes the maps of a task.
    ExitMaps {
        task: u64,
    },
}

/// An event of the pool alone.
#[derive(Clone, Copy, PartialEq, Eq)]
pub enum PoolEvent {
    /// `Step::Nr`.
    Nr { pages: u64 },
    /// `Step::Overcommit`.
    Overcommit { pages: u64 },
    /// `Step::Meminfo`.
    Meminfo,
    /// `Step::Nodes`.
    Nodes,
}

/// An event with the part that it acts on.
#[derive(Drop, PartialEq, Eq)]
pub enum Event {
    /// Of the task table.
    Tasks(TableEvent),
    /// Of the slot of this number.
    Slot { slot: u64, event: SlotEvent<Bytes> },
    /// Of the pool.
    Pool(PoolEvent),
}
