//! What trails keep, and what sessions are told.

use crate::answer::Reply;
use crate::bytes::Bytes;
use crate::event::{Event, PoolEvent, SlotEvent, TableEvent};
use crate::section::{PoolAnswer, Section};

/// An event of the task table, with its reply.
#[derive(Drop, PartialEq, Eq)]
pub struct TableEntry {
    pub event: TableEvent,
    pub reply: Reply,
}

/// A section with the pool's answer, and its place in the pool's trail.
#[derive(Clone, Copy, Debug, PartialEq, Eq)]
pub struct Asked {
    pub place: u64,
    pub section: Section,
    pub answer: PoolAnswer,
}

/// An event of a slot with its reply, and its section where it entered one.
#[derive(Drop, PartialEq, Eq)]
pub struct SlotEntry {
    pub event: SlotEvent<Bytes>,
    pub reply: Reply,
    pub asked: Option<Asked>,
}

/// A section of a slot's event with the pool's answer, or an event of the pool alone with its
/// reply.
#[derive(Drop, PartialEq, Eq)]
pub enum PoolEntry {
    OfSlot {
        section: Section,
        answer: PoolAnswer,
    },
    OfPool {
        event: PoolEvent,
        reply: Reply,
    },
}

/// What has a trail.
#[derive(Clone, Copy, Debug, PartialEq, Eq)]
pub enum Part {
    Tasks,
    Slot(u64),
    Pool,
}

/// What a session was told of one event: where its entry stands, the event and the reply.
#[derive(Drop, PartialEq, Eq)]
pub struct Receipt {
    pub part: Part,
    pub place: u64,
    pub event: Event,
    pub reply: Reply,
}
