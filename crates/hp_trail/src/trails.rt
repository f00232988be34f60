//! The trails of a run, as an audit reads them.

use hp_model::entry::{PoolEntry, SlotEntry, TableEntry};

/// The trail of each part.
#[derive(Clone, Copy)]
pub(crate) struct Trails<'a> {
    pub(crate) tasks: &'a [TableEntry],
    pub(crate) slots: &'a [Vec<SlotEntry>],
    pub(crate) pool: &'a [PoolEntry],
}
