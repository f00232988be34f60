//! The ways from a slot to the pool.

use crate::gate::Gate;
use crate::nodes::NodeLocks;
use crate::pool_core::Core;
use hp_history::{History, Places};
use hp_model::entry::PoolEntry;
use hp_model::naming::Naming;
use hp_order::RankedLock;
use hp_trail::trace::Trace;
use std::sync::Wait;

/// The ways from a slot to the pool and to the frames, and the history in which their events stand.
#[derive(Drop)]
pub struct Ways<'a, N: Naming + Places, R: Wait, G: Gate, const K: usize> {
    pub rt: &'a R,
    pub gate: &'a G,
    pub core: &'a RankedLock<Core<N, Trace<PoolEntry, K>>>,
    pub nodes: &'a NodeLocks<N>,
    pub history: &'a History<N>,
}
