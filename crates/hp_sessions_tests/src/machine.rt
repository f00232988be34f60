//! A machine that sessions work on, behind which its own types are not seen: so a test's proof knows none of them.

use crate::gates::Place;
use crate::places::{Seen, Watch};
use hp_closing::into_system;
use hp_entrance::Entrance;
use hp_events::Parts;
use hp_history::Places;
use hp_locked::Gate;
use hp_model::answer::Counts;
use hp_model::entry::Receipt;
use hp_model::naming::Naming;
use hp_order::{Ordered, RankedLock, Rest, hold, let_go, try_hold};
use hp_server::Served;
use hp_serving::Machine;
use hp_sessions::Session;
use hp_shared::{Finished, Shared, Trails};
use std::process::Abort;
use std::sync::Wait;
use std::thread::Threads;
use std::time::Clock;

/// What a test's machine is run by.
pub trait Runs: Threads + Wait + Abort + Clock + Sync {}

impl<R: Threads + Wait + Abort + Clock + Sync> Runs for R {}

/// What a session asks for by steps.
pub trait Script: Drop {
    fn run<R: Abort, P: Parts>(self, rt: &R, session: &mut Session<P>);
}

/// A machine that was taken apart: its counts once all else was gone, its trails where it kept them, whether its slots were in
/// order, and how many sessions there were.
#[derive(Drop)]
pub struct Apart {
    pub counts: Counts,
    pub trails: Option<Trails>,
    pub in_order: bool,
    pub sessions: u64,
}

/// The locks of a machine's places.
pub trait Locks {
    /// Whether nobody holds a place's lock: that of a node can't be told.
    fn is_free(&self, place: Place) -> bool;
}

/// A machine that is tested.
pub trait Tested: Machine + Locks {
    /// A session that asks for steps.
    fn steps<R: Wait + Abort, S: Script>(&self, rt: &R, script: S) -> Self::Told;

    /// Holds the lock of the place that is watched, watches, and lets it go.
    fn watched<R: Wait + Clock>(&self, rt: &R, watch: &Watch<'_>) -> Seen;

    /// The receipts of a session.
    fn receipts(told: Self::Told) -> Vec<Receipt>;

    /// Takes the machine apart.
    fn apart(self) -> Apart;
}

fn watched_at<T: Ordered, R: Wait + Clock, L: Locks>(
    rt: &R,
    lock: &RankedLock<T>,
    locks: &L,
    watch: &Watch<'_>,
) -> Seen {
    let mut turn = Rest::begin().into_turn();
    let value = hold(&mut turn, lock, rt);
    let seen = watch.seen(rt, locks);
    let_go(&mut turn, value);
    seen
}

fn is_free_lock<T: Ordered>(lock: &RankedLock<T>) -> bool {
    let mut turn = Rest::begin().into_turn();
    match try_hold(&mut turn, lock) {
        Some(value) => {
            let_go(&mut turn, value);
            true
        }
        None => false,
    }
}

impl<N: Naming + Places, G: Gate + Drop, const K: usize> Locks for Served<N, G, K> {
    fn is_free(&self, place: Place) -> bool {
        match place {
            Place::Slot(at) if at < self.shared.count() as u64 => {
                is_free_lock(self.shared.slot(at as usize))
            }
            Place::Table => is_free_lock(self.shared.table()),
            Place::Pool => is_free_lock(self.shared.core()),
            Place::Slot(_) | Place::Node(_) => true,
        }
    }
}

impl<N: Naming + Places + Send + Sync, G: Gate + Drop, const K: usize> Tested for Served<N, G, K> {
    fn steps<R: Wait + Abort, S: Script>(&self, rt: &R, script: S) -> Finished<N, K> {
        let entrance = Entrance::open(rt, &self.shared, &self.gate, self.room, Rest::begin());
        let mut session = Session::open(entrance.ok().expect(rt, "out of memory"));
        script.run(rt, &mut session);
        let (finished, _rest) = session.finish().into_finished();
        finished
    }

    fn watched<R: Wait + Clock>(&self, rt: &R, watch: &Watch<'_>) -> Seen {
        match watch.place() {
            Place::Slot(at) if at < self.shared.count() as u64 => {
                watched_at(rt, self.shared.slot(at as usize), self, watch)
            }
            Place::Table => watched_at(rt, self.shared.table(), self, watch),
            Place::Pool => watched_at(rt, self.shared.core(), self, watch),
            Place::Slot(_) | Place::Node(_) => watch.seen(rt, self),
        }
    }

    fn receipts(told: Finished<N, K>) -> Vec<Receipt> {
        let (receipts, ..) = told.into_parts();
        receipts
    }

    fn apart(self) -> Apart {
        let Served {
            shared,
            gate: _,
            room: _,
        } = self;
        let (system, trails, ended) = into_system(shared);
        Apart {
            counts: system.close(),
            trails,
            in_order: ended.in_order,
            sessions: ended.sessions,
        }
    }
}
