//! Who watches the locks of slots and nodes.

use hp_locked::Gate;
use std::process::Abort;
use std::sync::atomic::{AtomicU64, Ordering};
use std::thread;
use std::time::{Clock, Duration};

const MOST_TURNS: u64 = 10_000;

// A few seconds of waiting.
const MOST_WAITS: u64 = 50_000;

/// Where a thread is held, or waits.
#[derive(Clone, Copy, Debug, Drop, PartialEq, Eq)]
pub enum Place {
    Slot(u64),
    Table,
    Pool,
    Node(u64),
}

// The number of a place at which a watcher can hold a thread; 0: there is none.
fn number_of(place: Place) -> u64 {
    match place {
        Place::Slot(at) => at.saturating_add(1),
        Place::Node(at) => at.saturating_add(1000),
        Place::Table | Place::Pool => 0,
    }
}

/// Waited for by one thread, and set by another.
#[derive(Drop)]
pub struct Flag {
    word: AtomicU64,
}

impl Flag {
    pub fn new() -> Flag {
        Flag {
            word: AtomicU64::new(0),
        }
    }

    pub fn set(&self) {
        self.word.store(1, Ordering::SeqCst);
    }

    pub fn is_set(&self) -> bool {
        self.word.load(Ordering::SeqCst) != 0
    }

    /// Waits, but not longer than 10,000 turns of a millisecond: how many were not used.
    pub fn wait<R: Clock>(&self, rt: &R) -> u64 {
        for turn in 0..MOST_TURNS {
            if self.is_set() {
                return MOST_TURNS - turn;
            }
            thread::sleep(rt, Duration::from_millis(1));
        }
        0
    }
}

/// Counts how often a slot's lock was taken and a page drawn, and notes the least time from one draw to the next. Who comes to the
/// place that is shut is held there, under its lock, until it is opened; but not longer than a flag waits.
#[derive(Drop)]
pub struct Watcher<'a, R> {
    rt: &'a R,
    shut: AtomicU64,
    held: Flag,
    left: AtomicU64,
    slots: AtomicU64,
    draws: AtomicU64,
    last: AtomicU64,
    least: AtomicU64,
}

impl<'a, R: Clock + Abort> Watcher<'a, R> {
    pub fn new(rt: &'a R) -> Watcher<'a, R> {
        Watcher {
            rt,
            shut: AtomicU64::new(0),
            held: Flag::new(),
            left: AtomicU64::new(MOST_TURNS),
            slots: AtomicU64::new(0),
            draws: AtomicU64::new(0),
            last: AtomicU64::new(0),
            least: AtomicU64::new(u64::MAX),
        }
    }

    /// Shuts a place.
    pub fn shut(&self, place: Place) {
        self.held.word.store(0, Ordering::SeqCst);
        self.shut.store(number_of(place), Ordering::SeqCst);
    }

    /// Lets who is held go.
    pub fn open(&self) {
        self.shut.store(0, Ordering::SeqCst);
    }

    /// Waits until one is held, but no longer than a flag waits.
    pub fn await_one(&self) {
        let _left = self.held.wait(self.rt);
    }

    /// How many turns were not used, where one was held longest.
    pub fn left(&self) -> u64 {
        self.left.load(Ordering::SeqCst)
    }

    /// Counts and notes anew.
    pub fn begin(&self) {
        self.slots.store(0, Ordering::SeqCst);
        self.draws.store(0, Ordering::SeqCst);
        self.least.store(u64::MAX, Ordering::SeqCst);
    }

    /// How often a slot's lock was taken.
    pub fn slots(&self) -> u64 {
        self.slots.load(Ordering::SeqCst)
    }

    /// How many draws there were: of one page, or of those of a range together.
    pub fn draws(&self) -> u64 {
        self.draws.load(Ordering::SeqCst)
    }

    /// The least time from one draw to the next, in nanoseconds.
    pub fn least(&self) -> u64 {
        self.least.load(Ordering::SeqCst)
    }

    /// Waits for one more draw than so many: whether there was one, and no two in less time than this.
    pub fn waits(&self, count: u64, time: u64) -> bool {
        for _turn in 0..MOST_WAITS {
            if self.least() < time {
                return false;
            }
            if self.draws() != count {
                return true;
            }
            thread::sleep(self.rt, Duration::from_nanos(1));
        }
        false
    }

    /// The time, in nanoseconds.
    pub fn now(&self) -> u64 {
        let time = self.rt.monotonic().expect(self.rt, "the time");
        u64::try_from(time.as_nanos()).unwrap_or(u64::MAX)
    }

    fn come(&self, place: Place) {
        let number = number_of(place);
        for turn in 0..MOST_TURNS {
            if self.shut.load(Ordering::SeqCst) != number {
                return;
            }
            self.held.set();
            if MOST_TURNS - 1 - turn < self.left() {
                self.left.store(MOST_TURNS - 1 - turn, Ordering::SeqCst);
            }
            thread::sleep(self.rt, Duration::from_millis(1));
        }
    }

    fn draw(&self) {
        let now = self.now();
        let time = now.saturating_sub(self.last.load(Ordering::SeqCst));
        if self.draws() != 0 && time < self.least() {
            self.least.store(time, Ordering::SeqCst);
        }
        self.last.store(now, Ordering::SeqCst);
        let _before = self.draws.fetch_add(1, Ordering::SeqCst);
    }
}

/// The gate of a machine: it tells a watcher.
#[derive(Drop)]
pub struct Watched<'a, R> {
    pub by: &'a Watcher<'a, R>,
}

impl<'a, R: Clock + Abort> Gate for Watched<'a, R> {
    fn enter(&self, slot: u64) {
        let _before = self.by.slots.fetch_add(1, Ordering::SeqCst);
        self.by.come(Place::Slot(slot));
    }

    fn frame(&self, node: u64) {
        self.by.draw();
        self.by.come(Place::Node(node));
    }
}
