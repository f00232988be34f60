//! Each place, held while a session acts: which acts wait there, and what such an act holds meanwhile.

use crate::gates::{Flag, Place, Watcher};
use crate::machine::{Locks, Runs, Tested};
use crate::same::same;
use crate::stage::{Scene, Sizes, Stage, both, closed};
use crate::talking::{Beside, Client, goes_well};
use crate::works::{
    BEGIN, COPIES, FILES, PAGES, Pool, Row, Slots, Table, USED, of_files, of_maps, of_others,
};
use hp_serving::Machine;
use std::alloc::Global;
use std::process::Abort;
use std::sync::Wait;
use std::thread;
use std::time::{Clock, Duration};

// The gate of a node stops who draws a page there, or gives one back. All pages here are of node 0.
const PLACES: [Place; 9] = [
    Place::Slot(0),
    Place::Slot(1),
    Place::Slot(2),
    Place::Slot(3),
    Place::Slot(4),
    Place::Table,
    Place::Pool,
    Place::Node(0),
    Place::Node(1),
];

/// An act on a slot, and a place that is held.
#[derive(Clone, Copy, Debug, Drop, PartialEq, Eq)]
struct Cell {
    act: &'static str,
    slot: u64,
    place: Place,
    traced: bool,
}

/// What is seen in a cell.
#[derive(Clone, Copy, Debug, Drop, PartialEq, Eq)]
pub enum Seen {
    NoSessionOpens,
    Waits,
    GoesOn,
    Holds(Place),
}

impl Row {
    fn waits(&self, cell: &Cell) -> bool {
        match cell.place {
            Place::Slot(at) => match self.slots {
                Slots::None => false,
                Slots::Its | Slots::Only(_) => at == cell.slot,
                Slots::Each => true,
            },
            Place::Table => {
                self.table == Table::Always || self.table == Table::Traced && cell.traced
            }
            Place::Pool => self.pool != Pool::Never,
            Place::Node(at) => at == 0 && self.pool == Pool::AndNode,
        }
    }

    // What the act holds while it is at this cell's place: at the pool or at a node its slot, or the first of each.
    fn holds(&self, cell: &Cell, other: Place) -> bool {
        let behind = match cell.place {
            Place::Slot(_) | Place::Table => false,
            Place::Pool | Place::Node(_) => self.slots != Slots::None,
        };
        other == cell.place || behind && other == Place::Slot(cell.slot)
    }

    // The slots that it is tried on.
    fn tried(&self) -> &'static [u64] {
        match self.slots {
            Slots::Its => &USED,
            Slots::Only(1) => &[1],
            Slots::Only(3) => &[3],
            _ => &[0],
        }
    }
}

// What the two threads of a cell tell each other.
#[derive(Drop)]
struct Signs {
    held: Flag,
    opened: Flag,
    done: Flag,
    slot: u64,
}

impl Beside for Signs {
    fn sends(&self, count: usize) -> bool {
        match count {
            0 => self.opened.set(),
            _ => self.done.set(),
        }
        true
    }

    fn byte(&self, byte: u8) -> u8 {
        match byte {
            b'S' => b'0'.saturating_add((self.slot % 10) as u8),
            other => other,
        }
    }
}

fn new_signs(slot: u64) -> Signs {
    Signs {
        held: Flag::new(),
        opened: Flag::new(),
        done: Flag::new(),
        slot,
    }
}

// A session of these lines on a slot, which come in two pieces.
fn does<R: Wait + Abort, M: Machine>(
    rt: &R,
    alloc: Global,
    machine: &M,
    signs: &Signs,
    lines: &str,
    more: &str,
    cell: Option<Cell>,
) -> M::Told {
    let mut client = Client {
        pieces: &[lines.as_bytes(), more.as_bytes()],
        sent: 0,
        fails: false,
        by: signs,
    };
    goes_well(rt, alloc, machine, &mut client, cell)
}

const SOON: u64 = 3;

const MOST_TURNS: u64 = 10_000;

/// A cell as one thread watches it, which holds its place, while the other acts.
#[derive(Drop)]
pub struct Watch<'a> {
    signs: &'a Signs,
    row: Row,
    cell: Cell,
}

impl Watch<'_> {
    /// The place.
    pub fn place(&self) -> Place {
        self.cell.place
    }

    // What is seen once the place is held, or is about to be.
    pub fn seen<R: Clock, L: Locks>(&self, rt: &R, locks: &L) -> Seen {
        self.signs.held.set();
        if self.signs.opened.wait(rt) == 0 {
            return Seen::NoSessionOpens;
        }
        if !self.row.waits(&self.cell) {
            return self.seen_going(rt);
        }
        thread::sleep(rt, Duration::from_millis(SOON));
        self.seen_waiting(rt, locks)
    }

    fn seen_going<R: Clock>(&self, rt: &R) -> Seen {
        if self.signs.done.wait(rt) == 0 {
            return Seen::Waits;
        }
        Seen::GoesOn
    }

    fn seen_waiting<R: Clock, L: Locks>(&self, rt: &R, locks: &L) -> Seen {
        if self.signs.done.is_set() {
            return Seen::GoesOn;
        }
        for other in PLACES {
            if !self.row.holds(&self.cell, other) && !becomes_free(rt, locks, other) {
                return Seen::Holds(other);
            }
        }
        Seen::Waits
    }
}

// Whether a place becomes free, while the other session is where it waits.
fn becomes_free<R: Clock, L: Locks>(rt: &R, locks: &L, place: Place) -> bool {
    for _ in 0..MOST_TURNS {
        if locks.is_free(place) {
            return true;
        }
        thread::sleep(rt, Duration::from_millis(1));
    }
    false
}

// What is seen: at a node the gate holds who acts, once it comes there.
fn watched<R: Runs, M: Tested>(
    rt: &R,
    machine: &M,
    gate: &Watcher<'_, R>,
    watch: &Watch<'_>,
) -> Seen {
    let seen = match watch.place() {
        Place::Node(_) if watch.row.waits(&watch.cell) => {
            watch.signs.held.set();
            gate.await_one();
            watch.seen_waiting(rt, machine)
        }
        _ => machine.watched(rt, watch),
    };
    gate.open();
    seen
}

// The session that acts, once the place is held, or is about to be.
fn acted<R: Runs, M: Machine>(rt: &R, alloc: Global, machine: &M, watch: &Watch<'_>) -> M::Told {
    let Watch { signs, row, cell } = watch;
    let _left = signs.held.wait(rt);
    does(rt, alloc, machine, signs, row.act, row.after, Some(*cell))
}

// The session of a cell, which goes as its row says.
fn play<R: Runs, M: Tested + Sync>(
    rt: &R,
    alloc: Global,
    machine: &M,
    gate: &Watcher<'_, R>,
    row: Row,
    cell: Cell,
) -> M::Told {
    let signs = new_signs(cell.slot);
    let watch = Watch {
        signs: &signs,
        row,
        cell,
    };
    if let Place::Node(_) = cell.place {
        gate.shut(cell.place);
    }
    let (told, seen) = thread::join(
        rt,
        || acted(rt, alloc, machine, &watch),
        || watched(rt, machine, gate, &watch),
    );
    let wanted = if row.waits(&cell) {
        Seen::Waits
    } else {
        Seen::GoesOn
    };
    same!(rt; (cell, seen), (cell, wanted));
    told
}

// A row at each place, on each of its slots.
fn each_place<R: Runs, M: Tested + Sync>(
    rt: &R,
    stage: &Stage<'_, M, R>,
    row: Row,
    all: &mut Vec<M::Told>,
) {
    for slot in row.tried() {
        for place in PLACES {
            let cell = Cell {
                act: row.act,
                slot: *slot,
                place,
                traced: stage.audit.is_some(),
            };
            let before = does(
                rt,
                stage.alloc,
                &stage.machine,
                &new_signs(*slot),
                row.before,
                "",
                Some(cell),
            );
            all.push(before).expect(rt, "memory");
            all.push(play(rt, stage.alloc, &stage.machine, stage.draws, row, cell))
                .expect(rt, "memory");
        }
    }
}

// Each act on each of its slots, at each place.
pub fn each_held<R: Runs, M: Tested + Sync>(rt: &R, stage: Stage<'_, M, R>) {
    let mut all = Vec::new(stage.alloc);
    for (slot, lines, more) in [(0, BEGIN, FILES), (2, FILES, ""), (4, FILES, COPIES)] {
        let first = does(
            rt,
            stage.alloc,
            &stage.machine,
            &new_signs(slot),
            lines,
            more,
            None,
        );
        all.push(first).expect(rt, "memory");
    }
    for row in of_maps() {
        each_place(rt, &stage, row, &mut all);
    }
    for row in of_files() {
        each_place(rt, &stage, row, &mut all);
    }
    for row in of_others() {
        each_place(rt, &stage, row, &mut all);
    }
    let counts = closed(rt, stage, all).counts;
    same!(rt; (counts.total, counts.free, counts.rsvd), (PAGES, PAGES, 0));
}

const SIZES: Sizes<'static> = Sizes {
    frames: &[32, 32],
    page_bytes: 1024,
    slots: 5,
    places: 20_000,
    room: 100,
};

#[test]
fn each_act_waits_where_it_must_and_goes_on_elsewhere(rt: HostRuntime) {
    both(&rt, rt.alloc(), SIZES, Scene::Places);
}
