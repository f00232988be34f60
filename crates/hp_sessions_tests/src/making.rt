//! Single pages, each of which is filled when its node's lock is let go, with a trace and without one.

use crate::filling::LARGE;
use crate::gates::Watcher;
use crate::machine::{Runs, Tested};
use crate::same::same;
use crate::stage::{Scene, Sizes, Stage, all_three, pages_left, traced, untraced};
use crate::talking::{Beside, Client, Nothing, asks, goes_well};
use hp_serving::Machine;
use std::alloc::Global;
use std::process::Abort;
use std::sync::Wait;
use std::sync::atomic::{AtomicU64, Ordering};
use std::thread;
use std::time::Clock;

// Two tasks, each with a slot of its own and a map there, at which nothing is reserved. Its pages are as large as there are: to
// fill one takes far longer than to draw it.
const BEGIN: &[u8] =
    b"nr 129\nconnect 1 0\nmount 1 -\ncreate 1 a\nmap 1 1 a 0 90 shared noreserve\n\
connect 2 0\nmount 2 -\ncreate 2 a\nmap 2 2 a 0 90 shared noreserve\n";

// Makes so many pages of a task, one after another, until two are drawn in less time than this; or each as soon as the other
// drew one.
#[derive(Drop)]
struct Makes<'a, R> {
    draws: &'a Watcher<'a, R>,
    time: u64,
    task: u8,
    most: usize,
    follows: bool,
    index: AtomicU64,
}

impl<R: Clock + Abort> Beside for Makes<'_, R> {
    fn sends(&self, count: usize) -> bool {
        let _before = self.index.fetch_add(1, Ordering::SeqCst);
        if count >= self.most {
            return false;
        }
        if self.follows {
            return self.draws.waits(self.draws.draws(), self.time);
        }
        self.draws.least() >= self.time
    }

    fn piece(&self, _count: usize) -> usize {
        0
    }

    fn byte(&self, byte: u8) -> u8 {
        let index = self.index.load(Ordering::SeqCst);
        match byte {
            b'T' => self.task,
            b'X' => b'0' + (index / 10 % 10) as u8,
            b'Y' => b'0' + (index % 10) as u8,
            other => other,
        }
    }
}

fn drawing<'a, R: Clock + Abort>(
    draws: &'a Watcher<'a, R>,
    task: u8,
    most: usize,
    time: u64,
    follows: bool,
) -> Makes<'a, R> {
    Makes {
        draws,
        time,
        task,
        most,
        follows,
        index: AtomicU64::new(if most < 10 { 0 } else { 20 }),
    }
}

// A session that does so.
fn pages_of<R: Wait + Clock + Abort, M: Machine>(
    rt: &R,
    alloc: Global,
    machine: &M,
    by: &Makes<'_, R>,
) -> M::Told {
    let mut client = Client {
        pieces: &[b"fault T T 1 XY write\n"],
        sent: 0,
        fails: false,
        by,
    };
    goes_well(rt, alloc, machine, &mut client, "a page")
}

// One session makes eight pages alone. Then two draw pages in a quarter of the time in which it made one.
pub fn made<R: Runs, M: Tested + Sync>(rt: &R, stage: Stage<'_, M, R>) {
    let Stage {
        machine,
        alloc,
        draws,
        ..
    } = &stage;
    let begun = asks(
        rt,
        *alloc,
        machine,
        &Nothing,
        BEGIN,
        "ok 129\nok\nok\nok\nok 1\nok\nok\nok\nok 1\n",
    );
    let alone = pages_of(rt, *alloc, machine, &drawing(draws, b'1', 8, 0, false));
    let time = draws.least() / 4;
    draws.begin();
    let one = drawing(draws, b'1', 56, time, false);
    let two = drawing(draws, b'2', 56, time, true);
    let (one, two) = thread::join(
        rt,
        || pages_of(rt, *alloc, machine, &one),
        || pages_of(rt, *alloc, machine, &two),
    );
    assert!(rt; draws.least() < time, "pages are filled one by one");
    let mut all = all_three(rt, stage.alloc, begun, alone, one);
    all.push(two).expect(rt, "memory");
    same!(rt; pages_left(rt, stage, all), 129);
}

// Each page takes places of its own.
const SIZES: Sizes<'static> = Sizes {
    places: 1000,
    room: 1000,
    ..LARGE
};

#[test]
fn a_page_is_filled_with_no_node_held(rt: HostRuntime) {
    traced(&rt, rt.alloc(), SIZES, Scene::Made);
}

#[test]
fn a_page_is_filled_with_no_node_held_and_no_trace(rt: HostRuntime) {
    untraced(&rt, rt.alloc(), SIZES, Scene::Made);
}
