//! Pages of a range, which are filled when their node's lock is let go, with a trace and without one.

use crate::gates::Watcher;
use crate::machine::{Runs, Tested};
use crate::same::same;
use crate::stage::{Scene, Sizes, Stage, all_three, pages_left, traced, untraced};
use crate::talking::{Beside, Nothing, asks};
use std::process::Abort;
use std::sync::atomic::{AtomicU64, Ordering};
use std::thread;
use std::time::Clock;

/// One node of 129 pages as large as there are: to fill 128, 256 MiB, takes a hundred times as long as to store into one.
pub const LARGE: Sizes<'static> = Sizes {
    frames: &[129],
    page_bytes: 2_097_152,
    slots: 4,
    places: 100,
    room: 100,
};

// A file to be filled, and a map of a page on another slot.
const BEGIN: &[u8] =
    b"nr 129\nconnect 2 0\nmount 1 -\ncreate 1 a\nmount 2 -\ncreate 2 a\nmap 2 2 a 0 1 shared\n";

// Fills the file, and notes how many nanoseconds that took.
#[derive(Drop)]
struct Fills<'a, R> {
    draws: &'a Watcher<'a, R>,
    time: AtomicU64,
}

impl<R: Clock + Abort> Beside for Fills<'_, R> {
    fn sends(&self, _count: usize) -> bool {
        let begun = self.time.load(Ordering::SeqCst);
        let time = self.draws.now().saturating_sub(begun);
        self.time.store(time, Ordering::SeqCst);
        true
    }
}

// Stores into a page of the same node, once the others are being drawn.
#[derive(Drop)]
struct Stores<'a, R> {
    draws: &'a Watcher<'a, R>,
}

impl<R: Clock + Abort> Beside for Stores<'_, R> {
    fn sends(&self, count: usize) -> bool {
        count != 0 || self.draws.waits(0, 0)
    }
}

pub fn filled<R: Runs, M: Tested + Sync>(rt: &R, stage: Stage<'_, M, R>) {
    let Stage {
        machine,
        alloc,
        draws,
        ..
    } = &stage;
    let begun = asks(
        rt,
        *alloc,
        machine,
        &Nothing,
        BEGIN,
        "ok 129\nok\nok\nok\nok\nok\nok 1\n",
    );
    let fills = Fills {
        draws,
        time: AtomicU64::new(0),
    };
    let stores = Stores { draws };
    let (one, two) = thread::join(
        rt,
        || asks(
            rt,
            *alloc,
            machine,
            &fills,
            b"preallocate 1 a 0 128\n",
            "ok\n",
        ),
        || asks(
            rt,
            *alloc,
            machine,
            &stores,
            b"store 2 2 1 0 0 22\n",
            "ok\n",
        ),
    );
    let time = fills.time.load(Ordering::SeqCst);
    assert!(rt; draws.least() < time / 2, "the pages were filled first");
    let all = all_three(rt, stage.alloc, begun, one, two);
    same!(rt; pages_left(rt, stage, all), 129);
}

#[test]
fn a_range_is_filled_with_no_node_held(rt: HostRuntime) {
    traced(&rt, rt.alloc(), LARGE, Scene::Filled);
}

#[test]
fn a_range_is_filled_with_no_node_held_and_no_trace(rt: HostRuntime) {
    untraced(&rt, rt.alloc(), LARGE, Scene::Filled);
}
