//! Many sessions of random lines at once.

use crate::machine::{Runs, Tested};
use crate::stage::{SMALL, Scene, Sizes, Stage, closed, traced, untraced};
use crate::talking::{Beside, Client, replies};
use std::cell::Cell;
use std::thread;

const LINES: usize = 1500;

// A session draws each line from these, and for each capital a sign: of a task, a slot, a map, an index, a name, a node, or a
// number of pages.
const DRAWN: [&[u8]; 40] = [
    b"fault T S M I write\n",
    b"fault T S M I read\n",
    b"load T S M I 0 4\n",
    b"load T S M I 0 4\n",
    b"store T S M I 0 78797a\n",
    b"store T S M I 0 78797a\n",
    b"store T S M I 0 78797a\n",
    b"store T S M I 0 78797a\n",
    b"unmap T S M 0 1\n",
    b"unmap T S M 1 3\n",
    b"map T S N 0 1 shared\n",
    b"map T S N 1 2 shared\n",
    b"map T S N 0 2 shared noreserve\n",
    b"map T S N 0 2 private\n",
    b"map T S N 1 1 private\n",
    b"map T S N 0 2 private noreserve\n",
    b"create S N\n",
    b"create S N\n",
    b"create S N\n",
    b"unlink S N\n",
    b"truncate S N I\n",
    b"punch S N 0 2\n",
    b"stat S N\n",
    b"ls S\n",
    b"nr P\n",
    b"nr P\n",
    b"overcommit I\n",
    b"meminfo\n",
    b"nodes\n",
    b"mount S -\n",
    b"mount S size=3K,min_size=1K\n",
    b"remount S nr_inodes=2\n",
    b"remount S size=3K,min_size=1K\n",
    b"umount S\n",
    b"exit T\n",
    b"attach T\n",
    b"connect T H\n",
    b"anon T 1 shared\n",
    b"anon T 2 private\n",
    b"fork T T\n",
];

// Numbers that look random: the upper halves of a linear congruence.
#[derive(Drop)]
struct Dice {
    state: Cell<u64>,
}

impl Dice {
    fn below(&self, most: u64) -> u64 {
        let x = self.state.get();
        self.state
            .set(x.wrapping_mul(6_364_136_223_846_793_005).wrapping_add(1));
        x / 4_294_967_296 % most.max(1)
    }

    fn sign(&self, first: u8, most: u64) -> u8 {
        first.saturating_add((self.below(most) % 10) as u8)
    }
}

impl Beside for Dice {
    fn sends(&self, count: usize) -> bool {
        count < LINES
    }

    fn piece(&self, _count: usize) -> usize {
        self.below(40) as usize
    }

    fn byte(&self, byte: u8) -> u8 {
        match byte {
            b'T' => self.sign(b'1', 8),
            b'S' => self.sign(b'0', 4),
            b'M' => self.sign(b'1', 2),
            b'I' => self.sign(b'0', 3),
            b'N' => self.sign(b'a', 4),
            b'H' => self.sign(b'0', 2),
            b'P' => self.sign(b'0', 9),
            other => other,
        }
    }
}

const SEEDS: [u64; 8] = [
    88_172_645_463_325_252,
    88_172_645_463_325_329,
    88_172_645_463_326_486,
    88_172_645_463_326_563,
    2_463_534_242,
    2_463_534_319,
    2_463_535_476,
    2_463_535_553,
];

pub fn eight<R: Runs, M: Tested + Sync>(rt: &R, stage: Stage<'_, M, R>) {
    let Stage { machine, alloc, .. } = &stage;
    let each = |at: usize| {
        let dice = Dice {
            state: Cell::new(*SEEDS.get(at).unwrap_or(&1)),
        };
        let mut client = Client {
            pieces: &DRAWN,
            sent: 0,
            fails: false,
            by: &dice,
        };
        let (told, _text) = replies(rt, *alloc, machine, &mut client);
        told
    };
    let all = thread::map_indices(rt, *alloc, 8, &each).expect(rt, "memory");
    let _closed = closed(rt, stage, all);
}

const SIZES: Sizes<'static> = Sizes {
    places: 200_000,
    room: 20_000,
    ..SMALL
};

#[test]
fn eight_sessions_with_a_trace(rt: HostRuntime) {
    traced(&rt, rt.alloc(), SIZES, Scene::Eight);
}

#[test]
fn eight_sessions_without_a_trace(rt: HostRuntime) {
    untraced(&rt, rt.alloc(), SIZES, Scene::Eight);
}
