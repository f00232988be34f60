//! Full trails, a full room, and what a session left to others.

use crate::machine::{Apart, Runs, Tested};
use crate::same::same;
use crate::stage::{SMALL, Scene, Sizes, Stage, list_of, traced};
use crate::talking::{Client, Nothing, asks, replies, same_text};
use hp_closing::audit;
use std::process::Abort;

// How many receipts and events there are of one run, and how many entries of tasks.
fn lengths<R: Abort, M: Tested>(
    rt: &R,
    stage: Stage<'_, M, R>,
    sessions: Vec<M::Told>,
) -> [usize; 3] {
    let Stage {
        machine,
        alloc,
        draws: _,
        audit: _,
    } = stage;
    let Apart {
        counts: _,
        trails,
        in_order,
        sessions: count,
    } = machine.apart();
    same!(rt; (in_order, count), (true, sessions.len() as u64));
    let trails = trails.expect(rt, "no trails");
    let mut told = Vec::new(alloc);
    let mut receipts = 0usize;
    for session in sessions {
        let one = M::receipts(session);
        receipts = receipts.saturating_add(one.len());
        told.push(one).expect(rt, "memory");
    }
    let events = audit(alloc, &trails, told).expect(rt, "trails that are joined");
    [receipts, events.len(), trails.tasks.len()]
}

/// One session of these lines gets these replies; after it there are so many receipts, events and entries of tasks.
#[derive(Clone, Copy, Drop)]
pub struct Fills<'a> {
    lines: &'a [u8],
    replies: &'a str,
    wanted: [usize; 3],
}

impl Fills<'_> {
    pub fn play<R: Runs, M: Tested + Sync>(self, rt: &R, stage: Stage<'_, M, R>) {
        let told = asks(
            rt,
            stage.alloc,
            &stage.machine,
            &Nothing,
            self.lines,
            self.replies,
        );
        let all = list_of(rt, stage.alloc, told);
        same!(rt; lengths(rt, stage, all), self.wanted);
    }
}

// Each trail has two places: of tasks and of the pool all is refused then but what gives back.
const TWO_PLACES: Fills<'static> = Fills {
    lines: b"connect 1 0\nconnect 2 0\nconnect 3 0\nmeminfo\nnr 4\nnr 5\nmeminfo\nattach 2\n\
exit 1\nexit 1\n",
    replies: "ok\nok\nerror 23 TraceFull\ntext 6\n\
HugePages_Total:       0\nHugePages_Free:        0\n\
HugePages_Rsvd:        0\nHugePages_Surp:        0\nHugepagesize:          1 kB\n\
Hugetlb:               0 kB\n\
ok 4\nerror 23 TraceFull\nerror 23 TraceFull\nerror 23 TraceFull\nok\nerror 23 TraceFull\n",
    wanted: [5, 5, 3],
};

// With room for one receipt the second step is refused before its event.
const ROOM_FOR_ONE: Fills<'static> = Fills {
    lines: b"connect 1 0\nconnect 2 0\n",
    replies: "ok\nerror 23 TraceFull\n",
    wanted: [1, 1, 1],
};

// A task with a map and a page, which its session leaves as its reader fails.
const LEAVES: &[u8] = b"nr 4\nconnect 1 0\nanon 1 1 private\nstore 1 0 1 0 0 5a\n";

// Another session finds all that, and ends it.
const FINDS: &[u8] = b"attach 1\nload 1 0 1 0 0 1\nexit 1\nmeminfo\n";

const FOUND: &str = "ok 0\nok 5a\nok\ntext 6\nHugePages_Total:       4\nHugePages_Free:        4\n\
HugePages_Rsvd:        0\nHugePages_Surp:        0\nHugepagesize:          1 kB\n\
Hugetlb:               4 kB\n";

pub fn left<R: Runs, M: Tested + Sync>(rt: &R, stage: Stage<'_, M, R>) {
    let mut client = Client {
        pieces: &[LEAVES],
        sent: 0,
        fails: true,
        by: &Nothing,
    };
    let (one, text) = replies(rt, stage.alloc, &stage.machine, &mut client);
    same_text(rt, &text, "ok 4\nok\nok 1\nok\n");
    let two = asks(rt, stage.alloc, &stage.machine, &Nothing, FINDS, FOUND);
    let mut all = list_of(rt, stage.alloc, one);
    all.push(two).expect(rt, "memory");
    same!(rt; lengths(rt, stage, all), [12, 12, 6]);
}

const SIZES: Sizes<'static> = Sizes {
    places: 16,
    room: 16,
    ..SMALL
};

#[test]
fn full_trails_refuse_all_but_what_gives_back(rt: HostRuntime) {
    let sizes = Sizes { places: 2, ..SIZES };
    traced(&rt, rt.alloc(), sizes, Scene::Fills(TWO_PLACES));
}

#[test]
fn a_full_room_refuses_a_step_with_no_event(rt: HostRuntime) {
    let sizes = Sizes { room: 1, ..SIZES };
    traced(&rt, rt.alloc(), sizes, Scene::Fills(ROOM_FOR_ONE));
}

#[test]
fn what_a_session_left_is_there_for_another(rt: HostRuntime) {
    traced(&rt, rt.alloc(), SIZES, Scene::Left);
}
