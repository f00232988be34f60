//! Two sessions, of which one is held under a lock while the other goes on, with a trace and without one.

use crate::asking::{ask, connect, counts, create, map_shared, mount, nr, store};
use crate::gates::Place;
use crate::machine::{Runs, Script, Tested};
use crate::same::same;
use crate::stage::{SMALL, Scene, Stage, all_three, both, pages_left};
use hp_events::Parts;
use hp_model::answer::Answer;
use hp_model::step::Step;
use hp_sessions::Session;
use std::process::Abort;
use std::thread;

// What a session asks for: two tasks, each with a slot of its own and a map of a page there; a store, and the counts; or a store,
// a task that is found, nr, a file, and the counts.
#[derive(Clone, Copy, Drop)]
enum Asks {
    Begins,
    Stores,
    GoesOn([u64; 4]),
}

fn begins<R: Abort, P: Parts>(rt: &R, session: &mut Session<P>) {
    nr(rt, session, 4);
    for task in 1..3 {
        ask!(rt, session; connect(task, task - 1));
        ask!(rt, session; mount(task, b"-"));
        ask!(rt, session; create(task, b"a"));
        ask!(rt, session; map_shared(task, task, 1), Ok(Answer::MapNo(1)));
    }
}

fn goes_on<R: Abort, P: Parts>(rt: &R, session: &mut Session<P>) {
    ask!(rt, session; store(2, 2, &[0x22]));
    ask!(rt, session; connect(3, 1));
    ask!(rt, session; Step::Attach { task: 3 }, Ok(Answer::Home(1)));
    nr(rt, session, 4);
    ask!(rt, session; create(2, b"z"));
}

impl Script for Asks {
    fn run<R: Abort, P: Parts>(self, rt: &R, session: &mut Session<P>) {
        let wanted = match self {
            Asks::Begins => {
                begins(rt, session);
                [4, 4, 2, 0]
            }
            Asks::Stores => {
                ask!(rt, session; store(1, 1, &[0x11]));
                [4, 2, 0, 0]
            }
            Asks::GoesOn(wanted) => {
                goes_on(rt, session);
                wanted
            }
        };
        same!(rt; counts(session), Some(wanted));
    }
}

// The first session is held at a place as it stores, while the second finishes: these counts are told there.
#[derive(Clone, Copy, Drop)]
pub struct HeldAt {
    place: Place,
    wanted: [u64; 4],
}

impl HeldAt {
    pub fn play<R: Runs, M: Tested + Sync>(self, rt: &R, stage: Stage<'_, M, R>) {
        let HeldAt { place, wanted } = self;
        let Stage { machine, draws, .. } = &stage;
        let begun = machine.steps(rt, Asks::Begins);
        draws.shut(place);
        let (one, two) = thread::join(
            rt,
            || machine.steps(rt, Asks::Stores),
            || {
                draws.await_one();
                let two = machine.steps(rt, Asks::GoesOn(wanted));
                draws.open();
                two
            },
        );
        assert!(rt; draws.left() > 0, "the second session was held too");
        let all = all_three(rt, stage.alloc, begun, one, two);
        same!(rt; pages_left(rt, stage, all), 4);
    }
}

const AT_A_SLOT: HeldAt = HeldAt {
    place: Place::Slot(1),
    wanted: [4, 3, 1, 0],
};

const AT_A_NODE: HeldAt = HeldAt {
    place: Place::Node(0),
    wanted: [4, 2, 0, 0],
};

#[test]
fn a_slot_that_is_held_holds_no_other(rt: HostRuntime) {
    both(&rt, rt.alloc(), SMALL, Scene::Held(AT_A_SLOT));
}

#[test]
fn a_node_that_is_held_holds_no_other(rt: HostRuntime) {
    both(&rt, rt.alloc(), SMALL, Scene::Held(AT_A_NODE));
}
