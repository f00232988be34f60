//! Faults at indices that follow one another, which a session is asked for at once.

use crate::machine::{Runs, Tested};
use crate::same::same;
use crate::stage::{Scene, Sizes, Stage, all_three, pages_left, untraced};
use crate::talking::{Nothing, asks};

// Three pages of each of two nodes.
const SIZES: Sizes<'static> = Sizes {
    frames: &[3, 3],
    page_bytes: 1024,
    slots: 2,
    places: 100,
    room: 0,
};

// A task of node 0 with a map of all pages.
const BEGIN: &[u8] = b"nr 6\nconnect 1 0\ncreate 0 a\nmap 1 0 a 0 6 shared\n";

const FAULTS: &[u8] =
    b"fault 1 0 1 0 write\nfault 1 0 1 1 write\nfault 1 0 1 2 write\nfault 1 0 1 3 write\n\
fault 1 0 1 4 write\nfault 1 0 1 5 write\n";

// The first four are done in one hold of their slot, up to the first page of another node, and then the others.
pub fn followed<R: Runs, M: Tested + Sync>(rt: &R, stage: Stage<'_, M, R>) {
    let Stage {
        machine,
        alloc,
        draws,
        ..
    } = &stage;
    let begun = asks(rt, *alloc, machine, &Nothing, BEGIN, "ok 6\nok\nok\nok 1\n");
    draws.begin();
    let faulted = asks(
        rt,
        *alloc,
        machine,
        &Nothing,
        FAULTS,
        "ok\nok\nok\nok\nok\nok\n",
    );
    same!(rt; draws.slots(), 2);
    let ended = asks(
        rt,
        *alloc,
        machine,
        &Nothing,
        b"nodes\n",
        "text 2\n0 3 0 0\n1 3 0 0\n",
    );
    let all = all_three(rt, stage.alloc, begun, faulted, ended);
    same!(rt; pages_left(rt, stage, all), 6);
}

#[test]
fn faults_that_follow_each_other_take_one_hold(rt: HostRuntime) {
    untraced(&rt, rt.alloc(), SIZES, Scene::Followed);
}
