//! A list of steps at a machine of two nodes of four frames each, which gives back all that it held.
ghost use Rattle.hp_model.specs.machine.Ready.{IsReadyMachine};

use crate::same::same;
use crate::trial::{Trial, tried};
use hp_model::answer::{Answer, Counts};
use hp_model::naming::Naming;
use hp_model::refusal::Refusal;
use hp_model::step::Step;
use hp_pool::Blanks;
use hp_system::System;
use std::alloc::Global;
use std::process::Abort;

// A pool with all its pages free.
fn all_free(pages: u64) -> Counts {
    Counts {
        total: pages,
        free: pages,
        rsvd: 0,
        surp: 0,
        nr: pages,
        overcommit: 0,
    }
}

// Steps in a list are answered one after another.
fn runs<N: Naming, R: Abort>(rt: &R, alloc: Global, system: &mut System<N>)
    requires { IsReadyMachine system.old }
    ensures { IsReadyMachine system.new }
{
    let steps = [
        Step::Connect { task: 9, home: 0 },
        Step::Nr { pages: 2 },
        Step::Exit { task: 9 },
        Step::Exit { task: 9 },
    ];
    let replies = system.run(alloc, &steps).expect(rt, "memory");
    let expected = [
        Ok(Answer::Done),
        Ok(Answer::Number(2)),
        Ok(Answer::Done),
        Err(Refusal::NoSuchTask),
    ];
    assert!(rt; replies.as_slice() == expected.as_slice());
}

// A machine that is closed once it did steps in a list.
#[derive(Clone, Copy, Drop)]
struct AList;

impl Trial for AList {
    #[tactic(auto, using(hp_system::proofs::Ready::ready_pool))]
    fn run<N: Naming, R: Abort>(self, rt: &R, alloc: Global, blanks: Blanks) {
        let mut system = System::<N>::new(alloc, &[4, 4], 1024, 2, blanks).expect(rt, "memory");
        runs(rt, alloc, &mut system);
        same!(rt; system.close(), all_free(2));
    }
}

#[test]
fn steps(rt: HostRuntime) {
    tried(&rt, rt.alloc(), AList);
}
