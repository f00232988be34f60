//! Steps that tests ask for, and what they are answered.

use crate::same::assert_same;
use hp_events::Parts;
use hp_model::answer::{Answer, Reply};
use hp_model::lent::Lent;
use hp_model::step::{Reserving, Sharing, Step};
use hp_sessions::Session;
use std::process::Abort;

/// Asks a session for a step, and compares its reply with what is wanted; with none named it is to be done. Nothing of it is carried
/// through a test. A failure names the step in place of its line.
macro_rules! ask {
    ($rt:expr, $session:expr; $step:expr) => {
        $crate::asking::done($rt, $session, stringify!($step), &$step)
    };
    ($rt:expr, $session:expr; $step:expr, $wanted:expr) => {
        $crate::asking::answers($rt, $session, stringify!($step), &$step, $wanted)
    };
}

pub(crate) use ask;

pub fn answers<R: Abort, P: Parts>(
    rt: &R,
    session: &mut Session<P>,
    name: &str,
    step: &Step<'_>,
    wanted: Reply,
) {
    assert_same(rt, name, session.call(step), wanted);
}

pub fn done<R: Abort, P: Parts>(rt: &R, session: &mut Session<P>, name: &str, step: &Step<'_>) {
    answers(rt, session, name, step, Ok(Answer::Done));
}

/// Total, Free, Rsvd and Surp.
pub fn counts<P: Parts>(session: &mut Session<P>) -> Option<[u64; 4]> {
    match session.call(&Step::Meminfo) {
        Ok(Answer::Numbers(counts)) => {
            Some([counts.total, counts.free, counts.rsvd, counts.surp])
        }
        _ => None,
    }
}

/// So many pages in the pool.
pub fn nr<R: Abort, P: Parts>(rt: &R, session: &mut Session<P>, pages: u64) {
    ask!(rt, session; Step::Nr { pages }, Ok(Answer::Number(pages)));
}

pub fn connect(task: u64, home: u64) -> Step<'static> {
    Step::Connect { task, home }
}

pub fn mount(slot: u64, options: &[u8]) -> Step<'_> {
    let options = Lent::new(options);
    Step::Mount { slot, options }
}

pub fn create(slot: u64, name: &[u8]) -> Step<'_> {
    let name = Lent::new(name);
    Step::Create { slot, name }
}

/// A map of so many pages of file a, from index 0 on, which are the file's, and reserved.
pub fn map_shared(task: u64, slot: u64, pages: u64) -> Step<'static> {
    Step::Map {
        task,
        slot,
        name: Lent::new(b"a"),
        from: 0,
        pages,
        sharing: Sharing::Shared,
        reserving: Reserving::Reserve,
    }
}

/// A store of these bytes at the first page of a task's first map on a slot.
pub fn store(task: u64, slot: u64, bytes: &[u8]) -> Step<'_> {
    Step::Store {
        task,
        slot,
        map: 1,
        index: 0,
        offset: 0,
        bytes: Lent::new(bytes),
    }
}
