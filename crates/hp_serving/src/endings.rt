//! Connections that ended: told by those who serve them to the one who opens others.
use crossbeam_channel::{Receiver, Sender};
use std::alloc::{AllocError, Global};
use std::sync::Wait;
use std::time::{Clock, Duration};

/// Where it is told that a connection ended.
#[derive(Drop)]
pub struct Endings {
    from: Receiver<(), Global>,
}

impl Endings {
    /// Waits until one ended that was not told of before, but no longer than so many milliseconds.
    pub fn wait<R: Wait + Clock>(&self, rt: &R, most: u64) {
        let _told = self.from.recv_timeout(rt, Duration::from_millis(most));
    }
}

/// Where it is told from.
#[derive(Drop)]
pub(crate) struct Teller {
    to: Sender<(), Global>,
}

impl Teller {
    /// Tells that a connection ended. Where that was told and not heard yet, once is enough.
    pub(crate) fn tell<R: Wait>(&self, rt: &R) {
        let _full = self.to.try_send(rt, ());
    }
}

/// Both sides. Refused where memory is.
pub(crate) fn pair(alloc: Global) -> Result<(Teller, Endings), AllocError> {
    let Ok((to, from)) = crossbeam_channel::bounded(alloc, 1) else {
        return Err(AllocError);
    };
    Ok((Teller { to }, Endings { from }))
}
