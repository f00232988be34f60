//! What a thread waits for that is no lock.

use crate::rest::Rest;
use crossbeam_channel::{Receiver, RecvError};
use std::alloc::Global;
use std::sync::Wait;

/// Waits for a message. The thread holds nothing meanwhile.
pub fn receive<T: Drop, R: Wait>(
    _rest: &Rest,
    rt: &R,
    from: &Receiver<T, Global>,
) -> Result<T, RecvError> {
    from.recv(rt)
}
