//! Copies of bytes and of names, for a trail beside a caller.
ghost use Rattle.std.specs.Prelude.{◌≡◌, IfOk};

use crate::bytes::Bytes;
use crate::names::Names;
use std::alloc::{AllocError, Global};

/// A copy of bytes.
pub fn copied_bytes(alloc: Global, bytes: &Bytes) -> Result<Bytes, AllocError>
    ensures { IfOk result (λ copy. copy ≡ bytes.now) }
{
    Bytes::copied(alloc, bytes.as_slice())
}

/// A copy of names.
pub fn copied_names(alloc: Global, names: &Names) -> Result<Names, AllocError>
    ensures { IfOk result (λ copy. copy ≡ names.now) }
{
    let mut copy = Vec::with_capacity(alloc, names.as_slice().len())?;
    for name in names.as_slice() {
        copy.push(copied_bytes(alloc, name)?)?;
    }
    Ok(Names::new(copy))
}
