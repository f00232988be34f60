//! Where a lock lies.

use crate::same::same;
use hp_order::LineLock;
use std::mem::{align_of, size_of};

// Its word and the next 8 bytes then never lie on two cache lines.
#[test]
fn sixteen_divides_the_address_of_a_lock(rt: HostRuntime) {
    same!(rt; align_of::<LineLock<u64>>(), 16);
    same!(rt; size_of::<LineLock<u64>>() % 16, 0);
}
