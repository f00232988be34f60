//! A stock of three frames of eight bytes, at node 1.
use crate::same::same;
use hp_frames::{Frame, Stock};
use std::alloc::AllocError;
use std::process::Abort;
use std::test::Fail;

fn holds<R: Abort>(rt: &R, frame: &Frame, bytes: [u8; 8]) {
    same!(rt; frame.node(), 1);
    same!(rt; frame.bytes(), bytes.as_slice());
}

// Each frame keeps its bytes, in whatever order the frames come back, and is zeros again only once it is zeroed. The stock, of
// which one was never taken, gives its memory back.
#[test]
fn frames_keep_their_bytes(rt: HostRuntime) -> Result<(), AllocError> {
    let mut stock = Stock::new(rt.alloc(), 1, 3, 8)?;
    let mut first = stock.take();
    let mut second = stock.take();
    holds(&rt, &first, [0; 8]);
    holds(&rt, &second, [0; 8]);
    first.write(0, &[1, 2]);
    second.bytes_mut()[7] = 9;
    stock.put(second);
    stock.put(first);
    let mut first = stock.take();
    let second = stock.take();
    holds(&rt, &first, [1, 2, 0, 0, 0, 0, 0, 0]);
    holds(&rt, &second, [0, 0, 0, 0, 0, 0, 0, 9]);
    first.zero();
    holds(&rt, &first, [0; 8]);
    stock.put(second);
    stock.put(first);
    Ok(())
}

#[test]
fn too_much_memory_is_refused(rt: HostRuntime) {
    assert!(rt; Stock::new(rt.alloc(), 1, 2, 1 << 62).is_err());
    assert!(rt; Stock::new(rt.alloc(), 1, 65536, 1 << 46).is_err());
}
