//! Compares what a call answered with what is wanted.
use std::fmt::Debug;
use std::process::Abort;

/// Like `assert_eq!`, but by a call that promises nothing: what is compared is not carried through the rest of a test's proof.
/// A failure names the call in place of its line.
macro_rules! same {
    ($rt:expr; $answered:expr, $wanted:expr $(,)?) => {
        $crate::same::assert_same(&$rt, stringify!($answered), $answered, $wanted)
    };
}

pub(crate) use same;

pub fn assert_same<R: Abort, T: PartialEq + Debug + Drop>(
    rt: &R,
    call: &str,
    answered: T,
    wanted: T,
) {
    assert_eq!(rt; answered, wanted, "{call}");
}
