//! Compares what a call answered with what is wanted.
use std::fmt::{Debug, Display};
use std::process::Abort;

/// Like `assert_eq!`, but by a call that promises nothing: what is compared is not carried through the rest of a test's proof.
/// A failure names the call, or has the note, in place of the line.
macro_rules! same {
    ($rt:expr; $answered:expr, $wanted:expr $(,)?) => {
        $crate::same::assert_same(&$rt, stringify!($answered), $answered, $wanted)
    };
    ($rt:expr; $answered:expr, $wanted:expr, $($note:tt)+) => {
        $crate::same::assert_same(&$rt, format_args!($($note)+), $answered, $wanted)
    };
}

pub(crate) use same;

pub fn assert_same<R: Abort, D: Display + Drop, T: PartialEq + Debug + Drop>(
    rt: &R,
    note: D,
    answered: T,
    wanted: T,
) {
    assert_eq!(rt; answered, wanted, "{note}");
}
