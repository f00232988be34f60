//! A gate that holds nobody.

use hp_locked::Gate;

/// A gate that stands open.
#[derive(Clone, Copy, Debug)]
pub struct Open;

impl Gate for Open {}
