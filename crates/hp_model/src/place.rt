//! An index of a map.

/// Not mapped any more; or mapped, with whether its reservation was consumed, and its private copy.
#[derive(Drop)]
pub enum Place<C> {
    Gone,
    Live { consumed: bool, copy: Option<C> },
}
