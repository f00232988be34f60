//! Who watches the locks.

/// Is told of each lock of a slot and of a node that is held, as soon as it is. A test can hold a thread there.
pub trait Gate {
    /// A slot's lock was taken.
    fn enter(&self, slot: u64) {}

    /// The lock of a node's frames was taken.
    fn frame(&self, node: u64) {}
}
