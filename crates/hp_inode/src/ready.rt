//! An inode with the room to enter a range.
ghost use Rattle.std.specs.Prelude.{◌≡◌};
ghost use Rattle.hp_model.specs.files.File.{at_least, entered};
ghost use Rattle.hp_model.specs.Lists.{edit_range};

use crate::Inode;
use crate::indices::Indices;
use std::marker::Model;

/// A file's indices, and a range of them that can be entered with no memory. Contracts see its cells, which are as they
/// were, and the range.
pub struct ReadyInode {
    pub(crate) indices: Box<Indices>,
}

impl Model for ReadyInode {
    ghost use Rattle.hp_inode.specs.Ready.{Ready};

    ghost Value = { Ready };

    ghost view = { λ f. f.indices.value };
}

// What drops one calls this, and need not know what it holds.
impl Drop for ReadyInode {
    fn drop(self) {
        let ReadyInode { indices: _indices } = self;
    }
}

impl ReadyInode {
    /// Enters the range, which makes the file longer where it reaches past the end.
    pub fn enter(self) -> Inode
        ensures { result ≡ edit_range entered self.from self.to (at_least self.to self.cells) }
    {
        let ReadyInode { mut indices } = self;
        indices.enter();
        Inode::kept(indices)
    }

    /// Leaves the inode as it was.
    pub fn leave(self) -> Inode
        ensures { result ≡ self.cells }
    {
        let ReadyInode { mut indices } = self;
        indices.leave();
        Inode::kept(indices)
    }
}
