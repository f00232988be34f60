//! Pages that somebody holds.
ghost use Rattle.std.specs.Prelude.{◌≡◌, ◌+◌, ◌<◌, ◌≤◌, drop, length, take};
ghost use Rattle.std.specs.Borrow.{Lends, sem, Array, u8 as byte};
ghost use Rattle.hp_frames.specs.Frame.{rewritten};
ghost use Rattle.hp_model.specs.files.Page.{overwritten, zeros};
ghost use Rattle.hp_nodes.specs.Kept.{IsPage};

use hp_frames::Frame;
use hp_model::naming::{Naming, Pages};
use hp_permit::Quad;
use std::marker::Model;

pub(crate) type Marks<N> = Quad<Pages<N, 0>, Pages<N, 1>, Pages<N, 2>, Pages<N, 3>>;

/// A page of the pool that somebody holds: a frame, and a mark in its node's ledger. Contracts see its node and its bytes.
///
/// It can't be dropped: `NodeLists::put` takes it back, by way of the pool. Its type names the
/// ledgers, so it can only go back where it came from.
pub struct Page<N: Naming> {
    frame: Frame,
    mark: Marks<N>,
}

impl<N: Naming> Model for Page<N> {
    ghost use Rattle.hp_model.specs.files.Page.{Page};
    ghost use Rattle.hp_nodes.specs.Kept.{IsPage};

    ghost Value = { Page };

    ghost view = { λ p. record { node = p.frame.node; bytes = p.frame.bytes } };

    ghost invariant = { λ p. IsPage N.memory N.page_bytes p.frame p.mark };
}

impl<N: Naming> Page<N> {
    ghost use Rattle.hp_nodes.specs.contracts.page.Page.{the_row};

    pub(crate) fn new(frame: Frame, mark: Marks<N>) -> Self
        requires { IsPage N.memory N.page_bytes frame mark }
        ensures { result ≡ record { node = frame.node; bytes = frame.bytes } }
    {
        Page { frame, mark }
    }

    pub(crate) fn into_parts(self) -> (Frame, Marks<N>)
        ensures node { result.0.node ≡ self.node }
        ensures kept { IsPage N.memory N.page_bytes result.0 result.1 }
    {
        let Page { frame, mark } = self;
        (frame, mark)
    }

    /// The node that the page goes back to.
    pub fn node(&self) -> usize
        ensures node { result ≡ self.now.node }
        ensures below { result < 4 }
    {
        self.frame.node()
    }

    /// The bytes, as many as the machine's pages have.
    pub fn bytes(&self) -> &[u8]
        ensures bytes { result.now ≡ self.now.bytes }
        ensures length { length result.now ≡ N.page_bytes }
    {
        self.frame.bytes()
    }

    /// The bytes, for writing. The page stays of its node.
    pub fn bytes_mut(&mut self) -> &mut [u8]
        ensures bytes { result.now ≡ self.old.bytes }
        ensures length { length result.now ≡ N.page_bytes }
        ensures* writes_back { sem 𝓛
            (Lends (the_row N.row N.Naming) (Array byte 0) self.entry result
            (λ w. record self.old { bytes = rewritten self.old.bytes w })) }
    {
        self.frame.bytes_mut()
    }

    /// Writes over the bytes from an offset on.
    pub fn write(&mut self, offset: usize, bytes: &[u8])
        requires { offset + length bytes.now ≤ N.page_bytes }
        ensures { self.new ≡ overwritten offset bytes.now self.old }
    {
        self.frame.write(offset, bytes);
    }

    /// The bytes of another page in place of its own. What is known to be zeros in both is not written again.
    pub fn copy_from(&mut self, other: &Page<N>)
        ensures { self.new ≡ record self.old { bytes = other.now.bytes } }
    {
        self.frame.copy_from(&other.frame);
    }

    /// The bytes from an offset on fill a room. Where all of them are known to be zeros, none is read.
    pub fn copy_to(&self, offset: usize, room: &mut [u8])
        requires { offset + length room.old ≤ N.page_bytes }
        ensures { room.new ≡ take (length room.old) (drop offset self.now.bytes) }
    {
        self.frame.copy_to(offset, room);
    }

    /// Zeros in place of what the last holder wrote. A page that was taken has its last holder's bytes.
    pub fn zero(&mut self)
        ensures { self.new ≡ record self.old { bytes = zeros N.page_bytes } }
    {
        self.frame.zero();
    }
}
