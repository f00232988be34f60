//! A frame: the memory of one huge page.
ghost use Rattle.std.specs.Prelude.{◌≡◌, ◌+◌, ◌≤◌, ◌++◌, drop, length, min, take, vec_capacity, IsTrue};
ghost use Rattle.std_alloc.specs.Vec.{vec_ptr};
ghost use Rattle.std.specs.Borrow.{Lends, sem, Array, u8 as byte};
ghost use Rattle.hp_model.specs.files.Page.{zeros};
ghost use Rattle.hp_frames.specs.Frame.{AreZerosFrom, AreZerosUpTo, overwritten, rewritten};

use crate::lodging::{Lease, house, vacate};
use linked_list_allocator::Block;
use std::marker::Model;
use std_alloc::vec::Lodged;

/// The memory of one huge page, a part of its node's block. Contracts see its node, the block and its bytes.
///
/// It can't be dropped: `Stock::put` takes it back.
pub struct Frame {
    bytes: Vec<u8, Lodged>,
    lease: Lease,
    // how many frames of the block were cut before
    number: u32,
    node: u8,
    // the bytes before the first of these and from the second on are known to be zeros
    start: usize,
    written: usize,
}

impl Model for Frame {
    ghost use Rattle.std.specs.Prelude.{◌≡◌, ◌≤◌, length, vec_capacity};
    ghost use Rattle.std_alloc.specs.Vec.{vec_ptr};
    ghost use Rattle.hp_frames.specs.Frame.{Frame, AreZerosFrom, AreZerosUpTo};

    ghost Value = { Frame };

    ghost view = { λ f. record { node = f.node; memory = f.lease.region; bytes = f.bytes.items } };

    ghost invariant = { λ f. (vec_ptr f.bytes ≡ f.lease.ptr) × (vec_capacity f.bytes ≡ f.lease.size)
        × (f.written ≤ length f.bytes.items) × AreZerosFrom f.written f.bytes.items
        × AreZerosUpTo f.start f.bytes.items };
}

impl Frame {
    ghost use Rattle.hp_frames.specs.contracts.frame.Frame.{the_row};

    /// A frame of zeros.
    pub(crate) fn new(block: Block, number: u32, node: u8, page_bytes: usize) -> Self
        requires { page_bytes ≤ block.size }
        ensures { result ≡ record { node = node; memory = block.region; bytes = zeros page_bytes } }
    {
        let (mut bytes, lease) = house(block);
        while bytes.len() < page_bytes {
            bytes.push_reserved(0);
        }
        Frame {
            bytes,
            lease,
            number,
            node,
            start: page_bytes,
            written: 0,
        }
    }

    pub(crate) fn into_block(self) -> Block
        ensures { result.region ≡ self.memory }
    {
        let Frame {
            bytes,
            lease,
            number: _,
            node: _,
            start: _,
            written: _,
        } = self;
        vacate(bytes, lease)
    }

    /// Spends it. Its memory can't be used any more.
    pub fn close(self) {
        let _spent = self.into_block().into_raw_parts();
    }

    /// The order in which the block's frames were cut.
    pub(crate) fn number(&self) -> u32 {
        self.number
    }

    pub fn node(&self) -> usize
        ensures { result ≡ self.now.node }
    {
        usize::from(self.node)
    }

    pub fn bytes(&self) -> &[u8]
        ensures { result.now ≡ self.now.bytes }
    {
        &self.bytes
    }

    /// The bytes, for writing.
    pub fn bytes_mut(&mut self) -> &mut [u8]
        ensures bytes { result.now ≡ self.old.bytes }
        ensures* writes_back { sem 𝓛
            (Lends the_row (Array byte 0) self.entry result
            (λ w. record self.old { bytes = rewritten self.old.bytes w })) }
    {
        self.start = 0;
        self.written = self.bytes.len();
        &mut self.bytes
    }

    /// Writes over the bytes from an offset on.
    pub fn write(&mut self, offset: usize, bytes: &[u8])
        requires { offset + length bytes.now ≤ length self.old.bytes }
        ensures { self.new ≡ overwritten offset bytes.now self.old }
    {
        self.written = overwrite(&mut self.bytes, offset, bytes, self.start, self.written);
        self.start = self.start.min(offset);
    }

    /// The bytes of another frame in place of its own. Bytes that are known to be zeros in both are not written again.
    #[tactic(auto, using(crate::proofs::Zeros::zeros_behind))]
    pub fn copy_from(&mut self, other: &Frame)
        requires { length other.now.bytes ≡ length self.old.bytes }
        ensures { self.new ≡ record self.old { bytes = other.now.bytes } }
    {
        let end = self.written.max(other.written);
        let start = self.start.min(other.start).min(end);
        copy_between(&mut self.bytes, &other.bytes, start, end);
        self.start = other.start;
        self.written = other.written;
    }

    // Whether so many bytes from an offset on are known to be zeros.
    #[tactic(auto, using(crate::proofs::Zeros::zeros_part, crate::proofs::Zeros::zeros_early))]
    fn are_zeros(&self, offset: usize, count: usize) -> bool
        requires { offset + count ≤ length self.now.bytes }
        ensures { IsTrue result → take count (drop offset self.now.bytes) ≡ zeros count }
    {
        self.written <= offset || offset + count <= self.start
    }

    /// The bytes from an offset on fill a room. Where all of them are known to be zeros, none is read.
    pub fn copy_to(&self, offset: usize, room: &mut [u8])
        requires { offset + length room.old ≤ length self.now.bytes }
        ensures { room.new ≡ take (length room.old) (drop offset self.now.bytes) }
    {
        if self.are_zeros(offset, room.len()) {
            room.fill(0);
        } else {
            room.copy_from_slice(&self.bytes[offset..offset + room.len()]);
        }
    }

    /// Zeros in place of all bytes. Bytes that are known to be zeros are not written again.
    pub fn zero(&mut self)
        ensures { self.new ≡ record self.old { bytes = zeros (length self.old.bytes) } }
    {
        zero_between(&mut self.bytes, self.start.min(self.written), self.written);
        self.start = self.bytes.len();
        self.written = 0;
    }
}

// Other bytes from an offset on. Answers from where on all are zeros then; those before the offset that were zeros still are.
fn overwrite(to: &mut [u8], offset: usize, from: &[u8], start: usize, written: usize) -> usize
    requires fits { offset + length from.now ≤ length to.old }
    requires within { written ≤ length to.old }
    requires early { AreZerosUpTo start to.old }
    requires zeros { AreZerosFrom written to.old }
    ensures bytes { to.new ≡ take offset to.old ++ from.now
        ++ drop (offset + length from.now) to.old }
    ensures within { result ≤ length to.new }
    ensures early { AreZerosUpTo (min start offset) to.new }
    ensures zeros { AreZerosFrom result to.new }
{
    let end = offset + from.len();
    to[offset..end].copy_from_slice(from);
    written.max(end)
}

// The bytes of another list, both of which are zeros before a part and behind it.
fn copy_between(to: &mut [u8], from: &[u8], start: usize, end: usize)
    requires same { length from.now ≡ length to.old }
    requires order { start ≤ end }
    requires within { end ≤ length to.old }
    requires to_early { AreZerosUpTo start to.old }
    requires to { AreZerosFrom end to.old }
    requires from_early { AreZerosUpTo start from.now }
    requires from { AreZerosFrom end from.now }
    ensures { to.new ≡ from.now }
{
    to[start..end].copy_from_slice(&from[start..end]);
}

// Zeros, where all before a part and behind it are.
fn zero_between(bytes: &mut [u8], start: usize, end: usize)
    requires order { start ≤ end }
    requires within { end ≤ length bytes.old }
    requires early { AreZerosUpTo start bytes.old }
    requires zeros { AreZerosFrom end bytes.old }
    ensures { bytes.new ≡ zeros (length bytes.old) }
{
    bytes[start..end].fill(0);
}
