//! The frames of a node that nobody holds.
ghost use Rattle.std.specs.Prelude.{◌≡◌, ◌+◌, ◌-◌, ◌<◌, ◌≤◌, ◌*◌, ◌^◌, IfOk, IfSome, length};
ghost use Rattle.hp_model.specs.Profile.{most_frames};
ghost use Rattle.linked_list_allocator.specs.Region.{block_size};
ghost use Rattle.hp_frames.specs.Drafts.{made};
ghost use Rattle.hp_frames.specs.Stock.{IsOf, with_here};

use crate::draft::{Draft, Fresh};
use crate::frame::Frame;
use linked_list_allocator::Heap;
use std::alloc::{AllocError, Global, Layout};
use std::marker::Model;

// Sizes in a block are multiples of this.
const UNIT: usize = 16;

// No frame has more bytes: all that a node can have fit in a block.
const MOST_BYTES: usize = 1 << 46;

/// The frames of one node that nobody holds, and the block that they are cut from. A frame is cut when it is first taken. Contracts
/// see the node, the block, the bytes of each frame, how many frames there are and how many of them are here.
pub struct Stock {
    heap: Heap,
    returned: Vec<Frame>,
    // how many were never taken
    fresh: u64,
    all: u64,
    node: u8,
    page_bytes: usize,
}

impl Model for Stock {
    ghost use Rattle.std.specs.Prelude.{◌+◌, length, vec_capacity};
    ghost use Rattle.linked_list_allocator.specs.Heap.{heap_holes, heap_region};
    ghost use Rattle.hp_frames.specs.Stock.{Stock, IsStocked};

    ghost Value = { Stock };

    ghost view = { λ s. record {
      node = s.node;
      memory = heap_region s.heap;
      page_bytes = s.page_bytes;
      all = s.all;
      here = s.fresh + length s.returned.items;
    } };

    ghost invariant = { λ s. IsStocked s.fresh s.all (vec_capacity s.returned) s.page_bytes
        (heap_holes s.heap)
        (heap_region s.heap) s.node s.returned.items };
}

// All that its heap points to is its own.
unsafe impl Send for Stock {}

impl Stock {
    /// All of a node's frames, of so many bytes each.
    ///
    /// Takes all the memory that they will ever need. Where it is refused, nothing is kept.
    pub fn new(alloc: Global, node: u8, frames: u64, page_bytes: usize) -> Result<Self, AllocError>
        requires { frames ≤ most_frames }
        ensures { IfOk result (λ s. (s.node ≡ node) × (s.page_bytes ≡ page_bytes)
            × (s.all ≡ frames) × (s.here ≡ frames)) }
    {
        let Some(size) = size_of_all(frames, page_bytes) else {
            return Err(AllocError);
        };
        let heap = Heap::new(alloc, size)?;
        let returned = Vec::with_capacity(alloc, frames as usize)?;
        Ok(Stock {
            heap,
            returned,
            fresh: frames,
            all: frames,
            node,
            page_bytes,
        })
    }

    /// A frame that nobody holds. No byte is written.
    pub fn draw(&mut self) -> Draft
        requires { 0 < self.old.here }
        ensures left { self.new ≡ with_here (self.old.here - 1) self.old }
        ensures draft { IsOf self.old.node self.old.memory self.old.page_bytes (made result) }
    {
        if let Some(frame) = self.returned.pop() {
            return Draft::Used(frame);
        }
        let number = (self.all - self.fresh) as u32;
        let layout = Layout::from_size_align(self.page_bytes, 1).unwrap();
        let heap = &mut self.heap;
        let block = heap.allocate_first_fit(layout).unwrap();
        self.fresh -= 1;
        Draft::Fresh(Fresh::new(block, number, self.node, self.page_bytes))
    }

    /// A frame, with what its last holder left in it, and zeros if it had none.
    pub fn take(&mut self) -> Frame
        requires { 0 < self.old.here }
        ensures left { self.new ≡ with_here (self.old.here - 1) self.old }
        ensures frame { (result.node ≡ self.old.node) × (result.memory ≡ self.old.memory) }
        ensures bytes { length result.bytes ≡ self.old.page_bytes }
    {
        self.draw().into_frame()
    }

    /// Takes a frame back. Never refused, and takes no memory.
    pub fn put(&mut self, frame: Frame)
        requires room { self.old.here < self.old.all }
        requires frame { (frame.node ≡ self.old.node) × (frame.memory ≡ self.old.memory) }
        requires bytes { length frame.bytes ≡ self.old.page_bytes }
        ensures { self.new ≡ with_here (self.old.here + 1) self.old }
    {
        self.returned.push_reserved(frame);
    }
}

// How many bytes so many frames take in a block, where a block can have so many.
fn size_of_all(frames: u64, page_bytes: usize) -> Option<usize>
    requires { frames ≤ most_frames }
    ensures { IfSome result (λ n. (n ≡ frames * block_size page_bytes) × (n < 2 ^ 63)
        × (page_bytes < 2 ^ 63)) }
{
    if page_bytes > MOST_BYTES {
        return None;
    }
    Some(frames as usize * page_bytes.max(UNIT).next_multiple_of(UNIT))
}

// The frames go back to their block from the last on, so that each is joined to what is free behind it in one step.
impl Drop for Stock {
    fn drop(self) {
        let Stock {
            mut heap,
            mut returned,
            fresh: _,
            all: _,
            node: _,
            page_bytes: _,
        } = self;
        returned.sort_unstable_by_key(|frame| frame.number());
        while let Some(frame) = returned.pop() {
            heap.deallocate(frame.into_block());
        }
        returned.destroy_empty();
    }
}
