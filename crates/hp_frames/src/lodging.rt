//! A part of a block of memory as a list of bytes, and the way back.
ghost use Rattle.std.specs.Prelude.{◌≡◌, ℕ, [], vec_capacity};
ghost use Rattle.std_alloc.specs.Vec.{vec_ptr};
ghost use base.Fml.{fwand};
ghost use denote.Array.{Array};
ghost use denote.Builtin.{u8 as byte};
ghost use denote.RawPtr.{Ptr, room_at};
ghost use Rattle.linked_list_allocator.specs.Ownership.{bytes_at};
ghost use Rattle.linked_list_allocator.specs.Region.{Region, IsBlock};

use linked_list_allocator::Block;
use std::marker::Model;
use std_alloc::vec::{Lodged, lodge};

/// The right to turn the room of a list of bytes into the block again that it lies in.
pub(crate) struct Lease {
    ghost region: { Region },
    ghost at: { ℕ },
    ghost ptr: { Ptr },
    ghost size: { ℕ },
    ghost placed: { IsBlock region ptr at size },
}

impl Model for Lease {
    ghost also_owns = { λ l. fwand (room_at (Array byte l.size) l.ptr) (bytes_at l.ptr l.size) };
}

// What it owns names no thread.
unsafe impl Send for Lease {}

unsafe impl Sync for Lease {}

/// A list with no byte yet, and room for all of the block.
pub(crate) fn house(block: Block) -> (Vec<u8, Lodged>, Lease)
    ensures items { result.0.items ≡ [] }
    ensures room { vec_capacity result.0 ≡ block.size }
    ensures leased { (vec_ptr result.0 ≡ result.1.ptr) × (result.1.size ≡ block.size) }
    ensures region { result.1.region ≡ block.region }
{
    let (ptr, size) = block.into_raw_parts();
    (unsafe { lodge(ptr, 0, size) }, Lease {})
}

/// The block, whatever lies in it.
pub(crate) fn vacate(bytes: Vec<u8, Lodged>, lease: Lease) -> Block
    requires { (vec_ptr bytes ≡ lease.ptr) × (vec_capacity bytes ≡ lease.size) }
    ensures { result.region ≡ lease.region }
{
    let ptr = bytes.as_ptr().cast_mut();
    let size = bytes.capacity();
    end(lease, ptr, size, bytes)
}

// The block of this lease, whose list is let go.
fn end(lease: Lease, ptr: *mut u8, size: usize, bytes: Vec<u8, Lodged>) -> Block
    requires at { (lease.ptr ≡ ptr) × (lease.size ≡ size) }
    requires whole { (vec_ptr bytes ≡ ptr) × (vec_capacity bytes ≡ size) }
    ensures { result.region ≡ lease.region }
{
    let Lease {} = lease;
    bytes.dislodge();
    unsafe { Block::from_raw_parts(ptr, size) }
}
