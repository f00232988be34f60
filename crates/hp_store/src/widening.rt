//! Room in lists: never for more than so many, nor for much more than is wanted.
ghost use Rattle.std.specs.Prelude.{◌≡◌, ◌<◌, ◌≤◌, IsTrue, min, vec_len, vec_capacity, OnOk, OnErr};

use std::alloc::AllocError;
use std::mem;

// Room is much where it is more than so many times what is wanted, and than what so few want.
const MUCH: usize = 4;

const FEW: usize = 64;

/// Room for `count` values in all: for twice as many as before, if that is more, so that lists which grow by little are seldom
/// moved, but never for more than `most`.
pub(crate) fn widen<T>(list: &mut Vec<T>, count: usize, most: usize) -> Result<(), AllocError>
    requires within { count ≤ most }
    requires few { vec_capacity list.old ≤ most }
    ensures items { list.new.items ≡ list.old.items }
    ensures len { vec_len list.new ≡ vec_len list.old }
    ensures room { OnOk result (count ≤ vec_capacity list.new) }
    ensures more { vec_capacity list.old ≤ vec_capacity list.new }
    ensures few { vec_capacity list.new ≤ most }
{
    let capacity = list.capacity();
    if count <= capacity {
        return Ok(());
    }
    let wanted = capacity.saturating_mul(2).max(count).min(most);
    if list.is_empty() {
        // (a piece that grows is copied whole, also where nothing was written)
        let more = Vec::with_capacity(*list.allocator(), wanted)?;
        mem::replace(list, more).destroy_empty();
        return Ok(());
    }
    if is_much(capacity, list.len()) {
        // (few values move alone, and no room that nothing was written to)
        let more = Vec::with_capacity(*list.allocator(), wanted)?;
        let mut values = mem::replace(list, more);
        values.reverse();
        while let Some(value) = values.pop() {
            list.push_reserved(value);
        }
        values.destroy_empty();
        return Ok(());
    }
    list.reserve_exact(wanted - list.len())?;
    Ok(())
}

/// Whether room is much more than is wanted.
pub(crate) fn is_much(room: usize, wanted: usize) -> bool
    ensures { IsTrue result → wanted < room }
{
    room / MUCH > wanted.max(FEW)
}

/// Gives the room for more than `count` values back, where that is much.
pub(crate) fn narrow<T>(list: &mut Vec<T>, count: usize)
    ensures items { list.new.items ≡ list.old.items }
    ensures len { vec_len list.new ≡ vec_len list.old }
    ensures room { min count (vec_capacity list.old) ≤ vec_capacity list.new }
    ensures less { vec_capacity list.new ≤ vec_capacity list.old }
{
    if is_much(list.capacity(), count) {
        list.shrink_to(count);
    }
}
