//! Pages with their holders, by number.
ghost use Rattle.std.specs.Prelude.{◌≡◌, ℕ, ◌+◌, ◌<◌, ◌≤◌, ◌^◌, ◌==◌, not, false, IsTrue, IsSome, [], ◌∷◌, ◌++◌, length, slice_index_or, slice_set, vec_capacity, None, Some, OnOk, OnErr};
ghost use Rattle.std.specs.Option.{option_map};
ghost use Rattle.hp_nodes.specs.Ledgers.{all_frames};
ghost use Rattle.hp_store.specs.Store.{holders_of, first_held, held_once_more, held_once_less, held_page, written_in, held_count, at_slot};
ghost use Rattle.hp_store.specs.Kept.{Used, page_count};

use crate::widening::widen;
use hp_model::naming::Naming;
use hp_nodes::{Page, PageTally};
use std::alloc::{AllocError, Global};
use std::marker::Model;
use std::mem;

/// The slots that were ever used, each with a page and its holders or with none, and room for more. How many hold a page
/// stands apart from the page, so that those who share many pages touch little memory.
pub(crate) struct Holdings<N: Naming> {
    pages: Vec<Option<Page<N>>>,
    // 0 where there is no page
    holders: Vec<u64>,
    // how many slots there is memory for
    room: usize,
}

impl<N: Naming> Model for Holdings<N> {
    ghost use Rattle.std.specs.Prelude.{vec_capacity};
    ghost use Rattle.hp_nodes.specs.Ledgers.{all_frames};
    ghost use Rattle.hp_store.specs.Kept.{Used, IsCounted, holdings};

    ghost Value = { Used };

    ghost view = { λ h. record { slots = holdings h.pages.items h.holders.items; room = h.room } };

    ghost invariant = { λ h.
        IsCounted h.pages.items h.holders.items h.room (vec_capacity h.pages)
        (vec_capacity h.holders) (all_frames N.frames) };
}

impl<N: Naming> Holdings<N> {
    /// Takes no memory.
    pub(crate) fn new(alloc: Global) -> Self
        ensures { result ≡ record { slots = []; room = 0 } }
    {
        Holdings {
            pages: Vec::new(alloc),
            holders: Vec::new(alloc),
            room: 0,
        }
    }

    /// Room for so many slots in all, which are at most the frames. Writes none.
    pub(crate) fn widen(&mut self, room: usize, frames: usize) -> Result<(), AllocError>
        requires more { self.old.room ≤ room }
        requires few { room ≤ frames }
        requires frames { frames ≡ all_frames N.frames }
        ensures ok { OnOk result (self.new ≡ record self.old { room = room }) }
        ensures err { OnErr result (self.new ≡ self.old) }
    {
        widen(&mut self.pages, room, frames)?;
        widen(&mut self.holders, room, frames)?;
        self.room = room;
        Ok(())
    }

    /// Room for so many slots in all, and not for more.
    pub(crate) fn narrow(&mut self, room: usize)
        requires used { length self.old.slots ≤ room }
        requires less { room ≤ self.old.room }
        ensures { self.new ≡ record self.old { room = room } }
    {
        self.pages.shrink_to(room);
        self.holders.shrink_to(room);
        self.room = room;
    }

    pub(crate) fn room(&self) -> usize
        ensures room { result ≡ self.now.room }
        ensures few { result ≤ all_frames N.frames }
    {
        self.room
    }

    /// How many slots were ever used.
    pub(crate) fn used(&self) -> usize
        ensures used { result ≡ length self.now.slots }
        ensures within { result ≤ self.now.room }
    {
        self.pages.len()
    }

    /// Puts a page into the next slot that was never used.
    pub(crate) fn push(&mut self, page: Page<N>)
        requires { length self.old.slots < self.old.room }
        ensures { self.new ≡ record self.old {
          slots = self.old.slots ++ Some (first_held page) ∷ [];
        } }
    {
        self.pages.push_reserved(Some(page));
        self.holders.push_reserved(1);
    }

    /// Puts a page into a slot that has none.
    pub(crate) fn fill(&mut self, at: usize, page: Page<N>)
        requires within { at < length self.old.slots }
        requires empty { slice_index_or self.old.slots at None ≡ None }
        ensures { self.new ≡ record self.old {
          slots = slice_set self.old.slots at (Some (first_held page));
        } }
    {
        match mem::replace(&mut self.pages[at], Some(page)) {
            None => {}
            Some(_) => unreachable!(),
        }
        self.holders[at] = 1;
    }

    /// Takes a page out.
    pub(crate) fn take(&mut self, at: usize) -> Page<N>
        requires { IsSome (slice_index_or self.old.slots at None) }
        ensures page { option_map held_page (slice_index_or self.old.slots at None) ≡ Some result }
        ensures taken { self.new ≡ record self.old { slots = slice_set self.old.slots at None } }
    {
        self.holders[at] = 0;
        let slot = &mut self.pages[at];
        slot.take().unwrap()
    }

    #[inline(always)]
    pub(crate) fn share(&mut self, at: usize)
        requires held { IsSome (slice_index_or self.old.slots at None) }
        requires few { holders_of (slice_index_or self.old.slots at None) + 1 < 2 ^ 64 }
        ensures { self.new ≡ record self.old { slots = at_slot held_once_more at self.old.slots } }
    {
        let holders = &mut self.holders[at];
        *holders += 1;
    }

    /// One holder less where there are several. Says whether there were.
    #[inline(always)]
    pub(crate) fn drop_shared(&mut self, at: usize) -> bool
        requires { IsSome (slice_index_or self.old.slots at None) }
        ensures several { result ≡ not (holders_of (slice_index_or self.old.slots at None) == 1) }
        ensures dropped { IsTrue result
            → self.new ≡ record self.old { slots = at_slot held_once_less at self.old.slots } }
        ensures same { result ≡ false → self.new ≡ self.old }
    {
        let holders = self.holders[at];
        if holders == 1 {
            return false;
        }
        self.holders[at] = holders - 1;
        true
    }

    pub(crate) fn write(&mut self, at: usize, offset: usize, bytes: &[u8])
        requires held { IsSome (slice_index_or self.old.slots at None) }
        requires fits { offset + length bytes.now ≤ N.page_bytes }
        ensures { self.new ≡ record self.old {
          slots = at_slot (written_in offset bytes.now) at self.old.slots;
        } }
    {
        match &mut self.pages[at] {
            Some(page) => page.write(offset, bytes),
            None => unreachable!(),
        }
    }

    #[inline(always)]
    pub(crate) fn holders(&self, at: usize) -> u64
        ensures { result ≡ holders_of (slice_index_or self.now.slots at None) }
    {
        match self.holders.get(at) {
            Some(holders) => *holders,
            None => 0,
        }
    }

    pub(crate) fn page(&self, at: usize) -> &Page<N>
        requires { IsSome (slice_index_or self.now.slots at None) }
        ensures { option_map held_page (slice_index_or self.now.slots at None) ≡ Some result.now }
    {
        match &self.pages[at] {
            Some(page) => page,
            None => unreachable!(),
        }
    }

    /// Spends the pages with one more, and shows how few they were.
    pub(crate) fn spend(&mut self, page: Page<N>)
        ensures few { held_count self.old.slots + 1 ≤ all_frames N.frames }
        ensures spent { self.new ≡ record self.old { slots = [] } }
    {
        let mut tally = PageTally::new(page);
        spend_pages(&mut self.pages, &mut tally);
        self.holders.clear();
        tally.close();
    }

    /// No slot was used any more, where none has a page.
    pub(crate) fn clear(&mut self)
        requires { held_count self.old.slots ≡ 0 }
        ensures { self.new ≡ record self.old { slots = [] } }
    {
        clear_pages(&mut self.pages);
        self.holders.clear();
    }

    /// Ends slots without a page.
    pub(crate) fn close(self)
        requires { (n : ℕ) → slice_index_or self.slots n None ≡ None }
    {
        let Holdings {
            mut pages,
            holders: _,
            room: _,
        } = self;
        clear_pages(&mut pages);
        pages.destroy_empty();
    }
}

fn spend_pages<N: Naming>(pages: &mut Vec<Option<Page<N>>>, tally: &mut PageTally<N>)
    ensures spent { tally.new ≡ tally.old + page_count pages.old.items }
    ensures none { pages.new.items ≡ [] }
    ensures capacity { vec_capacity pages.new ≡ vec_capacity pages.old }
{
    while let Some(slot) = pages.pop() {
        if let Some(page) = slot {
            tally.add(page);
        }
    }
}

fn clear_pages<N: Naming>(pages: &mut Vec<Option<Page<N>>>)
    requires { (n : ℕ) → slice_index_or pages.old.items n None ≡ None }
    ensures none { pages.new.items ≡ [] }
    ensures capacity { vec_capacity pages.new ≡ vec_capacity pages.old }
{
    while let Some(slot) = pages.pop() {
        match slot {
            None => {}
            Some(_) => unreachable!(),
        }
    }
}
