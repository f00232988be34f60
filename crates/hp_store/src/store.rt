//! The store.
ghost use Rattle.std.specs.Prelude.{◌≡◌, ℕ, ◌+◌, ◌-◌, ◌<◌, ◌≤◌, ◌^◌, ◌↔◌, ◌==◌, [], ◌∷◌, ◌++◌, length, max, min, None, Some, IsSome, OnOk, OnErr, option_to_list};
ghost use Rattle.std.specs.Option.{option_map};
ghost use Rattle.hp_nodes.specs.Ledgers.{all_frames};
ghost use Rattle.hp_store.specs.Store.{Store, page_at, held_page, holders_of, bytes_of, held_count, inserted, shared, dropped, overwritten, Lengthens};

use crate::slots::Slots;
use crate::widening::{narrow, widen};
use hp_model::naming::Naming;
use hp_model::page_no::PageNo;
use hp_nodes::{Page, PageTally};
use std::alloc::{AllocError, Global};
use std::marker::Model;

/// Pages in use, each under a number. It has to be closed, and is empty by then.
pub struct PageStore<N: Naming> {
    slots: Slots<N>,
    going: Vec<Page<N>>,
    room: usize,
    // of all nodes. No more pages are out at once, so there is memory for no more
    frames: usize,
}

impl<N: Naming> Model for PageStore<N> {
    ghost use Rattle.std.specs.Prelude.{◌≡◌, vec_len, vec_capacity};
    ghost use Rattle.hp_nodes.specs.Ledgers.{all_frames};
    ghost use Rattle.hp_store.specs.Store.{Store};
    ghost use Rattle.hp_store.specs.Kept.{HasRoom};

    ghost Value = { Store };

    ghost view = { λ s. record { pages = s.slots; going = s.going.items; room = s.room } };

    ghost invariant = { λ s. (s.frames ≡ all_frames N.frames)
        × HasRoom s.slots (vec_len s.going) (vec_capacity s.going) s.room s.frames };
}

impl<N: Naming> PageStore<N> {
    /// A store in a machine with so many frames. Takes no memory.
    pub fn new(alloc: Global, frames: usize) -> Self
        requires { frames ≡ all_frames N.frames }
        ensures { result ≡ record { pages = []; going = []; room = 0 } }
    {
        PageStore {
            slots: Slots::new(alloc),
            going: Vec::new(alloc),
            room: 0,
            frames,
        }
    }

    /// Room for `count` pages to be put in, and to go later, with no memory. Memory is held for no more pages than there
    /// are frames, as no more can be in use. Refused where memory is, and past 2^32 numbers.
    pub fn make_room(&mut self, count: usize) -> Result<(), AllocError>
        ensures ok { OnOk result (self.new
            ≡ record self.old { pages = self.new.pages; room = max self.old.room count }) }
        ensures pages { OnOk result (Lengthens self.old.pages self.new.pages) }
        ensures same { (n : ℕ) → page_at self.new n ≡ page_at self.old n }
        ensures few { OnOk result (held_count self.old.pages + count ≤ 2 ^ 32) }
        ensures bounded { length self.new.pages ≤ all_frames N.frames }
        ensures err { OnErr result (self.new ≡ self.old) }
    {
        if count <= self.room {
            return Ok(());
        }
        let most = (self.slots.held() + self.going.len()).saturating_add(count);
        widen(&mut self.going, most.min(self.frames), self.frames)?;
        self.slots.reserve(count, self.frames)?;
        self.room = count;
        Ok(())
    }

    /// The frames of all nodes.
    pub fn frames(&self) -> usize
        ensures { result ≡ all_frames N.frames }
    {
        self.frames
    }

    /// How many pages there is room for.
    #[inline(always)]
    pub fn room(&self) -> usize
        ensures { result ≡ self.now.room }
    {
        self.room
    }

    /// Gives back the room for more than `count` pages, where that is much of what there is. It asks for no memory.
    pub fn lower_room(&mut self, count: usize)
        ensures lowered { self.new
            ≡ record self.old { pages = self.new.pages; room = min self.old.room count } }
        ensures pages { Lengthens self.new.pages self.old.pages }
        ensures same { (n : ℕ) → page_at self.new n ≡ page_at self.old n }
    {
        let room = self.room.min(count);
        let most = (self.slots.held() + room + self.going.len()).min(self.frames);
        self.slots.lower(room, self.frames);
        narrow(&mut self.going, most);
        self.room = room;
    }

    /// Puts a page in under a number that was free.
    pub fn insert(&mut self, page: Page<N>) -> PageNo
        requires { 0 < self.old.room }
        ensures fresh { page_at self.old result ≡ None }
        ensures within { result < length self.old.pages }
        ensures inserted { self.new ≡ inserted result page self.old }
    {
        if self.slots.are_full() {
            // (with a slot for each frame, as there is room: then this page was one too many)
            self.slots.spend(page);
            unreachable!()
        }
        let number = self.slots.insert(page);
        self.room -= 1;
        number
    }

    /// One holder more.
    #[inline(always)]
    pub fn share(&mut self, number: PageNo)
        requires held { IsSome (page_at self.old number) }
        requires few { holders_of (page_at self.old number) + 1 < 2 ^ 64 }
        ensures { self.new ≡ shared number self.old }
    {
        self.slots.share(number);
    }

    /// One holder less. The page of the last one goes. Says whether it went.
    #[inline(always)]
    pub fn drop_one(&mut self, number: PageNo) -> bool
        requires { IsSome (page_at self.old number) }
        ensures dropped { self.new ≡ dropped number self.old }
        ensures went { result ≡ (holders_of (page_at self.old number) == 1) }
    {
        if self.slots.drop_shared(number) {
            return false;
        }
        let page = self.slots.remove(number);
        if self.going.len() == self.going.capacity() {
            // (with a place for each frame: then this page was one too many)
            spend_all(&mut self.going, page);
            unreachable!()
        }
        self.going.push_reserved(page);
        true
    }

    /// How many hold a number: 0 where it is free.
    pub fn holders(&self, number: PageNo) -> u64
        ensures holders { result ≡ holders_of (page_at self.now number) }
        ensures few { held_count self.now.pages + self.now.room ≤ 2 ^ 32 }
    {
        self.slots.holders(number)
    }

    /// The page under a number.
    pub fn page(&self, number: PageNo) -> &Page<N>
        requires { IsSome (page_at self.now number) }
        ensures { option_map held_page (page_at self.now number) ≡ Some result.now }
    {
        self.slots.page(number)
    }

    /// The bytes of the page under a number.
    pub fn bytes(&self, number: PageNo) -> &[u8]
        requires { IsSome (page_at self.now number) }
        ensures bytes { result.now ≡ bytes_of (page_at self.now number) }
        ensures length { length result.now ≡ N.page_bytes }
    {
        self.page(number).bytes()
    }

    /// Writes over some of the bytes of a page with one holder.
    pub fn write(&mut self, number: PageNo, offset: usize, bytes: &[u8])
        requires alone { holders_of (page_at self.old number) ≡ 1 }
        requires fits { offset + length bytes.now ≤ N.page_bytes }
        ensures { self.new ≡ overwritten number offset bytes.now self.old }
    {
        let at = number.number() as usize;
        self.slots.used.write(at, offset, bytes);
    }

    /// The next page of those that go, to be put back.
    pub fn next_going(&mut self) -> Option<Page<N>>
        ensures some { IsSome result ↔ (0 < length self.old.going) }
        ensures going { self.old.going ≡ self.new.going ++ option_to_list result }
        ensures rest { self.new ≡ record self.old { going = self.new.going } }
    {
        self.going.pop()
    }

    /// Ends an empty store.
    pub fn close(self)
        requires pages { (n : ℕ) → page_at self n ≡ None }
        requires going { self.going ≡ [] }
    {
        let PageStore {
            slots,
            going,
            room: _,
            frames: _,
        } = self;
        slots.close();
        going.destroy_empty();
    }
}

// Spends the pages with one more, and shows how few they were: for what never runs.
#[cold]
#[inline(never)]
fn spend_all<N: Naming>(pages: &mut Vec<Page<N>>, page: Page<N>)
    ensures { length pages.old.items + 1 ≤ all_frames N.frames }
{
    let mut tally = PageTally::new(page);
    while let Some(page) = pages.pop() {
        tally.add(page);
    }
    tally.close();
}
