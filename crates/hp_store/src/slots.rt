//! Slots for pages, and the numbers of those that are free.
ghost use Rattle.std.specs.Prelude.{◌≡◌, ℕ, ◌+◌, ◌-◌, ◌<◌, ◌≤◌, ◌^◌, ◌==◌, not, false, IsTrue, [], length, min, slice_index_or, slice_set, None, Some, IsSome, OnOk, OnErr};
ghost use Rattle.std.specs.Option.{option_map};
ghost use Rattle.hp_nodes.specs.Ledgers.{all_frames};
ghost use Rattle.hp_store.specs.Store.{holders_of, first_held, held_once_more, held_once_less, held_page, held_count, at_slot, Lengthens};

use crate::holdings::Holdings;
use crate::widening::{is_much, widen};
use hp_model::naming::Naming;
use hp_model::page_no::PageNo;
use hp_nodes::Page;
use std::alloc::{AllocError, Global};
use std::marker::Model;

// How many numbers there are.
const NUMBERS: usize = 1 << 32;

/// A slot for each number. Contracts see what each has. Only those up to the last one that was ever used are written: of
/// these the free ones are listed, and those behind are free.
pub(crate) struct Slots<N: Naming> {
    // the store itself writes over bytes of their pages
    pub(crate) used: Holdings<N>,
    free: Vec<PageNo>,
}

impl<N: Naming> Model for Slots<N> {
    ghost use Rattle.std.specs.Prelude.{List, Option, vec_capacity};
    ghost use Rattle.hp_nodes.specs.Ledgers.{all_frames};
    ghost use Rattle.hp_store.specs.Store.{Holding};
    ghost use Rattle.hp_store.specs.Kept.{IsNumbered, with_free};

    ghost Value = { List (Option Holding) };

    ghost view = { λ s. with_free s.used.room s.used.slots };

    ghost invariant = { λ s. IsNumbered s.used s.free.items (vec_capacity s.free)
        (all_frames N.frames) };
}

impl<N: Naming> Slots<N> {
    /// Takes no memory.
    pub(crate) fn new(alloc: Global) -> Self
        ensures { result ≡ [] }
    {
        Slots {
            used: Holdings::new(alloc),
            free: Vec::new(alloc),
        }
    }

    /// Makes `count` slots free at least, up to 2^32 slots in all, but no more slots than there are frames.
    pub(crate) fn reserve(&mut self, count: usize, frames: usize) -> Result<(), AllocError>
        requires { frames ≡ all_frames N.frames }
        ensures ok { OnOk result (min (held_count self.new + count) frames ≤ length self.new) }
        ensures within { OnOk result (length self.new ≤ frames) }
        ensures few { OnOk result (held_count self.new + count ≤ 2 ^ 32) }
        ensures slots { OnOk result (Lengthens self.old self.new) }
        ensures held { held_count self.new ≡ held_count self.old }
        ensures same { (n : ℕ) → slice_index_or self.new n None ≡ slice_index_or self.old n None }
        ensures err { OnErr result (self.new ≡ self.old) }
    {
        let free = self.free.len();
        let held = self.used.used() - free;
        if count > NUMBERS - held {
            return Err(AllocError);
        }
        let room = (held + count).min(frames);
        if room <= self.used.room() {
            return Ok(());
        }
        widen(&mut self.free, room, frames)?;
        self.used.widen(room, frames)?;
        Ok(())
    }

    /// Keeps `count` slots free at least, which are, or as many slots as there are frames. Gives the memory of others back,
    /// where that is much of what there is.
    pub(crate) fn lower(&mut self, count: usize, frames: usize)
        requires free { min (held_count self.old + count) frames ≤ length self.old }
        requires few { held_count self.old + count ≤ 2 ^ 32 }
        ensures free { min (held_count self.new + count) frames ≤ length self.new }
        ensures slots { Lengthens self.new self.old }
        ensures fewer { length self.new ≤ length self.old }
        ensures held { held_count self.new ≡ held_count self.old }
        ensures same { (n : ℕ) → slice_index_or self.new n None ≡ slice_index_or self.old n None }
    {
        let most = (self.held() + count).min(frames);
        if !is_much(self.used.room(), most) {
            return;
        }
        self.forget_used();
        let room = most.max(self.used.used());
        self.used.narrow(room);
        self.free.shrink_to(room);
    }

    // Where no slot has a page, none was used any more.
    fn forget_used(&mut self)
        ensures { self.new ≡ self.old }
    {
        if self.held() == 0 {
            self.free.clear();
            self.used.clear();
        }
    }

    /// Whether each slot has a page.
    pub(crate) fn are_full(&self) -> bool
        ensures full { result ≡ (held_count self.now == length self.now) }
        ensures within { held_count self.now ≤ length self.now }
    {
        self.free.is_empty() && self.used.used() == self.used.room()
    }

    /// Spends the pages with one more, and shows how few they were: for what never runs.
    #[cold]
    #[inline(never)]
    pub(crate) fn spend(&mut self, page: Page<N>)
        ensures { held_count self.old + 1 ≤ all_frames N.frames }
    {
        self.free.clear();
        self.used.spend(page);
    }

    /// How many slots have a page.
    pub(crate) fn held(&self) -> usize
        ensures held { result ≡ held_count self.now }
        ensures within { result ≤ length self.now }
    {
        self.used.used() - self.free.len()
    }

    /// Puts a page into a free slot.
    pub(crate) fn insert(&mut self, page: Page<N>) -> PageNo
        requires { held_count self.old < length self.old }
        ensures fresh { slice_index_or self.old result None ≡ None }
        ensures within { result < length self.old }
        ensures inserted { self.new ≡ slice_set self.old result (Some (first_held page)) }
        ensures held { held_count self.new ≡ held_count self.old + 1 }
    {
        match self.free.pop() {
            Some(at) => {
                self.used.fill(at.number() as usize, page);
                at
            }
            None => {
                let at = PageNo::new(self.used.used() as u32);
                self.used.push(page);
                at
            }
        }
    }

    /// Takes the page of one holder out.
    #[inline(never)]
    pub(crate) fn remove(&mut self, at: PageNo) -> Page<N>
        requires { holders_of (slice_index_or self.old at None) ≡ 1 }
        ensures page { option_map held_page (slice_index_or self.old at None) ≡ Some result }
        ensures removed { self.new ≡ slice_set self.old at None }
        ensures held { held_count self.new + 1 ≡ held_count self.old }
    {
        let page = self.used.take(at.number() as usize);
        self.free.push_reserved(at);
        page
    }

    #[inline(always)]
    pub(crate) fn share(&mut self, at: PageNo)
        requires held { IsSome (slice_index_or self.old at None) }
        requires few { holders_of (slice_index_or self.old at None) + 1 < 2 ^ 64 }
        ensures shared { self.new ≡ at_slot held_once_more at self.old }
        ensures held { held_count self.new ≡ held_count self.old }
    {
        self.used.share(at.number() as usize);
    }

    /// One holder less where there are several. Says whether there were.
    #[inline(always)]
    pub(crate) fn drop_shared(&mut self, at: PageNo) -> bool
        requires { IsSome (slice_index_or self.old at None) }
        ensures several { result ≡ not (holders_of (slice_index_or self.old at None) == 1) }
        ensures dropped { IsTrue result → self.new ≡ at_slot held_once_less at self.old }
        ensures same { result ≡ false → self.new ≡ self.old }
        ensures held { held_count self.new ≡ held_count self.old }
    {
        self.used.drop_shared(at.number() as usize)
    }

    #[inline(always)]
    pub(crate) fn holders(&self, at: PageNo) -> u64
        ensures { result ≡ holders_of (slice_index_or self.now at None) }
    {
        self.used.holders(at.number() as usize)
    }

    pub(crate) fn page(&self, at: PageNo) -> &Page<N>
        requires { IsSome (slice_index_or self.now at None) }
        ensures { option_map held_page (slice_index_or self.now at None) ≡ Some result.now }
    {
        self.used.page(at.number() as usize)
    }

    /// Ends slots without a page.
    pub(crate) fn close(self)
        requires { (n : ℕ) → slice_index_or self n None ≡ None }
    {
        let Slots { used, free: _ } = self;
        used.close();
    }
}
