//! Pages on their way into a store.
ghost use Rattle.std.specs.Prelude.{◌≡◌, ◌+◌, ◌-◌, ◌<◌, ◌≤◌, [], ◌∷◌, ◌++◌, length, IfNone, IfOk, option_to_list};
ghost use Rattle.hp_nodes.specs.Ledgers.{all_frames};

use hp_model::naming::Naming;
use hp_nodes::{Page, PageDraft, PageTally};
use std::alloc::{AllocError, Global};
use std::marker::Model;

/// Pages that were taken from the pool at once, and are made as they come out: until then no byte of them is written. The
/// last one that was added comes out first. It can't be dropped: `close` ends it.
pub struct PageBatch<N: Naming> {
    pages: Vec<PageDraft<N>>,
    room: usize,
}

impl<N: Naming> Model for PageBatch<N> {
    ghost use Rattle.std.specs.Prelude.{◌≤◌, ◌+◌, min, vec_len, vec_capacity, reverse};
    ghost use Rattle.hp_nodes.specs.Ledgers.{all_frames};
    ghost use Rattle.hp_store.specs.Batch.{Batch};

    ghost Value = { Batch };

    ghost view = { λ b. record { pages = reverse b.pages.items; room = b.room } };

    ghost invariant = { λ b.
        min (vec_len b.pages + b.room) (all_frames N.frames) ≤ vec_capacity b.pages };
}

impl<N: Naming> PageBatch<N> {
    /// No page, and room for `count` of them, in a machine with so many frames. Memory is asked for no more pages than these,
    /// as no more come.
    pub fn new(alloc: Global, count: usize, frames: usize) -> Result<Self, AllocError>
        requires { frames ≡ all_frames N.frames }
        ensures { IfOk result (λ b. b ≡ record { pages = []; room = count }) }
    {
        Ok(PageBatch {
            pages: Vec::with_capacity(alloc, count.min(frames))?,
            room: count,
        })
    }

    /// Adds a page, which is then the next. Takes no memory, and writes no page.
    pub fn add(&mut self, page: PageDraft<N>)
        requires { 0 < self.old.room }
        ensures { self.new ≡ record {
          pages = page ∷ self.old.pages;
          room = self.old.room - 1;
        } }
    {
        if self.pages.len() == self.pages.capacity() {
            // (with a place for each frame: then this page was one too many)
            spend_drafts(&mut self.pages, page);
            unreachable!()
        }
        self.room -= 1;
        self.pages.push_reserved(page);
    }

    /// The next page, with the bytes that its last holder left, or zeros where it had none.
    pub fn next(&mut self) -> Option<Page<N>>
        ensures pages { self.old.pages ≡ option_to_list result ++ self.new.pages }
        ensures room { self.new.room ≡ self.old.room }
        ensures none { IfNone result (self.old.pages ≡ []) }
    {
        let draft = self.pages.pop()?;
        Some(draft.into_page())
    }

    /// Ends an empty batch.
    pub fn close(self)
        requires { self.pages ≡ [] }
    {
        let PageBatch { pages, room: _ } = self;
        pages.destroy_empty();
    }
}

// Spends the pages with one more, and shows how few they were: for what never runs.
#[cold]
#[inline(never)]
fn spend_drafts<N: Naming>(pages: &mut Vec<PageDraft<N>>, page: PageDraft<N>)
    ensures { length pages.old.items + 1 ≤ all_frames N.frames }
{
    let mut tally = PageTally::new(page.into_page());
    while let Some(page) = pages.pop() {
        tally.add(page.into_page());
    }
    tally.close();
}
