//! A page that was taken and may not be written yet.
ghost use Rattle.std.specs.Prelude.{◌≡◌};

use crate::page::{Marks, Page};
use hp_frames::Draft;
use hp_model::naming::Naming;
use std::marker::Model;

/// What was drawn for a claim: a page that no byte of was written for. Contracts see the page that it is once it is made.
///
/// It can't be dropped: `into_page` makes the page, away from the lock under which it was drawn.
pub struct PageDraft<N: Naming> {
    pub(crate) draft: Draft,
    pub(crate) mark: Marks<N>,
}

impl<N: Naming> Model for PageDraft<N> {
    ghost use Rattle.hp_frames.specs.Drafts.{made};
    ghost use Rattle.hp_model.specs.files.Page.{Page};
    ghost use Rattle.hp_nodes.specs.Kept.{IsPage};

    ghost Value = { Page };

    ghost view = { λ d. record { node = (made d.draft).node; bytes = (made d.draft).bytes } };

    ghost invariant = { λ d. IsPage N.memory N.page_bytes (made d.draft) d.mark };
}

impl<N: Naming> PageDraft<N> {
    /// The page, with the bytes that its last holder left. Where it had none, it is filled with zeros here.
    pub fn into_page(self) -> Page<N>
        ensures { result ≡ self }
    {
        let PageDraft { draft, mark } = self;
        Page::new(draft.into_frame(), mark)
    }
}
