//! Doors to the pool for faults that follow one another.
ghost use Rattle.std.specs.Prelude.{◌≡◌, ℕ, List, [], ◌∷◌, ◌≤◌, length, IfNone, IfSome};
ghost use Rattle.hp_subpool.specs.Subpool.{with_pages};

use hp_model::naming::Naming;
use hp_nodes::Page;
use hp_subpool::Subpool;

/// A way to the pool for faults at indices that follow one another, each by a reservation that is held.
pub trait RunDoor<N: Naming> {
    // from one state of the door to another: a page of each of these nodes was taken, each in a section of its own
    ghost took: { Self → List ℕ → Self → Type 0 };

    // the nodes of the pages that were taken and are not handed out yet
    ghost waiting: { Self → List ℕ };

    // whatever is taken of no page
    ghost idle: { (d : Self) → took d [] d };

    /// Takes the pages of at most so many reservations that the share holds, one after another.
    fn take_pages(&mut self, share: &mut Subpool<N>, most: u64)
        requires none { waiting self.old ≡ [] }
        requires held { most ≤ share.old.held }
        ensures took { took self.old (waiting self.new) self.new }
        ensures few { length (waiting self.new) ≤ most }
        ensures share { share.new ≡ with_pages (length (waiting self.new)) share.old };

    /// The next of the pages that were taken, until each was handed out.
    fn next_page(&mut self) -> Option<Page<N>>
        ensures some { IfSome result (λ page. waiting self.old ≡ page.node ∷ waiting self.new) }
        ensures none { IfNone result (waiting self.old ≡ []) }
        ensures same { IfNone result (self.new ≡ self.old) }
        ensures took { (d : Self) (nodes : List ℕ) → took d nodes self.old
            → took d nodes self.new };
}
