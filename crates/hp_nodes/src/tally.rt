//! Pages that are spent, and how many they are.
ghost use Rattle.std.specs.Prelude.{◌≡◌, ◌+◌, ◌≤◌};
ghost use Rattle.hp_nodes.specs.Ledgers.{all_frames};

use crate::page::{Marks, Page};
use hp_model::naming::Naming;
use std::marker::Model;

/// How many pages were spent on it: at most the frames of all nodes, as no more pages are out at once. A page that was spent
/// can't come back. Contracts see the number.
pub struct PageTally<N: Naming> {
    marks: Marks<N>,
}

impl<N: Naming> Model for PageTally<N> {
    ghost use Rattle.std.specs.Prelude.{ℕ, ◌≤◌};
    ghost use Rattle.hp_nodes.specs.Ledgers.{all_frames};
    ghost use Rattle.hp_nodes.specs.Kept.{all_marks};

    ghost Value = { ℕ };

    ghost view = { λ t. all_marks t.marks };

    ghost invariant = { λ t. all_marks t.marks ≤ all_frames N.frames };
}

impl<N: Naming> PageTally<N> {
    /// One page is spent.
    pub fn new(page: Page<N>) -> Self
        ensures { result ≡ 1 }
    {
        let (frame, mut marks) = page.into_parts();
        frame.close();
        let none = marks.split(0, 0);
        marks.join(none);
        PageTally { marks }
    }

    /// One page more is spent.
    pub fn add(&mut self, page: Page<N>)
        ensures { self.new ≡ self.old + 1 }
    {
        let (frame, mark) = page.into_parts();
        frame.close();
        self.marks.join(mark);
    }

    /// Ends it. It shows how many pages were out at once.
    pub fn close(self)
        ensures { self ≤ all_frames N.frames }
    {
        let PageTally { marks } = self;
        marks.close();
    }
}
