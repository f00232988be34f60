//! The frames of a node that nobody holds.
ghost use Rattle.std.specs.Prelude.{◌≡◌, ◌+◌, ◌<◌, ◌≤◌, ◌^◌};
ghost use Rattle.hp_permit.specs.Quad.{at, plus};
ghost use Rattle.hp_nodes.specs.Kept.{IsStock};
ghost use Rattle.hp_nodes.specs.Ledgers.{AreAll, AreLedgers};

use crate::blanks::{Blanks, NodeBlanks};
use crate::draft::PageDraft;
use crate::page::{Marks, Page};
use hp_frames::Stock;
use hp_model::naming::Naming;
use hp_permit::{Claim, ClaimSet, Quad, Redeemed};
use std::marker::Model;

/// The frames of node K that nobody holds, and the claims of those that somebody holds. Contracts see how many are here.
pub struct NodeFrames<N: Naming, const K: usize> {
    stock: Stock,
    marks: Marks<N>,
    kept: Redeemed<N>,
}

impl<N: Naming, const K: usize> Model for NodeFrames<N, K> {
    ghost use Rattle.std.specs.Prelude.{ℕ, ◌≡◌, ◌<◌};
    ghost use Rattle.hp_nodes.specs.Kept.{IsStock};

    ghost Value = { ℕ };

    ghost view = { λ f. f.stock.here };

    ghost invariant = { λ f. (f.stock.node ≡ K) × (K < 4)
        × IsStock N.frames N.memory N.page_bytes f.stock f.marks f.kept };
}

// Adds marks. There are no more of a node than it has frames.
fn join_marks<N: Naming>(marks: &mut Marks<N>, mark: Marks<N>, node: usize)
    requires { node < 4 }
    ensures sum { marks.new ≡ plus marks.old mark }
    ensures within { at node marks.new ≤ N.frames node }
{
    marks.join(mark);
}

impl<N: Naming, const K: usize> NodeFrames<N, K> {
    // All frames of the node are here.
    fn new(stock: Stock, marks: Marks<N>, kept: Redeemed<N>) -> Self
        requires node { stock.node ≡ K }
        requires below { K < 4 }
        requires home { IsStock N.frames N.memory N.page_bytes stock marks kept }
    {
        NodeFrames { stock, marks, kept }
    }

    /// Ends them. A page that is still out can't come back any more.
    pub fn close(self) {
        let NodeFrames {
            stock: _,
            marks,
            kept,
        } = self;
        marks.close();
        kept.close();
    }

    /// What a claim is worth: a page, of which no byte is written yet. Never refused.
    pub fn draw(&mut self, claim: Claim<N>) -> PageDraft<N>
        requires own { claim.node ≡ K }
        requires one { claim.amount ≡ 1 }
        ensures node { result.node ≡ K }
        ensures left { self.new + 1 ≡ self.old }
    {
        let node = claim.node();
        self.kept.join(claim);
        let draft = self.stock.draw();
        let mark = self.marks.split(node, 1);
        PageDraft { draft, mark }
    }

    /// The claim of a page that comes back. Never refused.
    pub fn give(&mut self, page: Page<N>) -> Claim<N>
        requires own { page.node ≡ K }
        ensures claim { result ≡ record { node = K; amount = 1 } }
        ensures few { N.frames K < 2 ^ 64 }
        ensures left { self.new ≡ self.old + 1 }
    {
        let (frame, mark) = page.into_parts();
        join_marks::<N>(&mut self.marks, mark, frame.node());
        self.stock.put(frame);
        self.kept.split_at(K, 1)
    }
}

/// The frames of nodes 0 to 3 that nobody holds, for one thread. It can't be dropped: `close` ends it.
pub struct Frames<N: Naming>(
    pub NodeFrames<N, 0>,
    pub NodeFrames<N, 1>,
    pub NodeFrames<N, 2>,
    pub NodeFrames<N, 3>,
);

impl<N: Naming> Frames<N> {
    /// All frames, and the claims on them.
    pub fn new(blanks: Blanks) -> (Self, ClaimSet<N>)
        requires { AreLedgers N.Naming blanks }
        ensures { AreAll N.frames result.1 }
    {
        let Blanks {
            zero,
            one,
            two,
            three,
        } = blanks;
        let NodeBlanks {
            count: count_0,
            claims: claims_0,
            pages: pages_0,
            stock: stock_0,
        } = zero;
        let NodeBlanks {
            count: count_1,
            claims: claims_1,
            pages: pages_1,
            stock: stock_1,
        } = one;
        let NodeBlanks {
            count: count_2,
            claims: claims_2,
            pages: pages_2,
            stock: stock_2,
        } = two;
        let NodeBlanks {
            count: count_3,
            claims: claims_3,
            pages: pages_3,
            stock: stock_3,
        } = three;
        let mut claims = ClaimSet::all(claims_0, claims_1, claims_2, claims_3);
        let mut marks: Marks<N> = Quad::all(pages_0, pages_1, pages_2, pages_3);
        let frames = Frames(
            NodeFrames::new(stock_0, marks.split(0, count_0), claims.redeemed(0)),
            NodeFrames::new(stock_1, marks.split(1, count_1), claims.redeemed(1)),
            NodeFrames::new(stock_2, marks.split(2, count_2), claims.redeemed(2)),
            NodeFrames::new(stock_3, marks.split(3, count_3), claims.redeemed(3)),
        );
        marks.close();
        (frames, claims)
    }

    /// The page of a claim, with the bytes that its last holder left. Never refused.
    pub fn redeem(&mut self, claim: Claim<N>) -> Page<N>
        requires { claim.amount ≡ 1 }
        ensures { result.node ≡ claim.node }
    {
        let draft = match claim.node() {
            0 => self.0.draw(claim),
            1 => self.1.draw(claim),
            2 => self.2.draw(claim),
            _ => self.3.draw(claim),
        };
        draft.into_page()
    }

    /// The claim of a page that comes back. Never refused.
    pub fn give(&mut self, page: Page<N>) -> Claim<N>
        ensures claim { result ≡ record { node = page.node; amount = 1 } }
        ensures few { N.frames page.node < 2 ^ 64 }
    {
        match page.node() {
            0 => self.0.give(page),
            1 => self.1.give(page),
            2 => self.2.give(page),
            _ => self.3.give(page),
        }
    }

    /// Ends them. A page that is still out can't come back any more.
    pub fn close(self) {
        let Frames(zero, one, two, three) = self;
        zero.close();
        one.close();
        two.close();
        three.close();
    }
}

/// The frames of each node, by themselves.
impl<N: Naming> Frames<N> {
    /// The frames of nodes 0 to 3.
    pub fn into_nodes(
        self,
    ) -> (
        NodeFrames<N, 0>,
        NodeFrames<N, 1>,
        NodeFrames<N, 2>,
        NodeFrames<N, 3>,
    ) {
        let Frames(zero, one, two, three) = self;
        (zero, one, two, three)
    }

    /// The frames of nodes 0 to 3 together.
    pub fn from_nodes(
        zero: NodeFrames<N, 0>,
        one: NodeFrames<N, 1>,
        two: NodeFrames<N, 2>,
        three: NodeFrames<N, 3>,
    ) -> Self {
        Frames(zero, one, two, three)
    }
}
