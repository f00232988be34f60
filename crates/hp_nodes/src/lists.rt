//! The nodes together, and the moves of pages and frames among them.
ghost use Rattle.std.specs.Prelude.{◌≡◌, ◌+◌, ◌<◌, ◌≤◌, ◌^◌, if◌then◌else◌, length, min, ℕ, ◌==◌, All, IsTrue, IfOk};
ghost use Rattle.hp_model.specs.pool.Resize.{node_count};
ghost use Rattle.hp_model.specs.Profile.{most_frames, most_frames_in_all};
ghost use Rattle.hp_nodes.specs.Kept.{idle_nodes};
ghost use Rattle.hp_nodes.specs.Ledgers.{AreAll, AreFrames, all_frames};
ghost use Rattle.hp_nodes.specs.Moves.{take_by, put_by, puts_at, grow_by, shrink_by};
ghost use Rattle.std.specs.Fn.{iterate};
ghost use Rattle.hp_model.specs.pool.NodeRows.{IsRow, used, next_node, near, some_has, row_at, taken, taken_times, grown, shrunk, sum_row, free_of, total_of, take_row};

mod surplus;

use crate::node::Node;
use crate::rounds::{grow_each, having, least, shrink_each};
use crate::search::{after, near, next_from};
use hp_model::answer::NodeCount;
use hp_model::naming::Naming;
use hp_model::node::{Kind, NodeRow};
use hp_permit::{Claim, ClaimSet};
use std::alloc::{AllocError, Global};
use std::marker::Model;

/// The nodes of a machine, numbered from 0, and two cursors: where the next search for a frame to
/// grow by starts, and that for a page to shrink by. Contracts see a row for each node (its frames,
/// its pages in the pool, which of them are free, and its share of the surplus) and the cursors.
/// Which node each move chooses is a rule of this project's profile.
///
/// By the invariant, at all times a node's pages in use (total - free) are the claims on its frames that
/// are not here, whoever holds them: only `take` gives them out and only `put` takes them back. So `put`
/// is never refused. No call but `new` takes memory.
pub struct NodeLists<N: Naming> {
    nodes: Vec<Node>,
    claims: ClaimSet<N>,
    growth: usize,
    release: usize,
}

impl<N: Naming> Model for NodeLists<N> {
    ghost use Rattle.hp_model.specs.pool.NodeRows.{NodeRows};
    ghost use Rattle.hp_nodes.specs.Kept.{IsKept};

    ghost Value = { NodeRows };

    ghost view = { λ s. record { rows = s.nodes.items; growth = s.growth; release = s.release } };

    ghost invariant = { λ s. IsKept N.frames s.nodes.items s.growth s.release s.claims };
}

impl<N: Naming> NodeLists<N> {
    /// Lists of 1 to 4 nodes with so many frames each, on which there are these claims. Every frame is idle. Where memory is
    /// refused, the claims are spent.
    pub fn new(alloc: Global, frames: &[u64], claims: ClaimSet<N>) -> Result<Self, AllocError>
        requires some { 0 < length frames.now }
        requires few { length frames.now ≤ 4 }
        requires small { All (λ f. f ≤ most_frames) frames.now }
        requires claims { AreAll N.frames claims }
        requires frames { AreFrames N.frames frames.now }
        ensures { IfOk result (λ s. s ≡ idle_nodes frames.now) }
    {
        let Ok(mut nodes) = Vec::with_capacity(alloc, frames.len()) else {
            claims.close();
            return Err(AllocError);
        };
        for count in frames {
            nodes.push_reserved(Node::new(*count));
        }
        Ok(NodeLists {
            nodes,
            claims,
            growth: 0,
            release: 0,
        })
    }

    /// How many nodes there are.
    pub fn len(&self) -> usize
        ensures { result ≡ length self.now.rows }
    {
        self.nodes.len()
    }

    /// One node's pages: all, those that are free, and the surplus.
    pub fn count(&self, node: usize) -> NodeCount
        requires { node < length self.now.rows }
        ensures { result ≡ node_count (row_at self.now.rows node) }
    {
        let row = self.nodes[node].row();
        NodeCount {
            total: row.total as u32,
            free: row.free as u32,
            surp: row.surp as u32,
        }
    }

    /// Shows that each row is sound. It does nothing.
    pub fn law(&self)
        ensures { All IsRow self.now.rows }
    {
        let _len = self.nodes.len();
    }

    /// The sums over all nodes, of frames and pages.
    pub fn sums(&self) -> NodeRow
        ensures sums { result ≡ sum_row self.now.rows }
        ensures free { result.free ≤ result.total }
        ensures surp { result.surp ≤ result.total }
        ensures total { result.total ≤ result.frames }
        ensures few { result.frames ≤ most_frames_in_all }
        ensures all { result.frames ≡ all_frames N.frames }
    {
        let mut sums = NodeRow {
            frames: 0,
            total: 0,
            free: 0,
            surp: 0,
        };
        for node in &self.nodes {
            let row = node.row();
            sums.frames += row.frames;
            sums.total += row.total;
            sums.free += row.free;
            sums.surp += row.surp;
        }
        sums
    }

    /// Ends the lists. A page that is still out can't be put back any more.
    pub fn close(self) {
        let NodeLists {
            nodes: _,
            claims,
            growth: _,
            release: _,
        } = self;
        claims.close();
    }

    /// The claim of a free page: of the home node if it has one, else of the lowest node that has.
    #[tactic(auto, using(hp_model::proofs::Sums::take_sums, hp_model::proofs::Sums::free_le_total))]
    pub fn take(&mut self, home: usize) -> Claim<N>
        requires { IsTrue (some_has Kind.Free self.old.rows) }
        ensures moved { self.new ≡ taken home self.old }
        ensures sums { sum_row self.new.rows ≡ take_row (sum_row self.old.rows) }
        ensures sound { free_of self.old.rows ≤ total_of self.old.rows }
        ensures node { result ≡ record { node = near Kind.Free home self.old.rows; amount = 1 } }
        ensures free { 0 < (row_at self.old.rows result.node).free }
    {
        let at = near(&self.nodes, Kind::Free, home);
        self.nodes[at].take();
        self.claims.take(at, 1)
    }

    /// The claim of free pages, at most so many, in one move: of the home node if it has one, else of the lowest node that
    /// has; all that the node has free where that is less.
    #[tactic(auto, using(crate::proofs::Repeats::taken_at, crate::proofs::Sums::take_sums, crate::proofs::Keeps::used_more, hp_model::proofs::Sums::free_le_total))]
    pub fn take_some(&mut self, home: usize, most: u64) -> Claim<N>
        requires some { 0 < most }
        requires free { IsTrue (some_has Kind.Free self.old.rows) }
        ensures moved { self.new ≡ taken_times home result.amount self.old }
        ensures sums { sum_row self.new.rows ≡ take_by result.amount (sum_row self.old.rows) }
        ensures sound { free_of self.old.rows ≤ total_of self.old.rows }
        ensures node { result.node ≡ near Kind.Free home self.old.rows }
        ensures amount { result.amount ≡ min most (row_at self.old.rows result.node).free }
        ensures few { N.frames result.node < 2 ^ 64 }
        ensures some { 0 < result.amount }
        ensures used { (k : ℕ) → used (row_at self.new.rows k)
            ≡ used (row_at self.old.rows k) + (if result.node == k then result.amount else 0) }
    {
        let at = near(&self.nodes, Kind::Free, home);
        let node = &mut self.nodes[at];
        let count = most.min(node.amount(Kind::Free));
        node.take_many(count);
        self.claims.take(at, count)
    }

    /// So many pages come back to their node, by their claim. Never refused, and takes no memory.
    pub fn put(&mut self, claim: Claim<N>)
        requires { 0 < claim.amount }
        ensures moved { self.new ≡ puts_at claim.node claim.amount self.old }
        ensures sums { sum_row self.new.rows ≡ put_by claim.amount (sum_row self.old.rows) }
        ensures in_use { free_of self.old.rows + claim.amount ≤ total_of self.old.rows }
    {
        let at = claim.node();
        let count = claim.amount();
        self.claims.put(claim);
        self.nodes[at].put(count);
    }

    /// So many idle frames become persistent pages, one after another: of the first node that has
    /// one, from the growth cursor on and round. The cursor then stands at the node after it.
    #[tactic(auto, using(hp_model::proofs::Sums::some_idle, crate::proofs::Repeats::times_add, crate::proofs::Repeats::first_of))]
    pub fn grow(&mut self, count: u64)
        requires { (sum_row self.old.rows).total + count ≤ (sum_row self.old.rows).frames }
        ensures moved { self.new ≡ iterate grown count self.old }
        ensures sums { sum_row self.new.rows ≡ grow_by count (sum_row self.old.rows) }
    {
        let mut done = 0;
        while done < count {
            let at = self.grow_one();
            done += 1;
            done += self.grow_rounds(at, count - done);
        }
    }

    // One, and which node it is of.
    #[tactic(auto, using(crate::proofs::Sums::grow_sums))]
    fn grow_one(&mut self) -> usize
        requires { IsTrue (some_has Kind.Idle self.old.rows) }
        ensures moved { self.new ≡ grown self.old }
        ensures sums { sum_row self.new.rows ≡ grow_by 1 (sum_row self.old.rows) }
        ensures behind { self.new.growth ≡ next_node result self.new.rows }
        ensures within { result < length self.new.rows }
    {
        let at = next_from(&self.nodes, Kind::Idle, self.growth);
        let node = &mut self.nodes[at];
        node.grow(1);
        self.growth = after(at, self.nodes.len());
        at
    }

    // Up to so many, in whole rounds: none where the node before the cursor has no more, and else as
    // many as each node can go along with. The cursor ends where it was.
    fn grow_rounds(&mut self, at: usize, most: u64) -> u64
        requires behind { self.old.growth ≡ next_node at self.old.rows }
        requires within { at < length self.old.rows }
        ensures moved { self.new ≡ iterate grown result self.old }
        ensures sums { sum_row self.new.rows ≡ grow_by result (sum_row self.old.rows) }
        ensures within { result ≤ most }
    {
        if !self.nodes[at].has(Kind::Idle) {
            return 0;
        }
        let round = having(&self.nodes, Kind::Idle);
        let rounds = least(&self.nodes, Kind::Idle).min(most / round);
        grow_each(&mut self.nodes, rounds);
        rounds * round
    }

    /// So many free pages become idle frames, one after another: of the first node that has one,
    /// from the release cursor on and round. The cursor then stands at the node after it.
    #[tactic(auto, using(hp_model::proofs::Sums::some_free, hp_model::proofs::Sums::none_surplus, crate::proofs::Repeats::times_add, crate::proofs::Repeats::first_of))]
    pub fn shrink(&mut self, count: u64)
        requires free { count ≤ (sum_row self.old.rows).free }
        requires no_surplus { 0 < count → (sum_row self.old.rows).surp ≡ 0 }
        ensures moved { self.new ≡ iterate shrunk count self.old }
        ensures sums { sum_row self.new.rows ≡ shrink_by count (sum_row self.old.rows) }
    {
        let mut done = 0;
        while done < count {
            let at = self.shrink_one();
            done += 1;
            done += self.shrink_rounds(at, count - done);
        }
    }

    // One, and which node it is of.
    #[tactic(auto, using(crate::proofs::Sums::shrink_sums))]
    fn shrink_one(&mut self) -> usize
        requires free { IsTrue (some_has Kind.Free self.old.rows) }
        requires no_surplus { All (λ r. r.surp ≡ 0) self.old.rows }
        ensures moved { self.new ≡ shrunk self.old }
        ensures sums { sum_row self.new.rows ≡ shrink_by 1 (sum_row self.old.rows) }
        ensures behind { self.new.release ≡ next_node result self.new.rows }
        ensures within { result < length self.new.rows }
    {
        let at = next_from(&self.nodes, Kind::Free, self.release);
        let node = &mut self.nodes[at];
        node.shrink(1);
        self.release = after(at, self.nodes.len());
        at
    }

    // Up to so many, in whole rounds: none where the node before the cursor has no more, and else as
    // many as each node can go along with. The cursor ends where it was.
    fn shrink_rounds(&mut self, at: usize, most: u64) -> u64
        requires behind { self.old.release ≡ next_node at self.old.rows }
        requires within { at < length self.old.rows }
        requires no_surplus { All (λ r. r.surp ≡ 0) self.old.rows }
        ensures moved { self.new ≡ iterate shrunk result self.old }
        ensures sums { sum_row self.new.rows ≡ shrink_by result (sum_row self.old.rows) }
        ensures within { result ≤ most }
    {
        if !self.nodes[at].has(Kind::Free) {
            return 0;
        }
        let round = having(&self.nodes, Kind::Free);
        let rounds = least(&self.nodes, Kind::Free).min(most / round);
        shrink_each(&mut self.nodes, rounds);
        rounds * round
    }
}
