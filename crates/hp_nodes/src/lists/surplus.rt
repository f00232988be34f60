//! Pages that become surplus, and surplus pages that leave the pool or become persistent.
ghost use Rattle.std.specs.Prelude.{◌≡◌, ◌+◌, ◌<◌, ◌≤◌, length, IsTrue};
ghost use Rattle.std.specs.Fn.{iterate};
ghost use Rattle.hp_model.specs.pool.NodeRows.{at_row, lowest, some_has, row_at, surplus_added, promoted, demoted, given_back, sum_row};
ghost use Rattle.hp_nodes.specs.Moves.{shrink_by, add_surplus_by, give_back_by, promote_by, demote_by};

use super::NodeLists;
use crate::search::{lowest, near};
use hp_model::naming::Naming;
use hp_model::node::Kind;

impl<N: Naming> NodeLists<N> {
    /// So many idle frames become surplus pages, one after another: of the home node while it has
    /// one, else of the lowest node that has.
    #[tactic(auto, using(hp_model::proofs::Sums::some_idle, crate::proofs::Repeats::times_add))]
    pub fn add_surplus(&mut self, home: usize, count: u64)
        requires { (sum_row self.old.rows).total + count ≤ (sum_row self.old.rows).frames }
        ensures moved { self.new ≡ iterate (surplus_added home) count self.old }
        ensures sums { sum_row self.new.rows ≡ add_surplus_by count (sum_row self.old.rows) }
    {
        let mut done = 0;
        while done < count {
            done += self.add_some_surplus(home, count - done);
        }
    }

    // Up to so many, of one node.
    #[tactic(auto, using(crate::proofs::Repeats::added_at, crate::proofs::Sums::add_surplus_sums))]
    fn add_some_surplus(&mut self, home: usize, most: u64) -> u64
        requires some { 0 < most }
        requires idle { IsTrue (some_has Kind.Idle self.old.rows) }
        ensures moved { self.new ≡ iterate (surplus_added home) result self.old }
        ensures sums { sum_row self.new.rows ≡ add_surplus_by result (sum_row self.old.rows) }
        ensures some { 0 < result }
        ensures within { result ≤ most }
    {
        let at = near(&self.nodes, Kind::Idle, home);
        let node = &mut self.nodes[at];
        let count = most.min(node.amount(Kind::Idle));
        node.add_surplus(count);
        count
    }

    /// So many surplus pages that are free become idle frames, one after another: of the lowest
    /// node that has both. Where no node has, a free page of the lowest node leaves the pool, and a
    /// surplus page of the lowest node becomes persistent.
    #[tactic(auto, using(hp_model::proofs::Sums::some_free, hp_model::proofs::Sums::some_surplus, crate::proofs::Repeats::times_add))]
    pub fn give_back(&mut self, count: u64)
        requires free { count ≤ (sum_row self.old.rows).free }
        requires surplus { count ≤ (sum_row self.old.rows).surp }
        ensures moved { self.new ≡ iterate given_back count self.old }
        ensures sums { sum_row self.new.rows ≡ give_back_by count (sum_row self.old.rows) }
    {
        let mut done = 0;
        while done < count {
            done += self.give_some_back(count - done);
        }
    }

    // Up to so many, of one node or of two.
    #[tactic(auto, using(crate::proofs::Repeats::both_at, crate::proofs::Sums::give_back_sums))]
    fn give_some_back(&mut self, most: u64) -> u64
        requires some { 0 < most }
        requires free { IsTrue (some_has Kind.Free self.old.rows) }
        requires surplus { IsTrue (some_has Kind.Surplus self.old.rows) }
        ensures moved { self.new ≡ iterate given_back result self.old }
        ensures sums { sum_row self.new.rows ≡ give_back_by result (sum_row self.old.rows) }
        ensures some { 0 < result }
        ensures within { result ≤ most }
    {
        let both = lowest(&self.nodes, Kind::FreeSurplus);
        if both < self.nodes.len() {
            let node = &mut self.nodes[both];
            let count = most.min(node.amount(Kind::FreeSurplus));
            node.give_back(count);
            count
        } else {
            self.give_some_back_apart(most)
        }
    }

    // Free pages leave the pool at one node, and surplus pages become persistent at another.
    #[tactic(auto, using(crate::proofs::Finds::no_surplus, crate::proofs::Repeats::apart_still, crate::proofs::Repeats::apart_at))]
    fn give_some_back_apart(&mut self, most: u64) -> u64
        requires some { 0 < most }
        requires free { IsTrue (some_has Kind.Free self.old.rows) }
        requires surplus { IsTrue (some_has Kind.Surplus self.old.rows) }
        requires apart { lowest Kind.FreeSurplus self.old.rows ≡ length self.old.rows }
        ensures moved { self.new ≡ iterate given_back result self.old }
        ensures sums { sum_row self.new.rows ≡ give_back_by result (sum_row self.old.rows) }
        ensures some { 0 < result }
        ensures within { result ≤ most }
    {
        let free = lowest(&self.nodes, Kind::Free);
        let surplus = lowest(&self.nodes, Kind::Surplus);
        let count = most
            .min(self.nodes[free].amount(Kind::Free))
            .min(self.nodes[surplus].amount(Kind::Surplus));
        self.shrink_at(free, count);
        self.promote_at(surplus, count);
        count
    }

    #[tactic(auto, using(crate::proofs::Sums::shrink_sums))]
    fn shrink_at(&mut self, at: usize, count: u64)
        requires within { at < length self.old.rows }
        requires free { count ≤ (row_at self.old.rows at).free }
        requires no_surplus { (row_at self.old.rows at).surp ≡ 0 }
        ensures moved { self.new ≡ record self.old {
          rows = at_row (shrink_by count) at self.old.rows;
        } }
        ensures sums { sum_row self.new.rows ≡ shrink_by count (sum_row self.old.rows) }
    {
        let node = &mut self.nodes[at];
        node.shrink(count);
    }

    #[tactic(auto, using(crate::proofs::Sums::promote_sums))]
    fn promote_at(&mut self, at: usize, count: u64)
        requires within { at < length self.old.rows }
        requires surplus { count ≤ (row_at self.old.rows at).surp }
        ensures moved { self.new ≡ record self.old {
          rows = at_row (promote_by count) at self.old.rows;
        } }
        ensures sums { sum_row self.new.rows ≡ promote_by count (sum_row self.old.rows) }
    {
        let node = &mut self.nodes[at];
        node.promote(count);
    }

    /// So many surplus pages become persistent, one after another, of the lowest node that has one.
    #[tactic(auto, using(hp_model::proofs::Sums::some_surplus, crate::proofs::Repeats::times_add))]
    pub fn promote(&mut self, count: u64)
        requires { count ≤ (sum_row self.old.rows).surp }
        ensures moved { self.new ≡ iterate promoted count self.old }
        ensures sums { sum_row self.new.rows ≡ promote_by count (sum_row self.old.rows) }
    {
        let mut done = 0;
        while done < count {
            done += self.promote_some(count - done);
        }
    }

    // Up to so many, of one node.
    #[tactic(auto, using(crate::proofs::Repeats::promoted_at, crate::proofs::Sums::promote_sums))]
    fn promote_some(&mut self, most: u64) -> u64
        requires some { 0 < most }
        requires surplus { IsTrue (some_has Kind.Surplus self.old.rows) }
        ensures moved { self.new ≡ iterate promoted result self.old }
        ensures sums { sum_row self.new.rows ≡ promote_by result (sum_row self.old.rows) }
        ensures some { 0 < result }
        ensures within { result ≤ most }
    {
        let at = lowest(&self.nodes, Kind::Surplus);
        let node = &mut self.nodes[at];
        let count = most.min(node.amount(Kind::Surplus));
        node.promote(count);
        count
    }

    /// So many persistent pages become surplus, one after another, of the lowest node that has one.
    #[tactic(auto, using(hp_model::proofs::Sums::some_persistent, crate::proofs::Repeats::times_add))]
    pub fn demote(&mut self, count: u64)
        requires { (sum_row self.old.rows).surp + count ≤ (sum_row self.old.rows).total }
        ensures moved { self.new ≡ iterate demoted count self.old }
        ensures sums { sum_row self.new.rows ≡ demote_by count (sum_row self.old.rows) }
    {
        let mut done = 0;
        while done < count {
            done += self.demote_some(count - done);
        }
    }

    // Up to so many, of one node.
    #[tactic(auto, using(crate::proofs::Repeats::demoted_at, crate::proofs::Sums::demote_sums))]
    fn demote_some(&mut self, most: u64) -> u64
        requires some { 0 < most }
        requires persistent { IsTrue (some_has Kind.Persistent self.old.rows) }
        ensures moved { self.new ≡ iterate demoted result self.old }
        ensures sums { sum_row self.new.rows ≡ demote_by result (sum_row self.old.rows) }
        ensures some { 0 < result }
        ensures within { result ≤ most }
    {
        let at = lowest(&self.nodes, Kind::Persistent);
        let node = &mut self.nodes[at];
        let count = most.min(node.amount(Kind::Persistent));
        node.demote(count);
        count
    }
}
