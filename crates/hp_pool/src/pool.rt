//! The pool.
ghost use Rattle.std.specs.Prelude.{◌≡◌, ◌+◌, ◌-◌, ◌<◌, ◌≤◌, ◌^◌, ◌==◌, ℕ, if◌then◌else◌, length, min, All, IsTrue, IfOk, IfErr, IsOk, ◌↔◌};
ghost use Rattle.hp_model.specs.machine.Settled.{IsSettledPool};
ghost use Rattle.hp_model.specs.pool.NodeRows.{IsRow, row_at, used as used_at, frames_of, total_of, free_of, surp_of};
ghost use Rattle.hp_model.specs.pool.Grant.{can_grant, granted};
ghost use Rattle.hp_model.specs.pool.Pool.{take_node, page_taken, pages_taken, kept_times, released, trimmed};
ghost use Rattle.hp_model.specs.pool.PoolCounts.{IsSettled, counts_of, rsvd, used};
ghost use Rattle.hp_model.specs.pool.Resize.{set_nr, node_count};
ghost use Rattle.hp_model.specs.Profile.{most_frames, most_overcommit};
ghost use Rattle.hp_nodes.specs.Ledgers.{AreAll, AreFrames, all_frames};
ghost use Rattle.hp_pool.specs.Ledgers.{IsLedger};
ghost use Rattle.hp_pool.specs.Sums.{idle_pool};

use crate::moves;
use hp_model::answer::{Counts, NodeCount};
use hp_model::naming::Naming;
use hp_model::refusal::Refusal;
use hp_nodes::NodeLists;
use hp_permit::{Book, Claim, ClaimSet, Permit};
use std::alloc::{AllocError, Global};
use std::marker::Model;
use std::sync::ledger::Blank;

/// The pool of huge pages (`admin-guide/mm/hugetlbpage.rst`). All numbers are pages.
///
/// Contracts see the two numbers that are set (nr and overcommit), what is committed (pages in use
/// and pages promised), and the nodes. The pool is settled where the surplus is what the
/// commitments are above nr: then no surplus page is unneeded, and the counts follow from these
/// numbers (profile). `put` and `release` may leave it unsettled, until `settle`.
///
/// By the invariants of this type, of `Book` and of `NodeLists`, whenever nobody works on the pool
/// (its lock is free), what is promised is the sum of all permits that are out, and the pages in use
/// are the claims that are out, whoever holds them; and there are at least as many free pages as are
/// promised. So whoever holds a permit of 1 gets a claim from `take`, whatever others do.
///
/// No call but `new` takes memory. It can't be dropped: `close` ends it.
pub struct Pool<N: Naming> {
    // first, so that it lies beside the word of a lock round the pool: both are written each time a page is taken
    book: Book<N>,
    nr: u64,
    overcommit: u64,
    lists: NodeLists<N>,
}

impl<N: Naming> Model for Pool<N> {
    ghost use Rattle.std.specs.Prelude.{◌+◌};
    ghost use Rattle.hp_model.specs.pool.NodeRows.{sum_row};
    ghost use Rattle.hp_model.specs.pool.Pool.{IsPool};
    ghost use Rattle.hp_model.specs.pool.PoolCounts.{Pool, used_of};

    ghost Value = { Pool };

    ghost view = { λ p. record {
      nr = p.nr;
      overcommit = p.overcommit;
      committed = p.book + used_of p.lists.rows;
      nodes = p.lists;
    } };

    ghost invariant = { λ p. IsPool p.nr p.overcommit p.book (sum_row p.lists.rows) };
}

impl<N: Naming> Pool<N> {
    /// A pool over 1 to 4 nodes with so many frames each, on which there are these claims; no frame is in the
    /// pool yet, and nr and overcommit are 0.
    ///
    /// Takes no memory but that of the lists. Where it is refused, the claims are spent.
    #[tactic(auto, using(hp_model::proofs::Sums::idle_total, hp_model::proofs::Sums::idle_surp))]
    pub fn new(
        alloc: Global,
        frames: &[u64],
        permits: Blank,
        claims: ClaimSet<N>,
    ) -> Result<Self, AllocError>
        requires some { 0 < length frames.now }
        requires few { length frames.now ≤ 4 }
        requires small { All (λ f. f ≤ most_frames) frames.now }
        requires permits { IsLedger N.permits permits }
        requires claims { AreAll N.frames claims }
        requires frames { AreFrames N.frames frames.now }
        ensures { IfOk result (λ p. p ≡ idle_pool frames.now) }
    {
        let lists = NodeLists::new(alloc, frames, claims)?;
        Ok(Pool {
            nr: 0,
            overcommit: 0,
            book: Book::new(permits),
            lists,
        })
    }

    /// Commits k pages more. Surplus pages are made, near the home node, for what no page is free for.
    ///
    /// Refused as NoPages where more than nr and overcommit together, or more than all frames, would
    /// be committed. Nothing is always granted, and changes nothing.
    #[tactic(auto, using(crate::proofs::Runs::added_are))]
    pub fn reserve(&mut self, home: usize, k: u64) -> Result<Permit<N>, Refusal>
        requires { IsSettled self.old }
        ensures granted { IsOk result ↔ IsTrue (can_grant k self.old) }
        ensures ok { IfOk result (λ permit. (permit ≡ k) × (self.new ≡ granted home k self.old)) }
        ensures err { IfErr result (λ e. (e ≡ Refusal.NoPages) × (self.new ≡ self.old)) }
        ensures nothing { k ≡ 0 → self.new ≡ self.old }
        ensures settled { IsSettled self.new }
    {
        let sums = self.lists.sums();
        let committed = self.book.outstanding() + (sums.total - sums.free);
        let most = (self.nr + self.overcommit).min(sums.frames);
        if k != 0 && (most < committed || most - committed < k) {
            return Err(Refusal::NoPages);
        }
        let needed = committed + k;
        if sums.total < needed {
            self.lists.add_surplus(home, needed - sums.total);
        }
        Ok(self.book.issue(k))
    }

    /// Takes the claim of a page by a permit of 1: of the home node where it has a free page, else of the lowest
    /// node that has. Never refused.
    #[tactic(auto, using(hp_model::proofs::Sums::some_free))]
    pub fn take(&mut self, home: usize, permit: Permit<N>) -> Claim<N>
        requires { permit ≡ 1 }
        ensures moved { self.new ≡ page_taken home self.old }
        ensures claim { result ≡ record { node = take_node home self.old; amount = 1 } }
        ensures free { 0 < (row_at self.old.nodes.rows result.node).free }
        ensures settled { IsSettled self.old → IsSettled self.new }
    {
        self.book.retire(permit);
        self.lists.take(home)
    }

    /// Takes the claim of free pages, at most so many, by as much of a permit, in one move: of the lowest node that has a
    /// free page; all that it has free where that is less. Never refused.
    #[tactic(auto, using(hp_model::proofs::Sums::some_free))]
    pub fn take_some(&mut self, permit: &mut Permit<N>, most: u64) -> Claim<N>
        requires some { 0 < most }
        requires promised { most ≤ permit.old }
        ensures moved { self.new ≡ pages_taken result.amount self.old }
        ensures permit { permit.new + result.amount ≡ permit.old }
        ensures node { result.node ≡ take_node 0 self.old }
        ensures amount { result.amount
            ≡ min most (row_at self.old.nodes.rows result.node).free }
        ensures few { N.frames result.node < 2 ^ 64 }
        ensures some { 0 < result.amount }
        ensures used { (k : ℕ) → used_at (row_at self.new.nodes.rows k)
            ≡ used_at (row_at self.old.nodes.rows k)
            + (if result.node == k then result.amount else 0) }
        ensures settled { IsSettled self.old → IsSettled self.new }
    {
        self.book.check(permit);
        let claim = self.lists.take_some(0, most);
        let part = permit.split(claim.amount());
        self.book.retire(part);
        claim
    }

    /// Puts pages back at their node, by their claim, and commits so many less. Never refused.
    pub fn put(&mut self, claim: Claim<N>)
        requires { 0 < claim.amount }
        ensures moved { self.new
            ≡ released claim.amount (kept_times claim.node claim.amount self.old) }
        ensures used { used self.new + claim.amount ≡ used self.old }
    {
        self.lists.put(claim);
    }

    /// Puts pages back at their node, by their claim, and keeps so many promised. Never refused.
    pub fn put_keep(&mut self, claim: Claim<N>) -> Permit<N>
        requires { 0 < claim.amount }
        ensures moved { self.new ≡ kept_times claim.node claim.amount self.old }
        ensures used { used self.new + claim.amount ≡ used self.old }
        ensures kept { result ≡ claim.amount }
        ensures settled { IsSettled self.old → IsSettled self.new }
    {
        let count = claim.amount();
        self.lists.put(claim);
        self.book.issue(count)
    }

    /// Commits so many pages less as the permit promises.
    pub fn release(&mut self, permit: Permit<N>)
        ensures moved { self.new ≡ released permit self.old }
        ensures covered { permit ≤ self.old.committed }
    {
        self.book.retire(permit);
    }

    /// Gives the unneeded surplus pages back, so that they leave the pool
    /// (`admin-guide/mm/hugetlbpage.rst`).
    #[tactic(auto, using(crate::proofs::Runs::given_back_are))]
    pub fn settle(&mut self)
        ensures moved { self.new ≡ trimmed self.old }
        ensures used { used self.new ≡ used self.old }
        ensures settled { IsSettled self.new }
    {
        let sums = self.lists.sums();
        let spare = (sums.free - self.book.outstanding()).min(sums.surp);
        self.lists.give_back(spare);
    }

    /// Sets nr to n, or to the number of frames where n is more, whatever is in use, and answers it.
    ///
    /// Raising promotes surplus pages first and then takes frames in; lowering gives free pages back
    /// that nobody is promised, and makes the other pages surplus
    /// (`admin-guide/mm/hugetlbpage.rst`).
    pub fn set_nr(&mut self, n: u64) -> u64
        requires { IsSettled self.old }
        ensures moved { self.new ≡ set_nr n self.old }
        ensures value { result ≡ self.new.nr }
        ensures settled { IsSettled self.new }
    {
        let sums = self.lists.sums();
        let target = n.min(sums.frames);
        let reserved = self.book.outstanding();
        moves::raise(&mut self.lists, target.saturating_sub(self.nr));
        moves::lower(&mut self.lists, reserved, self.nr.saturating_sub(target));
        self.nr = target;
        target
    }

    /// Sets how many surplus pages may be made. It changes no page.
    pub fn set_overcommit(&mut self, n: u64)
        requires within { n ≤ most_overcommit }
        requires settled { IsSettled self.old }
        ensures moved { self.new ≡ record self.old { overcommit = n } }
        ensures settled { IsSettled self.new }
    {
        self.overcommit = n;
    }

    /// The pool's numbers, which follow from what is set, committed and in use, and are the sums over
    /// the nodes.
    pub fn counts(&self) -> Counts
        requires { IsSettled self.now }
        ensures counts { result ≡ counts_of self.now }
        ensures total { result.total ≡ total_of self.now.nodes.rows }
        ensures free { result.free ≡ free_of self.now.nodes.rows }
        ensures surp { result.surp ≡ surp_of self.now.nodes.rows }
        ensures backed { result.rsvd ≤ result.free }
    {
        let sums = self.lists.sums();
        Counts {
            total: sums.total,
            free: sums.free,
            rsvd: self.book.outstanding(),
            surp: sums.surp,
            nr: self.nr,
            overcommit: self.overcommit,
        }
    }

    /// Shows what holds of the numbers whenever nobody works on the pool, and of the rows at all times.
    /// It does nothing.
    pub fn law(&self)
        ensures rows { All IsRow self.now.nodes.rows }
        ensures used { used self.now ≤ self.now.committed }
        ensures settled { IsSettled self.now → IsSettledPool self.now }
    {
        let _sums = self.lists.sums();
        self.lists.law();
    }

    /// Shows that a permit's amount is promised. It changes nothing.
    pub fn check(&mut self, permit: &mut Permit<N>)
        ensures pool { self.new ≡ self.old }
        ensures permit { permit.new ≡ permit.old }
        ensures promised { permit.old ≤ rsvd self.old }
    {
        self.book.check(permit);
    }

    /// One node's pages: all, those that are free, and the surplus.
    pub fn node(&self, node: usize) -> NodeCount
        requires { node < length self.now.nodes.rows }
        ensures { result ≡ node_count (row_at self.now.nodes.rows node) }
    {
        self.lists.count(node)
    }

    /// How many pages are persistent, apart from those that became surplus.
    pub fn nr(&self) -> u64
        ensures { result ≡ self.now.nr }
    {
        self.nr
    }

    /// How many nodes there are.
    pub fn len(&self) -> usize
        ensures { result ≡ length self.now.nodes.rows }
    {
        self.lists.len()
    }

    /// How many frames there are in all.
    pub fn frames(&self) -> u64
        ensures { result ≡ all_frames N.frames }
    {
        self.lists.sums().frames
    }

    /// Ends the pool, and gives its memory back. A page or a permit that is still out can't come back.
    pub fn close(self) -> Counts
        requires { IsSettled self }
        ensures { result ≡ counts_of self }
    {
        let counts = self.counts();
        let Pool {
            nr: _,
            overcommit: _,
            book,
            lists,
        } = self;
        book.close();
        lists.close();
        counts
    }
}
