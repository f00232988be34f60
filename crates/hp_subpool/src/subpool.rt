//! The subpool.
ghost use Rattle.std.specs.Prelude.{◌≡◌, ◌+◌, ◌-◌, ◌<◌, ◌≤◌, ◌^◌, ◌==◌, ℕ, if◌then◌else◌, min, IsTrue, IfOk, IfErr, IsOk, OnOk, OnErr, Err, ◌↔◌};
ghost use Rattle.hp_model.specs.pool.Grant.{can_grant, granted, is_over};
ghost use Rattle.hp_model.specs.pool.Pool.{take_node, page_taken, pages_taken, kept_times, released};
ghost use Rattle.hp_model.specs.pool.NodeRows.{row_at, used as used_at};
ghost use Rattle.hp_model.specs.pool.PoolCounts.{IsSettled, rsvd, used as in_use};
ghost use Rattle.hp_nodes.specs.Ledgers.{all_frames};
ghost use Rattle.hp_subpool.specs.Subpool.{used, own_reserve, committed_of, rise, fall, gain, is_full, can_get, lacks_pages, opened, with_limits, with_minimum, with_reserves, with_page, with_pages};

use hp_model::naming::Naming;
use hp_model::refusal::Refusal;
use hp_permit::{Claim, Permit};
use hp_pool::Pool;
use std::marker::Model;

/// What one mount may use of the pool, and what it has of it (`mm/hugetlbfs_reserv.rst`). All numbers are pages.
///
/// It holds two permits: one for its minimum, of what the minimum is above the pages in use and
/// the reservations, and one for the reservations of its files and maps. So a held reservation
/// always gets a page, and the minimum stays committed. It can't be dropped: `close` ends it, and `end` where it has nothing.
pub struct Subpool<N: Naming> {
    max: Option<u64>,
    min: u64,
    pages: u64,
    own: Permit<N>,
    held: Permit<N>,
    // the frames of all nodes
    frames: u64,
}

impl<N: Naming> Model for Subpool<N> {
    ghost use Rattle.std.specs.Prelude.{◌≡◌, ◌+◌, ◌-◌, ◌<◌, ◌^◌};
    ghost use Rattle.hp_nodes.specs.Ledgers.{all_frames};
    ghost use Rattle.hp_subpool.specs.Subpool.{Subpool};

    ghost Value = { Subpool };

    ghost view = { λ s. record { max = s.max; min = s.min; pages = s.pages; held = s.held } };

    ghost invariant = { λ s. (s.own ≡ s.min - (s.pages + s.held)) × (s.pages + s.held < 2 ^ 64)
        × (s.frames ≡ all_frames N.frames) };
}

impl<N: Naming> Subpool<N> {
    /// A subpool with nothing in use, whose minimum is committed in the pool, at home node 0.
    /// `max` is the most pages, where there is a limit.
    ///
    /// Refused as NoPages where the pool can't commit the minimum.
    pub fn open(pool: &mut Pool<N>, max: Option<u64>, min: u64) -> Result<Self, Refusal>
        requires { IsSettled pool.old }
        ensures granted { IsOk result ↔ IsTrue (can_grant min pool.old) }
        ensures ok { IfOk result (λ s. (s ≡ opened max min) × (pool.new ≡ granted 0 min pool.old)) }
        ensures err { IfErr result (λ e. (e ≡ Refusal.NoPages) × (pool.new ≡ pool.old)) }
        ensures nothing { min ≡ 0 → pool.new ≡ pool.old }
        ensures settled { IsSettled pool.new }
    {
        let mut own = pool.reserve(0, min)?;
        let held = own.split(0);
        Ok(Subpool {
            max,
            min,
            pages: 0,
            own,
            held,
            frames: pool.frames(),
        })
    }

    /// Reserves k pages more, out of what is kept for the minimum first (`mm/hugetlbfs_reserv.rst`).
    ///
    /// Refused as MountFull where they are past the limit, and else as NoPages where the pool
    /// can't commit the rest. Nothing more is always granted (profile).
    pub fn get(&mut self, pool: &mut Pool<N>, home: usize, k: u64) -> Result<(), Refusal>
        requires settled { IsSettled pool.old }
        requires fits { used self.old + k < 2 ^ 64 }
        ensures granted { IsOk result ↔ IsTrue (can_get self.old k pool.old) }
        ensures full { (result ≡ Err Refusal.MountFull) ↔ IsTrue (is_full self.old k) }
        ensures no_pages { (result ≡ Err Refusal.NoPages)
            ↔ IsTrue (lacks_pages self.old k pool.old) }
        ensures ok { OnOk result ((self.new ≡ with_reserves k self.old)
            × (pool.new ≡ granted home (rise self.old k) pool.old)) }
        ensures err { OnErr result ((self.new ≡ self.old) × (pool.new ≡ pool.old)) }
        ensures nothing { rise self.old k ≡ 0 → pool.new ≡ pool.old }
        ensures settled { IsSettled pool.new }
    {
        if self.is_full(k) {
            return Err(Refusal::MountFull);
        }
        let own = k.min(self.own.amount());
        let new = pool.reserve(home, k - own)?;
        self.held.join(new);
        let kept = self.own.split(own);
        self.held.join(kept);
        Ok(())
    }

    /// Whether k pages more are past the limit. None more never are (profile).
    pub fn is_full(&self, k: u64) -> bool
        ensures { result ≡ is_full self.now k }
    {
        match self.max {
            None => false,
            Some(max) => k > max.saturating_sub(self.used()),
        }
    }

    /// Shows that what the share holds is promised. It changes nothing.
    pub fn check_held(&mut self, pool: &mut Pool<N>)
        ensures sub { self.new ≡ self.old }
        ensures pool { pool.new ≡ pool.old }
        ensures held { self.old.held ≤ rsvd pool.old }
        ensures own { own_reserve self.old ≤ rsvd pool.old }
    {
        pool.check(&mut self.held);
        pool.check(&mut self.own);
    }

    /// Takes the claim of a page for a reservation that is held: of the home node where it has a free page,
    /// else of the lowest node that has. Never refused.
    pub fn take_one(&mut self, pool: &mut Pool<N>, home: usize) -> Claim<N>
        requires { 0 < self.old.held }
        ensures sub { self.new ≡ with_page self.old }
        ensures pool { pool.new ≡ page_taken home pool.old }
        ensures claim { result ≡ record { node = take_node home pool.old; amount = 1 } }
        ensures settled { IsSettled pool.old → IsSettled pool.new }
    {
        self.pages += 1;
        let permit = self.held.split(1);
        pool.take(home, permit)
    }

    /// Takes the claim of pages for reservations that are held, at most so many, in one move: of the lowest node that has a
    /// free page; all that it has free where that is less. Never refused.
    pub fn take_some(&mut self, pool: &mut Pool<N>, most: u64) -> Claim<N>
        requires some { 0 < most }
        requires held { most ≤ self.old.held }
        ensures sub { self.new ≡ with_pages result.amount self.old }
        ensures pool { pool.new ≡ pages_taken result.amount pool.old }
        ensures node { result.node ≡ take_node 0 pool.old }
        ensures amount { result.amount
            ≡ min most (row_at pool.old.nodes.rows result.node).free }
        ensures few { N.frames result.node < 2 ^ 64 }
        ensures some { 0 < result.amount }
        ensures within { result.amount ≤ most }
        ensures used { (k : ℕ) → used_at (row_at pool.new.nodes.rows k)
            ≡ used_at (row_at pool.old.nodes.rows k)
            + (if result.node == k then result.amount else 0) }
        ensures settled { IsSettled pool.old → IsSettled pool.new }
    {
        let claim = pool.take_some(&mut self.held, most);
        self.pages += claim.amount();
        claim
    }

    /// Puts pages back at their node, by their claim. What the minimum asks for stays promised.
    /// The pool may then have surplus pages that it doesn't need, until it is settled.
    pub fn put_pages(&mut self, pool: &mut Pool<N>, claim: Claim<N>)
        requires some { 0 < claim.amount }
        requires within { claim.amount ≤ self.old.pages }
        ensures sub { self.new ≡ record self.old { pages = self.old.pages - claim.amount } }
        ensures pool { pool.new
            ≡ released (fall self.old claim.amount) (kept_times claim.node claim.amount pool.old) }
        ensures used { in_use pool.new + claim.amount ≡ in_use pool.old }
    {
        let count = claim.amount();
        let own = self.min.saturating_sub(self.used() - count);
        let mut part = pool.put_keep(claim);
        let kept = part.split(own - self.own.amount());
        self.pages -= count;
        self.own.join(kept);
        pool.release(part);
    }

    /// Gives k reservations back. What the minimum asks for stays promised.
    /// The pool may then have surplus pages that it doesn't need, until it is settled.
    pub fn put_reserves(&mut self, pool: &mut Pool<N>, k: u64)
        requires { k ≤ self.old.held }
        ensures sub { self.new ≡ record self.old { held = self.old.held - k } }
        ensures pool { pool.new ≡ released (fall self.old k) pool.old }
        ensures covered { fall self.old k ≤ pool.old.committed }
    {
        let own = self.min.saturating_sub(self.used() - k);
        let mut part = self.held.split(k);
        let kept = part.split(own - self.own.amount());
        self.own.join(kept);
        pool.release(part);
    }

    /// Sets the limit and the minimum anew (`admin-guide/mm/hugetlbpage.rst`). The pool commits what the minimum adds,
    /// at home node 0, or takes back what it leaves, and gives the surplus pages back that it then doesn't need. What is in
    /// use and held stays, also past the limit, which then stops growth alone.
    ///
    /// Refused as NoPages where the pool can't commit what the minimum adds.
    pub fn set_limits(
        &mut self,
        pool: &mut Pool<N>,
        max: Option<u64>,
        min: u64,
    ) -> Result<(), Refusal>
        requires { IsSettled pool.old }
        ensures granted { IsOk result ↔ IsTrue (can_grant (gain self.old min) pool.old) }
        ensures ok { OnOk result ((self.new ≡ with_limits max min self.old)
            × (pool.new ≡ with_minimum self.old min pool.old)) }
        ensures err { IfErr result (λ e. e ≡ Refusal.NoPages) }
        ensures same { OnErr result ((self.new ≡ self.old) × (pool.new ≡ pool.old)) }
        ensures settled { IsSettled pool.new }
    {
        let own = min.saturating_sub(self.used());
        let kept = self.own.amount();
        if own < kept {
            let part = self.own.split(kept - own);
            pool.release(part);
            pool.settle();
        } else {
            let part = pool.reserve(0, own - kept)?;
            self.own.join(part);
        }
        self.max = max;
        self.min = min;
        Ok(())
    }

    /// The most pages, where there is a limit.
    pub fn max(&self) -> Option<u64>
        ensures { result ≡ self.now.max }
    {
        self.max
    }

    /// The pages that stay committed.
    pub fn min(&self) -> u64
        ensures { result ≡ self.now.min }
    {
        self.min
    }

    /// The reservations that files and maps hold.
    pub fn held(&self) -> u64
        ensures { result ≡ self.now.held }
    {
        self.held.amount()
    }

    /// The pages in use and the reservations.
    pub fn used(&self) -> u64
        ensures { result ≡ used self.now }
    {
        self.pages + self.held.amount()
    }

    /// What is kept for the minimum alone.
    pub fn own_reserve(&self) -> u64
        ensures reserve { result ≡ own_reserve self.now }
        ensures committed { used self.now + result ≡ committed_of self.now }
    {
        self.own.amount()
    }

    /// How many frames all nodes have.
    pub fn frames(&self) -> u64
        ensures { result ≡ all_frames N.frames }
    {
        self.frames
    }

    /// All that this one has, as a subpool of its own. Nothing is left here, and no minimum.
    pub fn take_all(&mut self) -> Subpool<N>
        ensures all { result ≡ self.old }
        ensures none { self.new ≡ record self.old { min = 0; pages = 0; held = 0 } }
    {
        let all = Subpool {
            max: self.max,
            min: self.min,
            pages: self.pages,
            own: self.own.split(self.own.amount()),
            held: self.held.split(self.held.amount()),
            frames: self.frames,
        };
        self.min = 0;
        self.pages = 0;
        all
    }

    /// Ends a subpool that has nothing in use, and no minimum.
    pub fn end(self)
        requires { committed_of self ≡ 0 }
    {
        let Subpool {
            max: _,
            min: _,
            pages: _,
            own,
            held,
            frames: _,
        } = self;
        own.close();
        held.close();
    }

    /// Ends the subpool, and its minimum with it.
    pub fn close(self, pool: &mut Pool<N>)
        requires { used self ≡ 0 }
        ensures pool { pool.new ≡ released self.min pool.old }
        ensures covered { self.min ≤ pool.old.committed }
    {
        let Subpool {
            max: _,
            min: _,
            pages: _,
            mut own,
            held,
            frames: _,
        } = self;
        own.join(held);
        pool.release(own);
    }
}
