//! The door of one thread, which never lacks room to note a section.
ghost use Rattle.std.specs.Prelude.{◌≡◌, ◌+◌, ◌-◌, ◌<◌, ◌≤◌, [], ◌∷◌, ◌++◌, length, replicate, All, IsTrue, IfOk, IfErr, IsOk, ◌↔◌};
ghost use Rattle.std.specs.List.{sum};
ghost use Rattle.hp_model.specs.pool.Grant.{can_grant, granted};
ghost use Rattle.hp_model.specs.pool.NodeRows.{row_at, total_of, free_of, surp_of};
ghost use Rattle.hp_model.specs.pool.Pool.{puts_from, released, section};
ghost use Rattle.hp_model.specs.pool.PoolCounts.{IsSettled, counts_of};
ghost use Rattle.hp_model.specs.pool.Resize.{set_nr, node_count};
ghost use Rattle.hp_model.specs.Profile.{most_frames, most_overcommit};
ghost use Rattle.hp_nodes.specs.Ledgers.{AreFrames};
ghost use Rattle.hp_pool.specs.Ledgers.{AreLedgers};
ghost use Rattle.hp_pool.specs.Sums.{idle_pool};
ghost use Rattle.hp_subpool.specs.Subpool.{fall, opened};
ghost use Rattle.hp_mount_door.specs.Door.{by_node, IsReady};
ghost use Rattle.hp_mount_door.specs.Filling.{AreRising, nodes_in};
ghost use Rattle.hp_own_pool.specs.Parcel.{IsPart, claimed};

use crate::filling::{add_claim, take_pages};
use crate::limits::set_limits;
use crate::opening::open_share;
use crate::parcel::Parcel;
use hp_model::answer::{Counts, NodeCount};
use hp_model::limits::Limits;
use hp_model::naming::Naming;
use hp_model::refusal::Refusal;
use hp_mount_door::PoolDoor;
use hp_nodes::{Frames, NodeFrames, Page};
use hp_permit::Claim;
use hp_pool::{Blanks, Pool};
use hp_store::{PageBatch, PageStore};
use hp_subpool::Subpool;
use std::alloc::{AllocError, Global};
use std::marker::Model;

/// The pool, and the frames that nobody holds. Contracts see the pool. It can't be dropped: `close` ends it.
pub struct OwnPool<N: Naming> {
    pool: Pool<N>,
    frames: Frames<N>,
}

impl<N: Naming> Model for OwnPool<N> {
    ghost use Rattle.hp_model.specs.pool.PoolCounts.{Pool};

    ghost Value = { Pool };

    ghost view = { λ p. p.pool };
}

impl<N: Naming> OwnPool<N> {
    /// A pool over 1 to 4 nodes with so many frames each, which the blanks have; no frame is in the
    /// pool yet, and nr and overcommit are 0.
    ///
    /// Takes no memory but that of the rows: that of the pages was taken for the blanks. Where it is refused, all is
    /// given back before the error is answered.
    pub fn new(alloc: Global, frames: &[u64], blanks: Blanks) -> Result<Self, AllocError>
        requires some { 0 < length frames.now }
        requires few { length frames.now ≤ 4 }
        requires small { All (λ f. f ≤ most_frames) frames.now }
        requires ledgers { AreLedgers N.Naming blanks }
        requires frames { AreFrames N.frames frames.now }
        ensures { IfOk result (λ p. p ≡ idle_pool frames.now) }
    {
        let Blanks { permits, nodes } = blanks;
        let (stocks, claims) = Frames::new(nodes);
        match Pool::new(alloc, frames, permits, claims) {
            Ok(pool) => Ok(OwnPool {
                pool,
                frames: stocks,
            }),
            Err(error) => {
                stocks.close();
                Err(error)
            }
        }
    }

    /// A pool with the frames of its nodes.
    pub fn from_parts(pool: Pool<N>, frames: Frames<N>) -> Self
        ensures { result ≡ pool }
    {
        OwnPool { pool, frames }
    }

    /// The pool, and the frames of its nodes.
    pub fn into_parts(self) -> (Pool<N>, Frames<N>)
        ensures { result.0 ≡ self }
    {
        let OwnPool { pool, frames } = self;
        (pool, frames)
    }

    /// A share with nothing in use, whose minimum is committed at home node 0. See `Subpool::open`.
    pub fn share(&mut self, max: Option<u64>, min: u64) -> Result<Subpool<N>, Refusal>
        requires { IsSettled self.old }
        ensures granted { IsOk result ↔ IsTrue (can_grant min self.old) }
        ensures ok { IfOk result (λ s. (s ≡ opened max min) × (self.new ≡ granted 0 min self.old)) }
        ensures err { IfErr result (λ e. (e ≡ Refusal.NoPages) × (self.new ≡ self.old)) }
        ensures nothing { min ≡ 0 → self.new ≡ self.old }
        ensures settled { IsSettled self.new }
    {
        Subpool::open(&mut self.pool, max, min)
    }

    /// Sets nr to n, or to the number of frames where n is more, whatever is in use, and answers it.
    pub fn set_nr(&mut self, n: u64) -> u64
        requires { IsSettled self.old }
        ensures moved { self.new ≡ set_nr n self.old }
        ensures value { result ≡ self.new.nr }
        ensures settled { IsSettled self.new }
    {
        self.pool.set_nr(n)
    }

    /// Sets how many surplus pages may be made. It changes no page.
    pub fn set_overcommit(&mut self, n: u64)
        requires within { n ≤ most_overcommit }
        requires settled { IsSettled self.old }
        ensures moved { self.new ≡ record self.old { overcommit = n } }
        ensures settled { IsSettled self.new }
    {
        self.pool.set_overcommit(n);
    }

    /// The pool's numbers.
    pub fn counts(&self) -> Counts
        requires { IsSettled self.now }
        ensures counts { result ≡ counts_of self.now }
        ensures total { result.total ≡ total_of self.now.nodes.rows }
        ensures free { result.free ≡ free_of self.now.nodes.rows }
        ensures surp { result.surp ≡ surp_of self.now.nodes.rows }
        ensures backed { result.rsvd ≤ result.free }
    {
        self.pool.counts()
    }

    /// One node's pages: all, those that are free, and the surplus.
    pub fn node(&self, node: usize) -> NodeCount
        requires { node < length self.now.nodes.rows }
        ensures { result ≡ node_count (row_at self.now.nodes.rows node) }
    {
        self.pool.node(node)
    }

    /// How many nodes there are.
    pub fn len(&self) -> usize
        ensures { result ≡ length self.now.nodes.rows }
    {
        self.pool.len()
    }

    /// Ends the pool, and gives its memory back. A page or a permit that is still out can't come back.
    pub fn close(self) -> Counts
        requires { IsSettled self }
        ensures { result ≡ counts_of self }
    {
        let OwnPool { pool, frames } = self;
        frames.close();
        pool.close()
    }
}

// The claims of pages that go back, each of which is given to its node. (Apart, so that the parcel stays in its place: in
// registers it would be moved for each page.)
#[inline(never)]
fn gather<N: Naming>(frames: &mut Frames<N>, going: &mut PageStore<N>, parcel: &mut Parcel<N>)
    requires { parcel.old ≡ 0 ∷ 0 ∷ 0 ∷ 0 ∷ [] }
    ensures claims { parcel.new ≡ by_node going.old.going }
    ensures all { sum (by_node going.old.going) ≡ length going.old.going }
    ensures going { going.new ≡ record going.old { going = [] } }
{
    while let Some(page) = going.next_going() {
        parcel.add(frames.give(page));
    }
}

// Puts pages back. What the minimum asks for stays promised.
fn put_pages<N: Naming>(
    pool: &mut Pool<N>,
    frames: &mut Frames<N>,
    share: &mut Subpool<N>,
    going: &mut PageStore<N>,
)
    requires pages { length going.old.going ≤ share.old.pages }
    ensures share { share.new
        ≡ record share.old { pages = share.old.pages - length going.old.going } }
    ensures pool { pool.new ≡ released (fall share.old (length going.old.going))
        (puts_from 0 (by_node going.old.going) pool.old) }
    ensures going { going.new ≡ record going.old { going = [] } }
{
    let mut parcel = Parcel::new();
    gather(frames, going, &mut parcel);
    parcel.put(pool, share);
}

// Draws the pages of a claim on node K's frames, if there is one.
fn add_part<N: Naming, const K: usize>(
    frames: &mut NodeFrames<N, K>,
    part: Option<Claim<N>>,
    batch: &mut PageBatch<N>,
)
    requires part { IsPart K part }
    requires room { claimed part ≤ batch.old.room }
    ensures pages { nodes_in batch.new.pages
        ≡ replicate (claimed part) K ++ nodes_in batch.old.pages }
    ensures room { batch.new.room + claimed part ≡ batch.old.room }
{
    if let Some(claim) = part {
        add_claim(frames, claim, batch);
    }
}

// Draws the pages of the claims, those of the highest node first, so that those of the lowest come out of the batch first.
fn add_pages<N: Naming>(frames: &mut Frames<N>, parcel: Parcel<N>, batch: &mut PageBatch<N>)
    requires { batch.old ≡ record { pages = []; room = sum parcel } }
    ensures counts { by_node batch.new.pages ≡ parcel }
    ensures rising { AreRising (sum parcel) batch.new.pages }
{
    let (zero, one, two, three) = parcel.into_claims();
    add_part(&mut frames.3, three, batch);
    add_part(&mut frames.2, two, batch);
    add_part(&mut frames.1, one, batch);
    add_part(&mut frames.0, zero, batch);
}

impl<N: Naming> PoolDoor<N> for OwnPool<N> {
    ghost is_ready = { IsReady };

    ghost took = { λ p s a q. section p s ≡ (a, q) };

    ghost is_full = { λ p. ⊥ };

    ghost is_left = { IsReady };

    ghost stays = { λ d ready. ready };

    fn get(&mut self, share: &mut Subpool<N>, home: usize, k: u64) -> Result<(), Refusal> {
        share.get(&mut self.pool, home, k)
    }

    fn get_page(&mut self, share: &mut Subpool<N>, home: usize) -> Result<Page<N>, Refusal> {
        share.get(&mut self.pool, home, 1)?;
        let claim = share.take_one(&mut self.pool, home);
        Ok(self.frames.redeem(claim))
    }

    fn take_page(&mut self, share: &mut Subpool<N>, home: usize) -> Result<Page<N>, Refusal> {
        let claim = share.take_one(&mut self.pool, home);
        Ok(self.frames.redeem(claim))
    }

    fn fill(
        &mut self,
        share: &mut Subpool<N>,
        k: u64,
        count: u64,
        batch: &mut PageBatch<N>,
    ) -> Result<(), Refusal> {
        let Some(parcel) = take_pages(&mut self.pool, share, k, count) else {
            return Err(Refusal::NoPages);
        };
        add_pages(&mut self.frames, parcel, batch);
        Ok(())
    }

    fn put(&mut self, share: &mut Subpool<N>, going: &mut PageStore<N>, reserves: u64) {
        put_pages(&mut self.pool, &mut self.frames, share, going);
        share.put_reserves(&mut self.pool, reserves);
        self.pool.settle();
    }

    fn open(&mut self, page_bytes: u64, options: &[u8]) -> Result<(Subpool<N>, Limits), Refusal> {
        let (share, _section, _answer) = open_share(&mut self.pool, page_bytes, options);
        share
    }

    fn limits(
        &mut self,
        share: &mut Subpool<N>,
        page_bytes: u64,
        options: &[u8],
    ) -> Result<Option<u64>, Refusal> {
        let (files, _section, _answer) = set_limits(&mut self.pool, share, page_bytes, options);
        files
    }

    fn empty(&mut self, share: &mut Subpool<N>, going: &mut PageStore<N>) {
        let mut last = share.take_all();
        put_pages(&mut self.pool, &mut self.frames, &mut last, going);
        let held = last.used();
        last.put_reserves(&mut self.pool, held);
        last.close(&mut self.pool);
        self.pool.settle();
    }
}
