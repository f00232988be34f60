//! A lock for the frames of each node.
ghost use Rattle.std.specs.Prelude.{◌≡◌, ◌∷◌, ◌+◌, ◌<◌, ◌≤◌, ◌^◌, ◌++◌, [], length, replicate};
ghost use Rattle.std.specs.List.{sum};
ghost use Rattle.hp_mount_door.specs.Door.{by_node};
ghost use Rattle.hp_mount_door.specs.Filling.{AreRising, nodes_in};
ghost use Rattle.hp_own_pool.specs.Parcel.{IsPart, claimed};
ghost use Rattle.hp_order.specs.Order.{AreBelow};

use crate::gate::Gate;
use hp_model::naming::Naming;
use hp_nodes::{Frames, NodeFrames, Page, PageDraft};
use hp_order::{LineLock, Ordered, RankedLock, Turn, hold, let_go};
use hp_own_pool::Parcel;
use hp_own_pool::filling::add_claim;
use hp_permit::Claim;
use hp_store::{PageBatch, PageStore};
use std::sync::{MutexGuard, Wait};

/// The frames of each node that nobody holds, under a lock of its own, on cache lines of its own. No page is filled, read or
/// written under one.
pub struct NodeLocks<N: Naming> {
    zero: LineLock<Stock<N, 0>>,
    one: LineLock<Stock<N, 1>>,
    two: LineLock<Stock<N, 2>>,
    three: LineLock<Stock<N, 3>>,
}

// The frames of node K that nobody holds.
struct Stock<N: Naming, const K: usize> {
    frames: NodeFrames<N, K>,
}

impl<N: Naming, const K: usize> Ordered for Stock<N, K> {
    ghost rank = { 2 };

    #[inline(always)]
    fn rank() -> u64 {
        2
    }
}

// The frames from under their lock.
fn frames_of<N: Naming, const K: usize>(lock: LineLock<Stock<N, K>>) -> NodeFrames<N, K> {
    let Stock { frames } = lock.into_inner();
    frames
}

// The frames of node K, once their lock is held.
#[inline(always)]
fn held<'b, N: Naming, R: Wait, G: Gate, const K: usize>(
    turn: &mut Turn,
    rt: &R,
    gate: &G,
    lock: &'b RankedLock<Stock<N, K>>,
) -> MutexGuard<'b, Stock<N, K>>
    requires { AreBelow 2 turn.old.held }
    ensures { turn.new.held ≡ 2 ∷ turn.old.held }
{
    let frames = hold(turn, lock, rt);
    gate.frame(K as u64);
    frames
}

// Draws the page of a claim on node K's frames.
#[inline(always)]
fn draw_at<N: Naming, R: Wait, G: Gate, const K: usize>(
    turn: &mut Turn,
    rt: &R,
    gate: &G,
    lock: &RankedLock<Stock<N, K>>,
    claim: Claim<N>,
) -> PageDraft<N>
    requires turn { AreBelow 2 turn.old.held }
    requires one { claim.amount ≡ 1 }
    requires node { claim.node ≡ K }
    ensures turn { turn.new.held ≡ turn.old.held }
    ensures node { result.node ≡ claim.node }
{
    let mut frames = held(turn, rt, gate, lock);
    let draft = frames.frames.draw(claim);
    let_go(turn, frames);
    draft
}

// Gives a page back to node K's frames.
#[inline(always)]
fn give_at<N: Naming, R: Wait, G: Gate, const K: usize>(
    turn: &mut Turn,
    rt: &R,
    gate: &G,
    lock: &RankedLock<Stock<N, K>>,
    page: Page<N>,
) -> Claim<N>
    requires turn { AreBelow 2 turn.old.held }
    requires node { page.node ≡ K }
    ensures turn { turn.new.held ≡ turn.old.held }
    ensures claim { result ≡ record { node = page.node; amount = 1 } }
    ensures few { N.frames page.node < 2 ^ 64 }
{
    let mut frames = held(turn, rt, gate, lock);
    let claim = frames.frames.give(page);
    let_go(turn, frames);
    claim
}

// Draws the pages of a claim on node K's frames, if there is one, in one hold of its lock.
fn add_part_at<N: Naming, R: Wait, G: Gate, const K: usize>(
    turn: &mut Turn,
    rt: &R,
    gate: &G,
    lock: &RankedLock<Stock<N, K>>,
    part: Option<Claim<N>>,
    batch: &mut PageBatch<N>,
)
    requires turn { AreBelow 2 turn.old.held }
    requires part { IsPart K part }
    requires room { claimed part ≤ batch.old.room }
    ensures pages { nodes_in batch.new.pages
        ≡ replicate (claimed part) K ++ nodes_in batch.old.pages }
    ensures room { batch.new.room + claimed part ≡ batch.old.room }
    ensures turn { turn.new.held ≡ turn.old.held }
{
    if let Some(claim) = part {
        let mut value = held(turn, rt, gate, lock);
        let stock: &mut Stock<N, K> = &mut value;
        add_claim(&mut stock.frames, claim, batch);
        let_go(turn, value);
    }
}

impl<N: Naming> NodeLocks<N> {
    /// Locks round the frames of all nodes.
    pub fn new(frames: Frames<N>) -> Self {
        let (zero, one, two, three) = frames.into_nodes();
        NodeLocks {
            zero: LineLock::new(Stock { frames: zero }),
            one: LineLock::new(Stock { frames: one }),
            two: LineLock::new(Stock { frames: two }),
            three: LineLock::new(Stock { frames: three }),
        }
    }

    /// The frames of all nodes.
    pub fn into_frames(self) -> Frames<N> {
        let NodeLocks {
            zero,
            one,
            two,
            three,
        } = self;
        Frames::from_nodes(
            frames_of(zero),
            frames_of(one),
            frames_of(two),
            frames_of(three),
        )
    }

    /// The page of a claim. It is drawn under its node's lock, and made after it. Never refused.
    pub fn redeem<R: Wait, G: Gate>(
        &self,
        turn: &mut Turn,
        rt: &R,
        gate: &G,
        claim: Claim<N>,
    ) -> Page<N>
        requires turn { AreBelow 2 turn.old.held }
        requires one { claim.amount ≡ 1 }
        ensures node { result.node ≡ claim.node }
        ensures turn { turn.new.held ≡ turn.old.held }
    {
        let draft = match claim.node() {
            0 => draw_at(turn, rt, gate, self.zero.lock(), claim),
            1 => draw_at(turn, rt, gate, self.one.lock(), claim),
            2 => draw_at(turn, rt, gate, self.two.lock(), claim),
            _ => draw_at(turn, rt, gate, self.three.lock(), claim),
        };
        draft.into_page()
    }

    /// Draws the pages of the claims, those of the highest node first, so that those of the lowest come out of the batch
    /// first. Each node's lock is held once, and no page is made under it. Never refused.
    pub fn add_pages<R: Wait, G: Gate>(
        &self,
        turn: &mut Turn,
        rt: &R,
        gate: &G,
        parcel: Parcel<N>,
        batch: &mut PageBatch<N>,
    )
        requires turn { AreBelow 2 turn.old.held }
        requires empty { batch.old ≡ record { pages = []; room = sum parcel } }
        ensures counts { by_node batch.new.pages ≡ parcel }
        ensures rising { AreRising (sum parcel) batch.new.pages }
        ensures turn { turn.new.held ≡ turn.old.held }
    {
        let (zero, one, two, three) = parcel.into_claims();
        add_part_at(turn, rt, gate, self.three.lock(), three, batch);
        add_part_at(turn, rt, gate, self.two.lock(), two, batch);
        add_part_at(turn, rt, gate, self.one.lock(), one, batch);
        add_part_at(turn, rt, gate, self.zero.lock(), zero, batch);
    }

    /// The claim of a page that comes back. Never refused.
    pub fn give<R: Wait, G: Gate>(
        &self,
        turn: &mut Turn,
        rt: &R,
        gate: &G,
        page: Page<N>,
    ) -> Claim<N>
        requires { AreBelow 2 turn.old.held }
        ensures claim { result ≡ record { node = page.node; amount = 1 } }
        ensures few { N.frames page.node < 2 ^ 64 }
        ensures turn { turn.new.held ≡ turn.old.held }
    {
        match page.node() {
            0 => give_at(turn, rt, gate, self.zero.lock(), page),
            1 => give_at(turn, rt, gate, self.one.lock(), page),
            2 => give_at(turn, rt, gate, self.two.lock(), page),
            _ => give_at(turn, rt, gate, self.three.lock(), page),
        }
    }

    /// The claims of all pages that go back, each of which is given to its node.
    pub fn gather<R: Wait, G: Gate>(
        &self,
        turn: &mut Turn,
        rt: &R,
        gate: &G,
        going: &mut PageStore<N>,
    ) -> Parcel<N>
        requires { AreBelow 2 turn.old.held }
        ensures claims { result ≡ by_node going.old.going }
        ensures all { sum (by_node going.old.going) ≡ length going.old.going }
        ensures going { going.new ≡ record going.old { going = [] } }
        ensures turn { turn.new.held ≡ turn.old.held }
    {
        let mut parcel = Parcel::new();
        while let Some(page) = going.next_going() {
            parcel.add(self.give(turn, rt, gate, page));
        }
        parcel
    }
}
