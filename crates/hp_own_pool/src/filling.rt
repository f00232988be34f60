//! Many pages at once: the section of the pool, and the pages of its claims.
ghost use Rattle.std.specs.Prelude.{◌≡◌, ◌+◌, ◌<◌, ◌≤◌, ◌^◌, ◌++◌, false, replicate, IfNone, IfSome};
ghost use Rattle.std.specs.List.{sum};
ghost use Rattle.hp_model.specs.pool.Pool.{filled_by, no_pages, pages_taken, section, takes_of};
ghost use Rattle.hp_model.specs.pool.PoolCounts.{IsSettled};
ghost use Rattle.hp_subpool.specs.Subpool.{is_full as ShareIsFull, used};
ghost use Rattle.hp_mount_door.specs.Door.{IsReady};
ghost use Rattle.hp_mount_door.specs.Filling.{fill_for, nodes_in, with_filled, with_pages};

use crate::parcel::Parcel;
use hp_model::naming::Naming;
use hp_nodes::NodeFrames;
use hp_permit::Claim;
use hp_pool::Pool;
use hp_store::PageBatch;
use hp_subpool::Subpool;

/// Reserves k pages more for the share, and takes the claims of `count` that it then holds, of the lowest nodes first: the
/// section `FillPages`. None where the pool can't commit them; then nothing changes.
pub fn take_pages<N: Naming>(
    pool: &mut Pool<N>,
    share: &mut Subpool<N>,
    k: u64,
    count: u64,
) -> Option<Parcel<N>>
    requires ready { IsReady pool.old }
    requires within { ShareIsFull share.old k ≡ false }
    requires few { used share.old + k < 2 ^ 64 }
    requires held { count ≤ share.old.held + k }
    ensures some { IfSome result (λ parcel. section pool.old (fill_for k count share.old)
        ≡ (filled_by parcel, pool.new)) }
    ensures all { IfSome result (λ parcel. sum parcel ≡ count) }
    ensures share { IfSome result (λ parcel. share.new ≡ with_filled k count share.old) }
    ensures none { IfNone result ((section pool.old (fill_for k count share.old)
        ≡ (no_pages, pool.new)) × (share.new ≡ share.old)) }
    ensures ready { IsReady pool.new }
{
    match share.get(pool, 0, k) {
        Ok(()) => Some(take_claims(pool, share, count)),
        Err(_refusal) => None,
    }
}

// The claims of so many pages for reservations that are held. Each turn takes all that a node has free, or what is left.
fn take_claims<N: Naming>(pool: &mut Pool<N>, share: &mut Subpool<N>, count: u64) -> Parcel<N>
    requires held { count ≤ share.old.held }
    ensures pool { pool.new ≡ pages_taken count pool.old }
    ensures counts { result ≡ takes_of count pool.old }
    ensures all { sum result ≡ count }
    ensures share { share.new ≡ with_pages count share.old }
    ensures settled { IsSettled pool.old → IsSettled pool.new }
{
    let mut parcel = Parcel::new();
    let mut done = 0;
    while done < count {
        let claim = share.take_some(pool, count - done);
        done += claim.amount();
        parcel.add(claim);
    }
    parcel
}

/// Draws the pages of a claim on frames of node K, and adds them to a batch. No byte is written.
pub fn add_claim<N: Naming, const K: usize>(
    frames: &mut NodeFrames<N, K>,
    mut claim: Claim<N>,
    batch: &mut PageBatch<N>,
)
    requires own { claim.node ≡ K }
    requires some { 0 < claim.amount }
    requires room { claim.amount ≤ batch.old.room }
    ensures pages { nodes_in batch.new.pages
        ≡ replicate claim.amount K ++ nodes_in batch.old.pages }
    ensures room { batch.new.room + claim.amount ≡ batch.old.room }
{
    while claim.amount() > 1 {
        let one = claim.split_at(K, 1);
        batch.add(frames.draw(one));
    }
    batch.add(frames.draw(claim));
}
