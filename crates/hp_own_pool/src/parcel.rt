//! Claims on pages that go back together, or were taken together.
ghost use Rattle.std.specs.Prelude.{◌≡◌, ◌+◌, ◌-◌, ◌<◌, ◌≤◌, ◌^◌, [], ◌∷◌, length, slice_index, slice_set};
ghost use Rattle.std.specs.List.{sum};
ghost use Rattle.hp_model.specs.pool.Pool.{kept_times, puts_from, released};
ghost use Rattle.hp_model.specs.pool.PoolCounts.{used as in_use};
ghost use Rattle.hp_subpool.specs.Subpool.{fall};
ghost use Rattle.hp_own_pool.specs.Parcel.{IsPart, claimed};

use hp_model::naming::Naming;
use hp_permit::Claim;
use hp_pool::Pool;
use hp_subpool::Subpool;
use std::marker::Model;
use std::mem;

/// Claims on pages of each node, to be put back at once, or drawn. Contracts see how many of each.
///
/// It can't be dropped: `put` ends it, or `into_claims`.
pub struct Parcel<N: Naming> {
    zero: Option<Claim<N>>,
    one: Option<Claim<N>>,
    two: Option<Claim<N>>,
    three: Option<Claim<N>>,
}

impl<N: Naming> Model for Parcel<N> {
    ghost use Rattle.std.specs.Prelude.{ℕ, List, [], ◌∷◌};
    ghost use Rattle.hp_own_pool.specs.Parcel.{IsPart, claimed};

    ghost Value = { List ℕ };

    ghost view = { λ p. claimed p.zero ∷ claimed p.one ∷ claimed p.two ∷ claimed p.three
        ∷ [] };

    ghost invariant = { λ p. IsPart 0 p.zero × IsPart 1 p.one × IsPart 2 p.two × IsPart 3 p.three };
}

// Adds a claim to those of its node.
fn add_to<N: Naming>(part: &mut Option<Claim<N>>, claim: Claim<N>)
    requires part { IsPart claim.node part.old }
    requires some { 0 < claim.amount }
    requires few { N.frames claim.node < 2 ^ 64 }
    ensures part { IsPart claim.node part.new }
    ensures sum { claimed part.new ≡ claimed part.old + claim.amount }
{
    if let Some(all) = part {
        all.join(claim);
        return;
    }
    match mem::replace(part, Some(claim)) {
        None => {}
        Some(_) => unreachable!(),
    }
}

fn amount<N: Naming>(part: &Option<Claim<N>>) -> u64
    ensures { result ≡ claimed part.now }
{
    match part {
        Some(claim) => claim.amount(),
        None => 0,
    }
}

// Puts the pages of node K back by their claim. What the minimum asks for stays promised.
fn put_part<N: Naming, const K: usize>(
    pool: &mut Pool<N>,
    share: &mut Subpool<N>,
    part: Option<Claim<N>>,
)
    requires part { IsPart K part }
    requires within { claimed part ≤ share.old.pages }
    ensures share { share.new ≡ record share.old { pages = share.old.pages - claimed part } }
    ensures pool { pool.new
        ≡ released (fall share.old (claimed part)) (kept_times K (claimed part) pool.old) }
    ensures used { in_use pool.new + claimed part ≡ in_use pool.old }
{
    if let Some(claim) = part {
        share.put_pages(pool, claim);
    }
}

impl<N: Naming> Parcel<N> {
    /// No claim.
    pub fn new() -> Self
        ensures { result ≡ 0 ∷ 0 ∷ 0 ∷ 0 ∷ [] }
    {
        Parcel {
            zero: None,
            one: None,
            two: None,
            three: None,
        }
    }

    /// Adds a claim.
    pub fn add(&mut self, claim: Claim<N>)
        requires some { 0 < claim.amount }
        requires few { N.frames claim.node < 2 ^ 64 }
        ensures added { self.new
            ≡ slice_set self.old claim.node (slice_index self.old claim.node + claim.amount) }
        ensures below { claim.node < 4 }
    {
        match claim.node() {
            0 => add_to(&mut self.zero, claim),
            1 => add_to(&mut self.one, claim),
            2 => add_to(&mut self.two, claim),
            _ => add_to(&mut self.three, claim),
        }
    }

    /// How many pages of each node.
    pub fn counts(&self) -> [u64; 4]
        ensures counts { result ≡ self.now }
        ensures four { length self.now ≡ 4 }
    {
        [
            amount(&self.zero),
            amount(&self.one),
            amount(&self.two),
            amount(&self.three),
        ]
    }

    /// The claims of each node.
    pub fn into_claims(
        self,
    ) -> (
        Option<Claim<N>>,
        Option<Claim<N>>,
        Option<Claim<N>>,
        Option<Claim<N>>,
    )
        ensures counts { self ≡ claimed result.0 ∷ claimed result.1 ∷ claimed result.2
            ∷ claimed result.3 ∷ [] }
        ensures parts { IsPart 0 result.0 × IsPart 1 result.1 × IsPart 2 result.2
            × IsPart 3 result.3 }
    {
        let Parcel {
            zero,
            one,
            two,
            three,
        } = self;
        (zero, one, two, three)
    }

    /// Puts the pages back at their nodes, in four moves. What the minimum asks for stays promised. The pool may then have
    /// surplus pages that it doesn't need, until it is settled.
    pub fn put(self, pool: &mut Pool<N>, share: &mut Subpool<N>)
        requires { sum self ≤ share.old.pages }
        ensures share { share.new ≡ record share.old { pages = share.old.pages - sum self } }
        ensures pool { pool.new
            ≡ released (fall share.old (sum self)) (puts_from 0 self pool.old) }
        ensures used { in_use pool.new + sum self ≡ in_use pool.old }
    {
        let (zero, one, two, three) = self.into_claims();
        put_part::<N, 0>(pool, share, zero);
        put_part::<N, 1>(pool, share, one);
        put_part::<N, 2>(pool, share, two);
        put_part::<N, 3>(pool, share, three);
    }
}
