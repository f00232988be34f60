//! How pages become persistent, and how they cease to be.
ghost use Rattle.std.specs.Prelude.{◌≡◌, ◌+◌, ◌-◌, ◌<◌, ◌≤◌};
ghost use Rattle.hp_model.specs.pool.Resize.{raise_times, lower_times};
ghost use Rattle.hp_pool.specs.Sums.{sums, MorePersistent, SameUsed};

use hp_model::naming::Naming;
use hp_nodes::NodeLists;

/// Makes so many more pages persistent: surplus pages first, then frames.
#[tactic(auto, using(crate::proofs::Runs::raised_are))]
pub fn raise<N: Naming>(lists: &mut NodeLists<N>, count: u64)
    requires { (sums lists.old).total - (sums lists.old).surp + count ≤ (sums lists.old).frames }
    ensures moved { lists.new ≡ raise_times count lists.old }
    ensures frames { (sums lists.new).frames ≡ (sums lists.old).frames }
    ensures surp { (sums lists.new).surp ≡ (sums lists.old).surp - count }
    ensures total { MorePersistent count (sums lists.old) (sums lists.new) }
    ensures free { SameUsed (sums lists.old) (sums lists.new) }
{
    let surplus = count.min(lists.sums().surp);
    lists.promote(surplus);
    lists.grow(count - surplus);
}

/// Makes so many fewer pages persistent: free pages leave that are not reserved, then others become surplus.
#[tactic(auto, using(crate::proofs::Runs::lowered_are))]
pub fn lower<N: Naming>(lists: &mut NodeLists<N>, reserved: u64, count: u64)
    requires settled { reserved < (sums lists.old).free → (sums lists.old).surp ≡ 0 }
    requires backed { reserved ≤ (sums lists.old).free }
    requires persistent { (sums lists.old).surp + count ≤ (sums lists.old).total }
    ensures moved { lists.new ≡ lower_times reserved count lists.old }
    ensures frames { (sums lists.new).frames ≡ (sums lists.old).frames }
    ensures settled { reserved < (sums lists.new).free → (sums lists.new).surp ≡ 0 }
    ensures backed { reserved ≤ (sums lists.new).free }
    ensures total { MorePersistent count (sums lists.new) (sums lists.old) }
    ensures free { SameUsed (sums lists.old) (sums lists.new) }
{
    let spare = count.min(lists.sums().free - reserved);
    lists.shrink(spare);
    lists.demote(count - spare);
}
