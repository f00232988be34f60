//! Rounds: as many moves at each node that has any.
ghost use Rattle.std.specs.Prelude.{◌≡◌, ◌≤◌, length, map, All};
ghost use Rattle.std.specs.List.{count_by};
ghost use Rattle.hp_model.specs.pool.NodeRows.{has};
ghost use Rattle.hp_nodes.specs.Moves.{HasMany, where_has, grow_by, shrink_by};

use crate::node::Node;
use hp_model::node::Kind;

/// How many nodes have one.
pub fn having(nodes: &[Node], kind: Kind) -> u64
    ensures count { result ≡ count_by (has kind) nodes.now }
    ensures within { result ≤ length nodes.now }
{
    let mut count = 0;
    for node in nodes {
        if node.has(kind) {
            count += 1;
        }
    }
    count
}

/// The least that a node has, of those that have any.
pub fn least(nodes: &[Node], kind: Kind) -> u64
    ensures { All (HasMany kind result) nodes.now }
{
    let mut least = u64::MAX;
    for node in nodes {
        if node.has(kind) {
            least = least.min(node.amount(kind));
        }
    }
    least
}

/// So many idle frames of each node that has any become pages.
pub fn grow_each(nodes: &mut [Node], count: u64)
    requires { All (HasMany Kind.Idle count) nodes.old }
    ensures { nodes.new ≡ map (where_has Kind.Idle (grow_by count)) nodes.old }
{
    for node in nodes.iter_mut() {
        if node.has(Kind::Idle) {
            node.grow(count);
        }
    }
}

/// So many free pages of each node that has any become idle frames.
pub fn shrink_each(nodes: &mut [Node], count: u64)
    requires free { All (HasMany Kind.Free count) nodes.old }
    requires no_surplus { All (λ r. r.surp ≡ 0) nodes.old }
    ensures { nodes.new ≡ map (where_has Kind.Free (shrink_by count)) nodes.old }
{
    for node in nodes.iter_mut() {
        if node.has(Kind::Free) {
            node.shrink(count);
        }
    }
}
