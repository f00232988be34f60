//! Which node a move chooses.
ghost use Rattle.std.specs.Prelude.{◌≡◌, ◌+◌, ◌<◌, ◌≤◌, ◌==◌, if◌then◌else◌, length, IsTrue};
ghost use Rattle.hp_model.specs.pool.NodeRows.{lowest, near, next_from, some_has, row_at};
ghost use Rattle.hp_nodes.specs.Moves.{amount};

use crate::node::Node;
use hp_model::node::Kind;

/// The lowest node that has one, or how many nodes there are.
#[tactic(auto, using(crate::proofs::Finds::has_lowest))]
pub fn lowest(nodes: &[Node], kind: Kind) -> usize
    ensures node { result ≡ lowest kind nodes.now }
    ensures within { result ≤ length nodes.now }
    ensures has { result < length nodes.now → 0 < amount kind (row_at nodes.now result) }
{
    nodes
        .iter()
        .position(|node| node.has(kind))
        .unwrap_or(nodes.len())
}

/// Home where it has one, else the lowest node that has.
#[tactic(auto, using(crate::proofs::Finds::has_lowest))]
pub fn near(nodes: &[Node], kind: Kind, home: usize) -> usize
    requires { IsTrue (some_has kind nodes.now) }
    ensures node { result ≡ near kind home nodes.now }
    ensures below { result < length nodes.now }
    ensures has { 0 < amount kind (row_at nodes.now result) }
{
    if home < nodes.len() && nodes[home].has(kind) {
        home
    } else {
        lowest(nodes, kind)
    }
}

/// The first node that has one, from a place on and round.
#[tactic(auto, using(crate::proofs::Finds::has_lowest, crate::proofs::Finds::has_ahead))]
pub fn next_from(nodes: &[Node], kind: Kind, from: usize) -> usize
    requires from { from < length nodes.now }
    requires some { IsTrue (some_has kind nodes.now) }
    ensures node { result ≡ next_from kind from nodes.now }
    ensures below { result < length nodes.now }
    ensures has { 0 < amount kind (row_at nodes.now result) }
{
    let count = nodes.len();
    let (_, rest) = nodes.split_at(from);
    let ahead = from + lowest(rest, kind);
    if ahead < count {
        ahead
    } else {
        lowest(nodes, kind)
    }
}

/// The node after, and 0 after the last.
pub fn after(at: usize, count: usize) -> usize
    requires { at < count }
    ensures node { result ≡ (if at + 1 == count then 0 else at + 1) }
    ensures below { result < count }
{
    if at + 1 == count { 0 } else { at + 1 }
}
