// One node of a stripe, by its number.
ghost use Rattle.std.specs.Prelude.{◌≡◌, ℕ, ◌≤◌, replicate};
ghost use Rattle.machine.specs.Stripe.{node_at};
ghost use Rattle.basics.specs.Lists.{set_at};
ghost use Rattle.records.specs.Node.{fresh_node};
ghost use Rattle.records.specs.View.{node_of};
ghost use Rattle.records.specs.Sizes.{node_limit};
ghost use Rattle.stripe.specs.View.{nodes_of};

use crate::record_at;
use records::{NodeRecord, Sizes};
use stripe::Nodes;

pub fn fresh() -> Nodes
    ensures { (n : ℕ) → n ≤ node_limit → nodes_of n result ≡ replicate n fresh_node }
{
    Nodes {
        items: [NodeRecord::fresh(); Sizes::NODES],
    }
}

// The record of node j, or a failed one where there is no such node.
pub fn get(nodes: Nodes, n: usize, j: usize) -> NodeRecord
    requires { n ≤ node_limit }
    ensures { node_of result ≡ node_at (nodes_of n nodes) j }
{
    record_at(&nodes.items[..n], j, NodeRecord::failed())
}

// Not by put_at on a part of the array: that proof did not close, as it has no name for the array after a store through a part.
pub fn set(nodes: Nodes, n: usize, j: usize, node: NodeRecord) -> Nodes
    requires { n ≤ node_limit }
    ensures { nodes_of n result ≡ set_at (nodes_of n nodes) j (node_of node) }
{
    if j < 1 {
        return nodes;
    }
    if n < j {
        return nodes;
    }
    nodes.set(j, node)
}
