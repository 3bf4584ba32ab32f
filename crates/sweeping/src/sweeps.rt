// Sweeps: a client's round over the nodes, which discards the entries of the moved ids and then marks those of the finished ids old.
ghost use Rattle.std.specs.Prelude.{true, ◌&&◌, List, [], ◌≡◌, ℕ, ◌≤◌};
ghost use Rattle.calls.specs.Answers.{Meets, local};
ghost use Rattle.machine.specs.Writing;
ghost use Rattle.machine.specs.Writing.{swept_entries};
ghost use Rattle.entries.specs.Entries.{entry_limit, finished_limit};
ghost use Rattle.records.specs.Client.{client_within};
ghost use Rattle.records.specs.Node.{with_entries, node_within};
ghost use Rattle.records.specs.NodeSteps;
ghost use Rattle.records.specs.NodeSteps.{sweep_answer};
ghost use Rattle.records.specs.Sizes.{sizes_within};
ghost use Rattle.records.specs.View.{node_of, client_of};
ghost use Rattle.sweeping.specs.Sweeping.{sweep_node};

use calls::{Answer, AtNode};
use limits::at_node::is_within;
use records::{ClientRecord, NodeRecord, NodeStep, Refusal, Sizes};

// The node's step, by the half that the round is in.
fn sweep_entries(z: Sizes, node: NodeRecord, client: ClientRecord) -> NodeStep
    requires { (node.entries.count ≤ entry_limit) × (client.moved.count ≤ finished_limit) × (client.finished.count ≤ finished_limit) }
    ensures { NodeSteps.MeetsAtNode (sweep_answer (node_of node))
        (with_entries (node_of node) (swept_entries z (client_of client) (node_of node).entries)) node result }
{
    let moved = client.moved;
    let finished = client.finished;
    if client.is_discarding(z.n) {
        node.discard(moved)
    } else {
        node.mark(finished)
    }
}

// The node's step and, if the node takes it, one more sweep of the round.
fn sweep_node(z: Sizes, node: NodeRecord, client: ClientRecord) -> AtNode
    requires { (sizes_within z && (node_within z (node_of node) && client_within z (client_of client))) ≡ true }
    ensures { (blocks differences : List ℕ) →
        Meets (sweep_node z (local (node_of node) (client_of client) blocks differences))
        result.answer [] (local (node_of result.node) (client_of result.client) blocks differences)
        ((result.node ≡ node) × (result.client ≡ client)) }
{
    let step = sweep_entries(z, node, client);
    match step.answer {
        Err(why) => AtNode::refused(node, client, why),
        Ok(()) => {
            let swept = step.node;
            let next = client.sweep_on(z.n);
            AtNode {
                answer: Answer::Accepted,
                node: swept,
                client: next,
            }
        }
    }
}

// One node of the round.
pub fn sweep(z: Sizes, c: u8, node: NodeRecord, client: ClientRecord) -> AtNode
    ensures { (blocks differences : List ℕ) →
        Meets (Writing.sweep z c (local (node_of node) (client_of client) blocks differences))
        result.answer [] (local (node_of result.node) (client_of result.client) blocks differences)
        ((result.node ≡ node) × (result.client ≡ client)) }
{
    if !is_within(z, node, client) {
        return AtNode::refused(node, client, Refusal::OutOfLimits);
    }
    if !z.is_client(c) {
        return AtNode::refused(node, client, Refusal::OutOfRange);
    }
    if client.has_write() {
        return AtNode::refused(node, client, Refusal::OutOfPhase);
    }
    sweep_node(z, node, client)
}
