// Every call but read and pick as one function on the record of the node that it is at, the record of its client and the tables.
ghost use Rattle.std.specs.Prelude.{List, [], ◌≡◌, ℕ};
ghost use Rattle.calls.specs.Answers.{Meets, local};
ghost use Rattle.machine.specs.Calls.{step_at};
ghost use Rattle.records.specs.View.{node_of, client_of};
ghost use Rattle.stripe.specs.Seen.{keep};
ghost use Rattle.step.specs.Steps.{StepsAs};

use aging::Ticked;
use calls::{Answer, AtNode, OfClient, OfNode, StepCall};
use rebuild::Stepped;
use records::{ClientCall, ClientRecord, NodeCall, NodeRecord, Sizes};
use stripe::{Change, Seen};

// What a call at one node hands back: no other node changes. No impl of From: both types are of other crates.
fn kept(r: AtNode) -> Stepped
    ensures { result ≡ record { answer = r.answer; node = r.node; client = r.client; change = keep } }
{
    Stepped {
        answer: r.answer,
        node: r.node,
        client: r.client,
        change: Change::keep(),
    }
}

// What a call that hands back the client's record alone leaves, with the node's record as it was.
fn beside(node: NodeRecord, r: OfClient) -> AtNode
    ensures { result ≡ record { answer = r.answer; node = node; client = r.client } }
{
    AtNode {
        answer: r.answer,
        node,
        client: r.client,
    }
}

// What a failure leaves, which is no client's call.
fn failed(client: ClientRecord, r: OfNode) -> AtNode
    ensures { result ≡ record { answer = r.answer; node = r.node; client = client } }
{
    AtNode {
        answer: r.answer,
        node: r.node,
        client,
    }
}

// What a call that asks leaves: the very records.
fn asked(node: NodeRecord, client: ClientRecord, answer: Answer) -> AtNode
    ensures { result ≡ record { answer = answer; node = node; client = client } }
{
    AtNode {
        answer,
        node,
        client,
    }
}

// What a tick leaves: the very records, and all nodes changed.
fn ticked(node: NodeRecord, client: ClientRecord, r: Ticked) -> Stepped
    ensures { result ≡ record { answer = r.answer; node = node; client = client; change = r.change } }
{
    Stepped {
        answer: r.answer,
        node,
        client,
        change: r.change,
    }
}

// A client's call at a node that it names.
fn at_node(
    z: Sizes,
    op: NodeCall,
    c: u8,
    j: u8,
    node: NodeRecord,
    client: ClientRecord,
    blocks: &mut [u8],
    differences: &[u8],
) -> AtNode
    ensures { Meets
        (step_at op z c j (local (node_of node) (client_of client) blocks.old differences.now))
        result.answer [] (local (node_of result.node) (client_of result.client) blocks.new differences.now)
        ((result.node ≡ node) × (result.client ≡ client)) }
{
    match op {
        NodeCall::Add => adding::add(z, c, j, node, client, blocks, differences),
        NodeCall::Check => beside(node, sweeping::check(z, c, j, node, client)),
    }
}

// A client's call that names nothing else.
fn by_client(
    z: Sizes,
    op: ClientCall,
    c: u8,
    seen: Seen,
    node: NodeRecord,
    client: ClientRecord,
    blocks: &mut [u8],
    spare: &[u8],
) -> Stepped
    ensures { (value differences : List ℕ) →
        StepsAs z (StepCall.By op c) seen node client value blocks.old spare.now differences result blocks.new differences }
{
    match op {
        ClientCall::Drop => kept(beside(node, sweeping::drop(z, c, client))),
        ClientCall::Sweep => kept(sweeping::sweep(z, c, node, client)),
        ClientCall::Stop => failure::stop(z, c, seen, node, client),
        ClientCall::Lock => locking::lock(z, c, seen, node, client),
        ClientCall::Weaken => locking::weaken(z, c, seen, node, client),
        ClientCall::Tighten => locking::tighten(z, c, seen, node, client),
        ClientCall::Write => restoring::write(z, c, seen, node, client, blocks, spare),
        ClientCall::Settle => restoring::settle(z, c, seen, node, client),
        ClientCall::Unlock => locking::unlock(z, c, seen, node, client),
        ClientCall::Quit => locking::quit(z, c, seen, node, client),
    }
}

// The call's answer, and the records and tables after it. It is handed the record of its client, that of the node that it is at, and, if it looks
// at all nodes, what is seen of them.
pub fn step(
    z: Sizes,
    call: StepCall,
    seen: Seen,
    node: NodeRecord,
    client: ClientRecord,
    value: &[u8],
    blocks: &mut [u8],
    spare: &[u8],
    differences: &mut [u8],
) -> Stepped
    ensures { StepsAs z call seen node client value.now blocks.old spare.now differences.old
        result blocks.new differences.new }
{
    match call {
        StepCall::Swap(c, i) => kept(swapping::swap(
            z,
            c,
            i,
            value,
            node,
            client,
            blocks,
            differences,
        )),
        StepCall::Fail(j) => kept(failed(client, failure::fail(z, j, value, node, blocks))),
        StepCall::Due(j) => kept(asked(node, client, aging::due(z, j, node))),
        StepCall::Tick => ticked(node, client, aging::tick(z, seen)),
        StepCall::At(op, c, j) => kept(at_node(z, op, c, j, node, client, blocks, differences)),
        StepCall::By(op, c) => by_client(z, op, c, seen, node, client, blocks, spare),
    }
}
