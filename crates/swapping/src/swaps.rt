// Swap.
ghost use Rattle.std.specs.Prelude.{◌&&◌, ◌||◌, List, [], ◌≡◌, ℕ, ◌+◌, ◌-◌, ◌*◌, ◌≤◌, ◌<◌, eqb, leb, length};
ghost use Rattle.blocks.specs.Blocks.{block, set_block, difference};
ghost use Rattle.code.specs.Decode.{no_nodes, including};
ghost use Rattle.entries.specs.Entries.{entry_limit, last_recent, write_limit};
ghost use Rattle.records.specs.Client.{began, has_write, client_within};
ghost use Rattle.records.specs.Node.{node_within};
ghost use Rattle.records.specs.Sizes.{sizes_within, is_position, is_client};
ghost use Rattle.records.specs.View.{node_of, client_of};
ghost use Rattle.machine.specs.Stripe.{Accepted, answered};
ghost use Rattle.machine.specs.Writing as Writing;
ghost use Rattle.calls.specs.Answers.{Meets, local};
ghost use Rattle.calls.specs.Stepping.{StepsRecords};

use calls::{Answer, AtNode};
use entries::{Ids, WriteId};
use limits::tables::are_tables;
use records::{ClientRecord, NodeRecord, Refusal, Sizes, Write};

// Whether a swap's sizes, records, tables and value are within the limits.
fn is_within(
    z: Sizes,
    node: NodeRecord,
    client: ClientRecord,
    blocks: usize,
    differences: usize,
    value: usize,
) -> bool
    ensures { result ≡ (sizes_within z && ((node_within z (node_of node) && client_within z (client_of client))
        && ((eqb blocks (z.n * z.b) && eqb differences (z.m * z.b)) && eqb value z.b))) }
{
    z.within()
        && (node.is_within(z)
            && (client.is_within(z) && (are_tables(blocks, differences, z) && value == z.b)))
}

fn is_in_range(z: Sizes, c: u8, i: u8) -> bool
    ensures { result ≡ (is_client z c && is_position z i) }
{
    z.is_client(c) && z.is_position(i)
}

// Whether the client has a write in hand, or is in a sweep round.
fn is_busy(client: ClientRecord) -> bool
    ensures { result ≡ (has_write (client_of client).hand || leb 1 client.round) }
{
    client.has_write() || 1 <= client.round
}

// The value into block i, and what it differs by from the old block into difference c.
fn swap_bytes(b: usize, c: u8, i: u8, value: &[u8], blocks: &mut [u8], differences: &mut [u8])
    requires { (length value.now ≡ b) × (1 ≤ i) × ((i - 1) * b + b ≤ length blocks.old) × (1 ≤ c) × ((c - 1) * b + b ≤ length differences.old) }
    ensures blocks { blocks.new ≡ set_block b i value.now blocks.old }
    ensures differences { differences.new ≡ set_block b c (difference value.now (block b i blocks.old)) differences.old }
{
    let a = (c as usize - 1) * b;
    let e = a + b;
    blocks::swap_block(blocks, b, i as usize, &mut differences[a..e], value);
}

// The id of client c's next write, at position i.
fn next_id(c: u8, i: u8, client: ClientRecord) -> WriteId
    ensures { result ≡ record { client = c; position = i; number = client.next } }
{
    let number = client.next;
    WriteId {
        client: c,
        position: i,
        number,
    }
}

// The client with the write in hand, by its node's record before the swap.
fn begin(id: WriteId, node: NodeRecord, client: ClientRecord) -> ClientRecord
    requires { (node.entries.count ≤ entry_limit) × (client.next.0 < write_limit) }
    ensures { client_of result ≡ began
        (record { id = id; previous = last_recent (node_of node).entries; epoch = node.epoch; done = including id.position no_nodes })
        (client_of client) }
{
    let previous = node.entries.last_recent();
    let epoch = node.epoch;
    client.begin(Write::new(id, previous, epoch))
}

// The tests past those of the limits, in the order of their numbers; then the two records as the swap leaves them.
fn step_records(z: Sizes, c: u8, i: u8, node: NodeRecord, client: ClientRecord) -> AtNode
    requires { node.entries.count ≤ entry_limit }
    ensures { (value blocks differences : List ℕ) → StepsRecords
        (Writing.swap_tests z c i (node_of node) (client_of client))
        (answered Accepted (Writing.swapped z c i value (local (node_of node) (client_of client) blocks differences)))
        node client result }
{
    if !is_in_range(z, c, i) {
        return AtNode::refused(node, client, Refusal::OutOfRange);
    }
    if is_busy(client) {
        return AtNode::refused(node, client, Refusal::OutOfPhase);
    }
    let id = next_id(c, i, client);
    let step = node.swap(id);
    if let Err(why) = step.answer {
        return AtNode::refused(node, client, why);
    }
    if Ids::LIMIT <= client.finished.count {
        return AtNode::refused(node, client, Refusal::Full);
    }
    if ClientRecord::WRITES <= client.next.0 {
        return AtNode::refused(node, client, Refusal::Exhausted);
    }
    let entered = step.node;
    AtNode {
        answer: Answer::Accepted,
        node: entered,
        client: begin(id, node, client),
    }
}

// A value into data node i's block, its difference into client c's, and a new write in hand.
pub fn swap(
    z: Sizes,
    c: u8,
    i: u8,
    value: &[u8],
    node: NodeRecord,
    client: ClientRecord,
    blocks: &mut [u8],
    differences: &mut [u8],
) -> AtNode
    ensures { Meets
        (Writing.swap z c i value.now (local (node_of node) (client_of client) blocks.old differences.old))
        result.answer [] (local (node_of result.node) (client_of result.client) blocks.new differences.new)
        ((result.node ≡ node) × (result.client ≡ client)) }
{
    if !is_within(
        z,
        node,
        client,
        blocks.len(),
        differences.len(),
        value.len(),
    ) {
        return AtNode::refused(node, client, Refusal::OutOfLimits);
    }
    let stepped = step_records(z, c, i, node, client);
    let answer = stepped.answer;
    if answer.number() != 0 {
        return stepped;
    }
    let b = z.b;
    swap_bytes(b, c, i, value, blocks, differences);
    stepped
}
