// Add: a client's difference, times the coefficient, into a redundant block, and the id of its write at that node.
ghost use Rattle.std.specs.Prelude.{true, cond, ◌&&◌, ◌||◌, List, [], ◌≡◌, ℕ, ◌+◌, ◌-◌, ◌*◌, ◌≤◌, ◌<◌, eqb, leb, length, Some};
ghost use Rattle.blocks.specs.Blocks.{block, set_block, add_times};
ghost use Rattle.code.specs.Code.{coefficient};
ghost use Rattle.code.specs.Decode.{has, each, including};
ghost use Rattle.code.specs.View.{node_set_of};
ghost use Rattle.entries.specs.Entries.{entry_limit, finished_limit};
ghost use Rattle.records.specs.Client.{with_hand, finished_write, client_within};
ghost use Rattle.records.specs.Node.{node_within};
ghost use Rattle.records.specs.Sizes.{sizes_within, is_redundant, is_client};
ghost use Rattle.records.specs.View.{node_of, write_of, client_of};
ghost use Rattle.machine.specs.Writing;
ghost use Rattle.machine.specs.Writing.{is_complete, with_done, added};
ghost use Rattle.calls.specs.Answers.{Meets, local};
ghost use Rattle.calls.specs.Stepping.{StepsRecords};

use calls::{Answer, AtNode, OfClient};
use code::NodeSet;
use limits::tables::are_tables;
use records::{ClientRecord, NodeRecord, Refusal, Sizes, Write};

// Whether an add's sizes, records and tables are within the limits.
fn is_within(
    z: Sizes,
    node: NodeRecord,
    client: ClientRecord,
    blocks: usize,
    differences: usize,
) -> bool
    ensures { result ≡ (sizes_within z && ((node_within z (node_of node) && client_within z (client_of client))
        && (eqb blocks (z.n * z.b) && eqb differences (z.m * z.b)))) }
{
    z.within() && (node.is_within(z) && (client.is_within(z) && are_tables(blocks, differences, z)))
}

fn is_in_range(z: Sizes, c: u8, j: u8) -> bool
    ensures { result ≡ (is_client z c && is_redundant z j) }
{
    z.is_client(c) && z.is_redundant(j)
}

// Whether the set has every redundant node.
fn has_redundant(z: Sizes, done: NodeSet) -> bool
    requires { z.k ≤ z.n }
    ensures { result ≡ each z.n (λ j. leb j z.k || has (node_set_of done) j) }
{
    let n = z.n;
    let mut j = z.k;
    while j < n {
        if !done.contains(j + 1) {
            return false;
        }
        j += 1;
    }
    true
}

// Whether a write at position i is complete, by the nodes where it is done.
fn is_complete(z: Sizes, i: u8, done: NodeSet) -> bool
    requires { z.k ≤ z.n }
    ensures { result ≡ is_complete z i (node_set_of done) }
{
    done.contains(i as usize) && has_redundant(z, done)
}

// Node j joins the nodes done; a write that is complete then leaves the hand, and its id joins the finished list.
fn join(z: Sizes, j: u8, write: Write, client: ClientRecord) -> OfClient
    requires { (z.k ≤ z.n) × (client.finished.count < finished_limit) }
    ensures answer { result.answer ≡ cond (is_complete z write.id.position (including j (node_set_of write.done))) Answer.Done Answer.Added }
    ensures client { client_of result.client ≡ cond (is_complete z write.id.position (including j (node_set_of write.done)))
        (finished_write write.id (client_of client))
        (with_hand (Some (with_done (write_of write) (including j (node_set_of write.done)))) (client_of client)) }
{
    let done = write.done;
    if is_complete(z, write.id.position, done.with(j as usize)) {
        let id = write.id;
        return OfClient {
            answer: Answer::Done,
            client: client.finish(id),
        };
    }
    OfClient {
        answer: Answer::Added,
        client: client.join(write, j),
    }
}

// c(j,i) times client c's difference, added to block j.
fn add_bytes(b: usize, c: u8, j: u8, i: u8, blocks: &mut [u8], differences: &[u8])
    requires { (1 ≤ j) × ((j - 1) * b + b ≤ length blocks.old) × (1 ≤ c) × ((c - 1) * b + b ≤ length differences.now) × (1 ≤ i) }
    ensures { blocks.new
        ≡ set_block b j (add_times (coefficient j i) (block b j blocks.old) (block b c differences.now)) blocks.old }
{
    let a = (c as usize - 1) * b;
    let e = a + b;
    let x = code::coefficient(j as usize, i as usize);
    blocks::add_times_block(blocks, b, j as usize, &differences[a..e], x);
}

// The write in hand at node j, if it is not done there and the node takes it: the id entered, and j joined.
fn step_write(z: Sizes, j: u8, write: Write, node: NodeRecord, client: ClientRecord) -> AtNode
    requires { (client.hand ≡ Some write) × (z.k ≤ z.n) × (node.entries.count ≤ entry_limit) × (client.finished.count < finished_limit) }
    ensures { (c : ℕ) (blocks differences : List ℕ) → StepsRecords
        (Writing.write_tests j (client_of client).hand (node_of node))
        (added z c j (client_of client).hand (local (node_of node) (client_of client) blocks differences))
        node client result }
{
    let done = write.done;
    if done.contains(j as usize) {
        return AtNode::refused(node, client, Refusal::OutOfPhase);
    }
    let step = node.add(write);
    if let Err(why) = step.answer {
        return AtNode::refused(node, client, why);
    }
    let entered = step.node;
    let joined = join(z, j, write, client);
    let answer = joined.answer;
    let client = joined.client;
    AtNode {
        answer,
        node: entered,
        client,
    }
}

// The tests past those of the limits, in the order of their numbers; then the two records as the add leaves them.
fn step_records(z: Sizes, c: u8, j: u8, node: NodeRecord, client: ClientRecord) -> AtNode
    requires { (sizes_within z && (node_within z (node_of node) && client_within z (client_of client))) ≡ true }
    ensures { (blocks differences : List ℕ) → StepsRecords
        (Writing.add_tests z c j (node_of node) (client_of client))
        (added z c j (client_of client).hand (local (node_of node) (client_of client) blocks differences))
        node client result }
{
    if !is_in_range(z, c, j) {
        return AtNode::refused(node, client, Refusal::OutOfRange);
    }
    match client.hand {
        None => AtNode::refused(node, client, Refusal::OutOfPhase),
        Some(write) => step_write(z, j, write, node, client),
    }
}

// Client c's difference at redundant node j; Done with the add that completes its write.
pub fn add(
    z: Sizes,
    c: u8,
    j: u8,
    node: NodeRecord,
    client: ClientRecord,
    blocks: &mut [u8],
    differences: &[u8],
) -> AtNode
    ensures { Meets
        (Writing.add z c j (local (node_of node) (client_of client) blocks.old differences.now))
        result.answer [] (local (node_of result.node) (client_of result.client) blocks.new differences.now)
        ((result.node ≡ node) × (result.client ≡ client)) }
{
    if !is_within(z, node, client, blocks.len(), differences.len()) {
        return AtNode::refused(node, client, Refusal::OutOfLimits);
    }
    let stepped = step_records(z, c, j, node, client);
    let answer = stepped.answer;
    if answer.number() != 0 {
        return stepped;
    }
    let b = z.b;
    if let Some(write) = client.hand {
        add_bytes(b, c, j, write.id.position, blocks, differences);
    }
    stepped
}
