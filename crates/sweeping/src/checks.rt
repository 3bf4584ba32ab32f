// A client's write in hand: it is checked at a node, or dropped.
ghost use Rattle.std.specs.Prelude.{◌&&◌, List, [], ◌≡◌, ℕ, ◌≤◌, Some};
ghost use Rattle.calls.specs.Answers.{Meets, local};
ghost use Rattle.machine.specs.Writing;
ghost use Rattle.entries.specs.Entries.{entry_limit};
ghost use Rattle.records.specs.Node.{Node};
ghost use Rattle.records.specs.Sizes.{is_node, is_client};
ghost use Rattle.records.specs.View.{node_of, client_of};

use calls::{Answer, OfClient};
use limits::at_node::{is_client_within, is_within};
use records::{CheckAnswer, ClientRecord, Finding, NodeRecord, Refusal, Sizes, Write};

fn is_in_range(z: Sizes, c: u8, j: u8) -> bool
    ensures { result ≡ (is_client z c && is_node z j) }
{
    z.is_client(c) && z.is_node(j)
}

// By what node j tells of the write in hand, if the write is done there.
fn check_write(j: u8, write: Write, node: NodeRecord, client: ClientRecord) -> OfClient
    requires { (client.hand ≡ Some write) × (node.entries.count ≤ entry_limit) }
    ensures { (blocks differences : List ℕ) →
        Meets (Writing.check_write j (client_of client).hand (local (node_of node) (client_of client) blocks differences))
        result.answer [] (local (node_of node) (client_of result.client) blocks differences) (result.client ≡ client) }
{
    let done = write.done;
    if !done.contains(j as usize) {
        return OfClient::refused(client, Refusal::OutOfPhase);
    }
    let asked = node.check(write);
    match asked.answer {
        CheckAnswer::Init => OfClient {
            answer: Answer::Told(Finding::Check(CheckAnswer::Init)),
            client: client.leave(write, j),
        },
        CheckAnswer::Gc => OfClient {
            answer: Answer::Told(Finding::Check(CheckAnswer::Gc)),
            client: client.forget(write),
        },
        CheckAnswer::NoChange => OfClient {
            answer: Answer::Told(Finding::Check(CheckAnswer::NoChange)),
            client,
        },
    }
}

// "if the own id isn't recent at j, j leaves done (INIT). Else if there is no previous id, or it isn't recent there, it becomes none (GC)."
pub fn check(z: Sizes, c: u8, j: u8, node: NodeRecord, client: ClientRecord) -> OfClient
    ensures { (blocks differences : List ℕ) →
        Meets (Writing.check z c j (local (node_of node) (client_of client) blocks differences))
        result.answer [] (local (node_of node) (client_of result.client) blocks differences) (result.client ≡ client) }
{
    if !is_within(z, node, client) {
        return OfClient::refused(client, Refusal::OutOfLimits);
    }
    if !is_in_range(z, c, j) {
        return OfClient::refused(client, Refusal::OutOfRange);
    }
    match client.hand {
        None => OfClient::refused(client, Refusal::OutOfPhase),
        Some(write) => check_write(j, write, node, client),
    }
}

// The write leaves the hand.
pub fn drop(z: Sizes, c: u8, client: ClientRecord) -> OfClient
    ensures { (node : Node) (blocks differences : List ℕ) →
        Meets (Writing.drop z c (local node (client_of client) blocks differences))
        result.answer [] (local node (client_of result.client) blocks differences) (result.client ≡ client) }
{
    if !is_client_within(z, client) {
        return OfClient::refused(client, Refusal::OutOfLimits);
    }
    if !z.is_client(c) {
        return OfClient::refused(client, Refusal::OutOfRange);
    }
    if !client.has_write() {
        return OfClient::refused(client, Refusal::OutOfPhase);
    }
    let dropped = client.drop_write();
    OfClient {
        answer: Answer::Accepted,
        client: dropped,
    }
}
