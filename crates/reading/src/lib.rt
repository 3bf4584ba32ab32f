// Document 01, "Writing": what a read is answered, on the records that it goes by; change request C-15: reading while a rebuild runs.
// The block that the answer names is a part of a table (calls::shown_part).
#![tactic(auto)]

ghost use Rattle.std.specs.Prelude.{true, ◌&&◌, ◌≡◌, ◌*◌, eqb};
ghost use Rattle.calls.specs.Answers.{read_as};
ghost use Rattle.machine.specs.Reading.{read};
ghost use Rattle.machine.specs.Stripe.{Stripe};
ghost use Rattle.machine.specs.Writing.{wrong_mode};
ghost use Rattle.records.specs.Client.{client_within, has_picked};
ghost use Rattle.records.specs.Node.{node_within};
ghost use Rattle.records.specs.Sizes.{sizes_within};
ghost use Rattle.records.specs.View.{client_of, node_of};
ghost use Rattle.reading.specs.Reading.{Handed};

use calls::Answer;
use limits::tables::are_blocks;
use records::{ClientRecord, NodeRecord, Phase, Refusal, Sizes, Source};
use stripe::Seen;

// Whether the client's pick was accepted in the rebuild that it now has.
pub fn has_picked(client: ClientRecord) -> bool
    ensures { result ≡ has_picked (client_of client).rebuild }
{
    match client.phase {
        Phase::Writing(_, _, _) | Phase::Settling(_, _) => true,
        Phase::Unlocking(_) => true, // till it ends
        _ => false,
    }
}

// Whether the sizes, the record of node i and the length of the blocks are within the limits.
fn is_within(z: Sizes, node: NodeRecord, blocks: usize) -> bool
    ensures { result ≡ (sizes_within z && (node_within z (node_of node) && eqb blocks (z.n * z.b))) }
{
    z.within() && (node.is_within(z) && are_blocks(blocks, z))
}

// Whether the records of all nodes, that of the client that rebuilds and the length of the spare are.
fn spare_fits(z: Sizes, seen: Seen, client: ClientRecord, spare: usize) -> bool
    requires { sizes_within z ≡ true }
    ensures { result ≡ (seen.within && (client_within z (client_of client) && eqb spare (z.n * z.b))) }
{
    seen.within && (client.is_within(z) && are_blocks(spare, z))
}

fn wrong_mode(node: NodeRecord) -> Answer
    ensures { result ≡ Answer.Refused (wrong_mode (node_of node)) }
{
    Answer::Refused(Refusal::WrongMode(node.opmode, node.lmode))
}

// What a read of position i is answered. It is handed the record of node i, that of the client that holds it, what is seen of all nodes if that client
// has picked, and the lengths of the blocks and the spare.
pub fn read(
    z: Sizes,
    i: u8,
    seen: Seen,
    node: NodeRecord,
    client: ClientRecord,
    blocks: usize,
    spare: usize,
) -> Answer
    ensures { (s : Stripe) → Handed z i s seen node client blocks spare → read_as result z.b i s ≡ read z i s }
{
    if !is_within(z, node, blocks) {
        return Answer::Refused(Refusal::OutOfLimits);
    }
    if !z.is_position(i) {
        return Answer::Refused(Refusal::OutOfRange);
    }
    if node.is_free() {
        return Answer::Shown(Source::Live);
    }
    if !has_picked(client) {
        return wrong_mode(node);
    }
    if !seen.tight {
        return wrong_mode(node);
    }
    if !spare_fits(z, seen, client, spare) {
        return Answer::Refused(Refusal::OutOfLimits);
    }
    Answer::Shown(Source::Spare)
}
