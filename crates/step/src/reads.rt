// A read on a stripe by value: the answer, the part that it names, or both at once.
ghost use Rattle.std.specs.Prelude.{true, ◌≡◌};
ghost use Rattle.calls.specs.Answers.{shown_part};
ghost use Rattle.records.specs.Client.{has_picked};
ghost use Rattle.records.specs.Sizes.{sizes_within};
ghost use Rattle.records.specs.View.{client_of};
ghost use Rattle.stripe.specs.Seen.{Sees};
ghost use Rattle.stripe.specs.View.{nodes_of};
ghost use Rattle.step.specs.Reads.{Answers, Reads};

use crate::{Stripe, nodes};
use calls::{Answer, Reading, shown_part};
use reading::has_picked;
use records::{ClientRecord, Refusal, Sizes};
use stripe::{Nodes, Seen};

// What a read is told of all nodes, if the client c that holds its node has picked.
fn see(z: Sizes, c: u8, client: ClientRecord, nodes: Nodes) -> Seen
    ensures { has_picked (client_of client).rebuild ≡ true → sizes_within z ≡ true → Sees z c (nodes_of z.n nodes) result }
{
    if has_picked(client) {
        nodes.see(z, c)
    } else {
        Seen::none()
    }
}

// What a read of position i is answered. Of the blocks and the spare it is told the lengths.
pub fn read_answer(z: Sizes, i: u8, stripe: Stripe, blocks: usize, spare: usize) -> Answer
    ensures { Answers z i stripe blocks spare result }
{
    if !z.within() {
        return Answer::Refused(Refusal::OutOfLimits);
    }
    let node = nodes::get(stripe.nodes, z.n, i as usize);
    let c = node.holder_number();
    let client = stripe.clients.get(z.m, c);
    let seen = see(z, c, client, stripe.nodes);
    reading::read(z, i, seen, node, client, blocks, spare)
}

// The block of data node i, a part of the blocks or of the spare, and the answer, which tells of which.
pub fn read<'a>(z: Sizes, i: u8, stripe: Stripe, blocks: &'a [u8], spare: &'a [u8]) -> Reading<'a>
    ensures { Reads z i stripe blocks.now spare.now result.answer result.part.now }
{
    let answer = read_answer(z, i, stripe, blocks.len(), spare.len());
    let part = shown_part(answer, z.b, i as usize, blocks, spare);
    Reading { part, answer }
}
