// The entry points.
ghost use Rattle.shelf.specs.Shelf.{ImagesLent, PicksOnly, StepsLent, ReadsLent};
ghost use Rattle.taking.specs.Reads.{AnswersLent};

use crate::table::{are_tables, change, gather, see};
use calls::{Answer, Reading};
use reading::has_picked;
use records::{ClientRecord, NodeRecord, Refusal, Sizes};
use step::{Clients, Stripe, put_at, record_at};
use stripe::{Nodes, Seen};
use taking::{PickRequest, ReadRequest, Request, SizedRead};

// Every call but read and pick.
pub fn step(
    nodes: &mut [NodeRecord],
    clients: &mut [ClientRecord],
    blocks: &mut [u8],
    spare: &mut [u8],
    differences: &mut [u8],
    value: &[u8],
    request: Request,
) -> Answer
    ensures { StepsLent nodes.old clients.old blocks.old spare.old differences.old
        value.now request result nodes.new clients.new blocks.new spare.new differences.new }
{
    let Request { z, call } = request;
    if !are_tables(nodes, clients, z) {
        return Answer::Refused(Refusal::OutOfLimits);
    }
    let c = call.caller();
    let client = record_at(clients, c as usize, ClientRecord::fresh());
    let j = call.target(z, client);
    let node = record_at(nodes, j, NodeRecord::failed());
    let seen = if call.looks_at_all() {
        see(nodes, z, c)
    } else {
        Seen::none()
    };
    let r = step::step(
        z,
        call,
        seen,
        node,
        client,
        value,
        blocks,
        spare,
        differences,
    );
    put_at(nodes, j, r.node);
    change(nodes, r.change);
    put_at(clients, c as usize, r.client);
    r.answer
}

// What a read is answered. Of the blocks and the spare it is told the lengths; the part of them that the answer names is calls::shown_part.
pub fn read_answer(nodes: &[NodeRecord], clients: &[ClientRecord], request: SizedRead) -> Answer
    ensures { AnswersLent nodes.now clients.now request result }
{
    let SizedRead {
        z,
        i,
        blocks,
        spare,
    } = request;
    if !are_tables(nodes, clients, z) {
        return Answer::Refused(Refusal::OutOfLimits);
    }
    let node = record_at(nodes, i as usize, NodeRecord::failed());
    let c = node.holder_number();
    let client = record_at(clients, c as usize, ClientRecord::fresh());
    let seen = if has_picked(client) {
        see(nodes, z, c)
    } else {
        Seen::none()
    };
    reading::read(z, i, seen, node, client, blocks, spare)
}

// The block of data node i, a part of the blocks or of the spare, and the answer, which tells of which.
pub fn read<'a>(
    nodes: &[NodeRecord],
    clients: &[ClientRecord],
    blocks: &'a [u8],
    spare: &'a [u8],
    request: ReadRequest,
) -> Reading<'a>
    ensures { ReadsLent nodes.now clients.now blocks.now spare.now request result.answer result.part.now }
{
    let sized = request.sized(blocks.len(), spare.len());
    let answer = read_answer(nodes, clients, sized);
    let part = sized.part(answer, blocks, spare);
    Reading { part, answer }
}

// The codeword decoded from the largest set that fits, into the spare.
pub fn pick(
    nodes: &mut [NodeRecord],
    clients: &mut [ClientRecord],
    blocks: &mut [u8],
    spare: &mut [u8],
    differences: &mut [u8],
    value: &[u8],
    request: PickRequest,
) -> Answer
    ensures { PicksOnly nodes.old clients.old blocks.old spare.old differences.old
        value.now request result nodes.new clients.new blocks.new spare.new differences.new }
{
    let PickRequest { z, c } = request;
    if !are_tables(nodes, clients, z) || z.n > Sizes::NODES {
        return Answer::Refused(Refusal::OutOfLimits);
    }
    let client = record_at(clients, c as usize, ClientRecord::fresh());
    let all = Nodes {
        items: gather(nodes, NodeRecord::failed()),
    };
    let r = picking::pick(z, c, all, client, blocks, spare);
    change(nodes, r.change);
    put_at(clients, c as usize, r.client);
    r.answer
}

// The image of the stripe, into out (docs/IMAGE.md). Nothing else is written.
pub fn image(
    nodes: &[NodeRecord],
    clients: &[ClientRecord],
    out: &mut [u8],
    blocks: &[u8],
    differences: &[u8],
    spare: &[u8],
    z: Sizes,
) -> Answer
    ensures { ImagesLent nodes.now clients.now out.old blocks.now differences.now
        spare.now z result out.new }
{
    if !are_tables(nodes, clients, z) || z.n > Sizes::NODES || z.m > Sizes::CLIENTS {
        return Answer::Refused(Refusal::OutOfLimits);
    }
    let stripe = Stripe {
        nodes: Nodes {
            items: gather(nodes, NodeRecord::failed()),
        },
        clients: Clients {
            items: gather(clients, ClientRecord::fresh()),
        },
    };
    imaging::write(z, stripe, blocks, differences, spare, out)
}
