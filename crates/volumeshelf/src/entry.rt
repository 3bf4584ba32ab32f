// The entry points, and the calls on the part of one stripe.
ghost use Rattle.volumeshelf.specs.Entry.{Goes, MakesPart};
ghost use Rattle.volumeshelf.specs.Volumes.{AnswersVolume, CallsVolume, FreshVolume, ReadsVolume};

use calls::{Answer, Reading};
use records::{ClientRecord, NodeRecord};
use routing::{ReadRequest, Request, SizedRead, VolumeCall};
use tables::Volume;

// The call on the tables' parts of its stripe. They are cut here by their ranges: a function that lends a part for writing had no proof by the check.
#[inline(always)]
fn on_stripe(
    nodes: &mut [NodeRecord],
    clients: &mut [ClientRecord],
    blocks: &mut [u8],
    spare: &mut [u8],
    differences: &mut [u8],
    value: &[u8],
    request: Request,
) -> Answer
    ensures { MakesPart nodes.old clients.old blocks.old spare.old differences.old
        value.now request result nodes.new clients.new blocks.new spare.new differences.new }
{
    // (Cut here: a function that hands on a part of a table for writing gets no proof without one by hand.)
    let n = request.nodes_part(nodes.len());
    let c = request.clients_part(clients.len());
    let b = request.blocks_part(blocks.len());
    let s = request.blocks_part(spare.len());
    let d = request.differences_part(differences.len());
    let v = request.value_part(value.len());
    let nodes = &mut nodes[n.start..n.end];
    let clients = &mut clients[c.start..c.end];
    let blocks = &mut blocks[b.start..b.end];
    let spare = &mut spare[s.start..s.end];
    let differences = &mut differences[d.start..d.end];
    let value = &value[v.start..v.end];
    match request.call {
        VolumeCall::Pick(client) => {
            let pick = request.pick(client);
            shelf::pick(nodes, clients, blocks, spare, differences, value, pick)
        }
        VolumeCall::Step(call) => {
            let step = request.step(call);
            shelf::step(nodes, clients, blocks, spare, differences, value, step)
        }
    }
}

// The call on every stripe, one after the other. Not inlined into `call`, where a step of one stripe would pay for it.
#[inline(never)]
fn on_each(
    nodes: &mut [NodeRecord],
    clients: &mut [ClientRecord],
    blocks: &mut [u8],
    spare: &mut [u8],
    differences: &mut [u8],
    value: &[u8],
    request: Request,
) -> Answer
    ensures { Goes nodes.old clients.old blocks.old spare.old differences.old
        value.now request result nodes.new clients.new blocks.new spare.new differences.new }
{
    let mut answer = Answer::Accepted;
    for stripe in 0..request.stripes() {
        let one = request.at(stripe);
        answer = on_stripe(nodes, clients, blocks, spare, differences, value, one);
    }
    answer
}

// Every call but read.
pub fn call(
    nodes: &mut [NodeRecord],
    clients: &mut [ClientRecord],
    blocks: &mut [u8],
    spare: &mut [u8],
    differences: &mut [u8],
    value: &[u8],
    request: Request,
) -> Answer
    ensures { CallsVolume nodes.old clients.old blocks.old spare.old differences.old
        value.now request result nodes.new clients.new blocks.new spare.new differences.new }
{
    let tested = request.test(
        nodes,
        clients,
        blocks.len(),
        spare.len(),
        differences.len(),
        value.len(),
    );
    if let Err(why) = tested {
        return Answer::Refused(why);
    }
    if request.call.is_of_each() {
        on_each(nodes, clients, blocks, spare, differences, value, request)
    } else {
        on_stripe(nodes, clients, blocks, spare, differences, value, request)
    }
}

// What a read is answered. Of the blocks and the spare it is told the lengths; the part of them that the answer names is SizedRead::part.
pub fn read_answer(nodes: &[NodeRecord], clients: &[ClientRecord], request: SizedRead) -> Answer
    ensures { AnswersVolume nodes.now clients.now request result }
{
    if let Err(why) = request.test(nodes.len(), clients.len()) {
        return Answer::Refused(why);
    }
    shelf::read_answer(
        request.nodes_part(nodes),
        request.clients_part(clients),
        request.inner(),
    )
}

// The block at position i of a stripe, a part of the blocks or of the spare, and the answer, which tells of which.
pub fn read<'a>(
    nodes: &[NodeRecord],
    clients: &[ClientRecord],
    blocks: &'a [u8],
    spare: &'a [u8],
    request: ReadRequest,
) -> Reading<'a>
    ensures { ReadsVolume nodes.now clients.now blocks.now spare.now request result.answer result.part.now }
{
    let sized = request.sized(blocks.len(), spare.len());
    let answer = read_answer(nodes, clients, sized);
    let part = sized.part(answer, blocks, spare);
    Reading { part, answer }
}

// Every record fresh, every block zero.
pub fn fresh(
    nodes: &mut [NodeRecord],
    clients: &mut [ClientRecord],
    blocks: &mut [u8],
    volume: Volume,
) -> Answer
    ensures { FreshVolume nodes.old clients.old blocks.old volume result
        nodes.new clients.new blocks.new }
{
    match volume.renew(nodes, clients, blocks) {
        Ok(()) => Answer::Accepted,
        Err(why) => Answer::Refused(why),
    }
}
