// Write.
ghost use Rattle.std.specs.Prelude.{List, ◌≡◌, ◌+◌, ◌-◌, ◌*◌, ◌≤◌, length};
ghost use Rattle.blocks.specs.Blocks.{block, set_block};
ghost use Rattle.machine.specs.Rebuild as Rebuild;
ghost use Rattle.records.specs.Node.{Node};
ghost use Rattle.records.specs.View.{client_of};
ghost use Rattle.calls.specs.Answers.{whole};
ghost use Rattle.rebuild.specs.Promises.{Told, Stepping, Admitted};
ghost use Rattle.rebuild.specs.Tables.{Tables};

use blocks::copy_block;
use calls::Answer;
use code::NodeSet;
use entries::Epoch;
use rebuild::Stepped;
use rebuild::tables::tabled_entrance;
use records::{ClientRecord, NodeRecord, Phase, Refusal, Sizes};
use stripe::Seen;

// Block j, from the spare.
fn copy_spare(blocks: &mut [u8], spare: &[u8], b: usize, j: usize)
    requires { (1 ≤ j) × ((j - 1) * b + b ≤ length blocks.old) × ((j - 1) * b + b ≤ length spare.now) }
    ensures { blocks.new ≡ set_block b j (block b j spare.now) blocks.old }
{
    let a = (j - 1) * b;
    let e = a + b;
    copy_block(blocks, b, j, &spare[a..e]);
}

fn write_node(
    z: Sizes,
    c: u8,
    seen: Seen,
    node: NodeRecord,
    client: ClientRecord,
    j: u8,
    set: NodeSet,
    e: Epoch,
    blocks: &mut [u8],
    spare: &[u8],
) -> Stepped
    requires { Admitted z c seen client × (client.phase ≡ Phase.Writing j set e) × Tables z blocks.old spare.now }
    ensures { (nodes : List Node) → Told z c nodes seen node client →
        Stepping (Rebuild.write z c (whole nodes (client_of client) blocks.old spare.now))
        nodes node client blocks.new spare.now result }
{
    let step = node.write(c, e, set);
    match step.answer {
        Err(_) => Stepped::lost(z, c, seen, node, client),
        Ok(()) => {
            copy_spare(blocks, spare, z.b, j as usize);
            Stepped::answered(Answer::Accepted, step.node, client.advance(z.n))
        }
    }
}

fn write_in(
    z: Sizes,
    c: u8,
    seen: Seen,
    node: NodeRecord,
    client: ClientRecord,
    blocks: &mut [u8],
    spare: &[u8],
) -> Stepped
    requires { Admitted z c seen client × Tables z blocks.old spare.now }
    ensures { (nodes : List Node) → Told z c nodes seen node client →
        Stepping (Rebuild.write z c (whole nodes (client_of client) blocks.old spare.now))
        nodes node client blocks.new spare.now result }
{
    match client.phase {
        Phase::Writing(j, set, e) => {
            write_node(z, c, seen, node, client, j, set, e, blocks, spare)
        }
        _ => Stepped::refused(node, client, Refusal::OutOfPhase),
    }
}

// "block from the spare, RECONS, epoch E, rset = the set"
pub fn write(
    z: Sizes,
    c: u8,
    seen: Seen,
    node: NodeRecord,
    client: ClientRecord,
    blocks: &mut [u8],
    spare: &[u8],
) -> Stepped
    ensures { (nodes : List Node) → Told z c nodes seen node client →
        Stepping (Rebuild.write z c (whole nodes (client_of client) blocks.old spare.now))
        nodes node client blocks.new spare.now result }
{
    match tabled_entrance(z, c, seen, client, blocks, spare) {
        Err(why) => Stepped::refused(node, client, why),
        Ok(()) => write_in(z, c, seen, node, client, blocks, spare),
    }
}
