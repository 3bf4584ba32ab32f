// Settle.
ghost use Rattle.std.specs.Prelude.{cond, ◌≡◌, leb};
ghost use Rattle.machine.specs.Rebuild as Rebuild;
ghost use Rattle.rebuild.specs.Promises.{Steps, Admitted};

use calls::Answer;
use entries::Epoch;
use rebuild::Stepped;
use rebuild::admission::entrance;
use records::{ClientRecord, NodeRecord, Phase, Refusal, Sizes};
use stripe::Seen;

// The nth settle finishes the rebuild.
fn settle_answer(n: usize, j: u8) -> Answer
    ensures { result ≡ cond (leb n j) Answer.Rebuilt Answer.Accepted }
{
    if n <= j as usize {
        Answer::Rebuilt
    } else {
        Answer::Accepted
    }
}

// Needs every node, those settled before too: one that has failed since is held no more.
fn settle_node(
    z: Sizes,
    c: u8,
    seen: Seen,
    node: NodeRecord,
    client: ClientRecord,
    j: u8,
    e: Epoch,
) -> Stepped
    requires { Admitted z c seen client × (client.phase ≡ Phase.Settling j e) }
    ensures { Steps Rebuild.settle z c seen node client result }
{
    if !seen.held {
        return Stepped::lost(z, c, seen, node, client);
    }
    let step = node.settle(c, e);
    match step.answer {
        Err(_) => Stepped::lost(z, c, seen, node, client),
        Ok(()) => Stepped::answered(settle_answer(z.n, j), step.node, client.advance(z.n)),
    }
}

fn settle_in(z: Sizes, c: u8, seen: Seen, node: NodeRecord, client: ClientRecord) -> Stepped
    requires { Admitted z c seen client }
    ensures { Steps Rebuild.settle z c seen node client result }
{
    match client.phase {
        Phase::Settling(j, e) => settle_node(z, c, seen, node, client, j, e),
        _ => Stepped::refused(node, client, Refusal::OutOfPhase),
    }
}

// "1 to n, after all writes: epoch E+1, entries cleared, rset cleared, NORM, still held. The nth settle finishes the rebuild."
pub fn settle(z: Sizes, c: u8, seen: Seen, node: NodeRecord, client: ClientRecord) -> Stepped
    ensures { Steps Rebuild.settle z c seen node client result }
{
    match entrance(z, c, seen, client) {
        Err(why) => Stepped::refused(node, client, why),
        Ok(()) => settle_in(z, c, seen, node, client),
    }
}
