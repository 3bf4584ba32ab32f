// Lock, tighten and unlock: one node a call.
ghost use Rattle.std.specs.Prelude.{◌≡◌, ◌+◌, ◌≤◌, ◌<◌};
ghost use Rattle.machine.specs.Rebuild as Rebuild;
ghost use Rattle.records.specs.Client.{remembered};
ghost use Rattle.records.specs.View.{old_lmodes, client_of};
ghost use Rattle.records.specs.Sizes.{node_limit};
ghost use Rattle.rebuild.specs.Promises.{own, Steps, Admitted, lock_next};

use calls::Answer;
use code::NodeSet;
use rebuild::Stepped;
use rebuild::admission::{entrance, go_on};
use records::{ClientRecord, NodeRecord, Phase, Refusal, Sizes};
use stripe::{Change, Seen};

// The next node, after x locks, of nodes of which those in `expired` were EXP. Refused, those of the x that c still holds get their old lmode.
fn lock_node(
    z: Sizes,
    c: u8,
    seen: Seen,
    node: NodeRecord,
    client: ClientRecord,
    x: u8,
    expired: NodeSet,
) -> Stepped
    requires { (z.n ≤ node_limit) × ((x < z.n) × ((remembered (client_of client).rebuild ≡ old_lmodes x expired) × (own client ≡ x + 1))) }
    ensures { Steps lock_next z c seen node client result }
{
    let old = node.lmode;
    let step = node.lock(c);
    match step.answer {
        Ok(()) => Stepped::answered(Answer::Accepted, step.node, client.lock(old, z.n)),
        Err(why) => Stepped {
            answer: Answer::Refused(why),
            node,
            client: client.end_rebuild(),
            change: Change::restore(x, c, expired),
        },
    }
}

fn lock_in(z: Sizes, c: u8, seen: Seen, node: NodeRecord, client: ClientRecord) -> Stepped
    requires { Admitted z c seen client }
    ensures { Steps Rebuild.lock z c seen node client result }
{
    match client.phase {
        Phase::NoRebuild => lock_node(z, c, seen, node, client, 0, NodeSet::none()),
        Phase::Locking(x, expired) => lock_node(z, c, seen, node, client, x, expired),
        _ => Stepped::refused(node, client, Refusal::OutOfPhase),
    }
}

// "the next node, 1 to n, goes from UNL or EXP to L1, held by c; its old lmode is remembered"
pub fn lock(z: Sizes, c: u8, seen: Seen, node: NodeRecord, client: ClientRecord) -> Stepped
    ensures { Steps Rebuild.lock z c seen node client result }
{
    match entrance(z, c, seen, client) {
        Err(why) => Stepped::refused(node, client, why),
        Ok(()) => lock_in(z, c, seen, node, client),
    }
}

fn tighten_in(z: Sizes, c: u8, seen: Seen, node: NodeRecord, client: ClientRecord) -> Stepped
    requires { Admitted z c seen client }
    ensures { Steps Rebuild.tighten z c seen node client result }
{
    match client.phase {
        Phase::Picking(j) => {
            if j == 0 {
                Stepped::refused(node, client, Refusal::OutOfPhase)
            } else {
                go_on(z, c, seen, node, client, node.tighten(c))
            }
        }
        _ => Stepped::refused(node, client, Refusal::OutOfPhase),
    }
}

// "the lowest redundant node not tightened since the weaken goes to L1; with none left it is out of phase"
pub fn tighten(z: Sizes, c: u8, seen: Seen, node: NodeRecord, client: ClientRecord) -> Stepped
    ensures { Steps Rebuild.tighten z c seen node client result }
{
    match entrance(z, c, seen, client) {
        Err(why) => Stepped::refused(node, client, why),
        Ok(()) => tighten_in(z, c, seen, node, client),
    }
}

fn unlock_in(z: Sizes, c: u8, seen: Seen, node: NodeRecord, client: ClientRecord) -> Stepped
    requires { Admitted z c seen client }
    ensures { Steps Rebuild.unlock z c seen node client result }
{
    match client.phase {
        Phase::Unlocking(_) => go_on(z, c, seen, node, client, node.unlock(c)),
        _ => Stepped::refused(node, client, Refusal::OutOfPhase),
    }
}

// "1 to n: UNL; the nth ends the rebuild"
pub fn unlock(z: Sizes, c: u8, seen: Seen, node: NodeRecord, client: ClientRecord) -> Stepped
    ensures { Steps Rebuild.unlock z c seen node client result }
{
    match entrance(z, c, seen, client) {
        Err(why) => Stepped::refused(node, client, why),
        Ok(()) => unlock_in(z, c, seen, node, client),
    }
}
