// Weaken.
ghost use Rattle.std.specs.Prelude.{true, ◌≡◌};
ghost use Rattle.machine.specs.Rebuild as Rebuild;
ghost use Rattle.records.specs.View.{client_of};
ghost use Rattle.rebuild.specs.Promises.{Steps, Admitted, is_picking};

use calls::Answer;
use rebuild::admission::entrance;
use rebuild::{Stepped, is_picking};
use records::{ClientRecord, NodeRecord, Refusal, Sizes};
use stripe::{Change, Seen};

// A weaken in its phase.
fn weaken_now(z: Sizes, c: u8, seen: Seen, node: NodeRecord, client: ClientRecord) -> Stepped
    requires { Admitted z c seen client × (is_picking (client_of client).rebuild ≡ true) }
    ensures { Steps Rebuild.weaken z c seen node client result }
{
    if seen.recons {
        return Stepped::refused(node, client, Refusal::OutOfPhase);
    }
    if seen.held {
        Stepped {
            answer: Answer::Accepted,
            node,
            client: client.weaken(z.k),
            change: Change::weaken(z.k as u8, c),
        }
    } else {
        Stepped::lost(z, c, seen, node, client)
    }
}

// "needs all n held, none RECONS, and every node weakened before tightened again; redundant nodes go to L0"
pub fn weaken(z: Sizes, c: u8, seen: Seen, node: NodeRecord, client: ClientRecord) -> Stepped
    ensures { Steps Rebuild.weaken z c seen node client result }
{
    match entrance(z, c, seen, client) {
        Err(why) => Stepped::refused(node, client, why),
        Ok(()) => {
            if is_picking(client) {
                weaken_now(z, c, seen, node, client)
            } else {
                Stepped::refused(node, client, Refusal::OutOfPhase)
            }
        }
    }
}
