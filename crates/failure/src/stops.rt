// A client stops.
ghost use Rattle.machine.specs.Failure as Failure;
ghost use Rattle.rebuild.specs.Promises.{Steps};

use calls::Answer;
use rebuild::Stepped;
use rebuild::admission::entrance;
use records::{ClientRecord, NodeRecord, Sizes};
use stripe::{Change, Seen};

// "all that it held becomes EXP; hand, rebuild, lists and round are empty; its write number stays"
pub fn stop(z: Sizes, c: u8, seen: Seen, node: NodeRecord, client: ClientRecord) -> Stepped
    ensures { Steps Failure.stop z c seen node client result }
{
    match entrance(z, c, seen, client) {
        Err(why) => Stepped::refused(node, client, why),
        Ok(()) => Stepped {
            answer: Answer::Accepted,
            node,
            client: client.stop(),
            change: Change::expire(c),
        },
    }
}
