// Quit.
ghost use Rattle.machine.specs.Rebuild as Rebuild;
ghost use Rattle.rebuild.specs.Promises.{Steps};

use calls::Answer;
use rebuild::Stepped;
use rebuild::admission::entrance;
use records::{ClientRecord, NodeRecord, Refusal, Sizes};
use stripe::{Change, Seen};

// "accepted, and leaves what answer 10 leaves"
pub fn quit(z: Sizes, c: u8, seen: Seen, node: NodeRecord, client: ClientRecord) -> Stepped
    ensures { Steps Rebuild.quit z c seen node client result }
{
    match entrance(z, c, seen, client) {
        Err(why) => Stepped::refused(node, client, why),
        Ok(()) => {
            if client.has_rebuild() {
                Stepped {
                    answer: Answer::Accepted,
                    node,
                    client: client.end_rebuild(),
                    change: Change::expire(c),
                }
            } else {
                Stepped::refused(node, client, Refusal::OutOfPhase)
            }
        }
    }
}
