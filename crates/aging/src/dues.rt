// The due test.
ghost use Rattle.std.specs.Prelude.{◌&&◌, List, [], ◌≡◌, ℕ};
ghost use Rattle.records.specs.Client.{Client};
ghost use Rattle.records.specs.Node.{node_within};
ghost use Rattle.records.specs.Sizes.{sizes_within};
ghost use Rattle.records.specs.View.{node_of};
ghost use Rattle.machine.specs.Aging as Aging;
ghost use Rattle.calls.specs.Answers.{Meets, local};

use calls::Answer;
use records::{Finding, NodeRecord, Refusal, Sizes};

// Whether the sizes and the node's record are within the limits.
fn is_within(z: Sizes, node: NodeRecord) -> bool
    ensures { result ≡ (sizes_within z && node_within z (node_of node)) }
{
    z.within() && node.is_within(z)
}

// Whether node j is due: "if INIT or if a recent entry has age 64 or more". Its record is looked at, and not handed back.
pub fn due(z: Sizes, j: u8, node: NodeRecord) -> Answer
    ensures { (client : Client) (blocks differences : List ℕ) →
        Meets (Aging.due z j (local (node_of node) client blocks differences))
        result [] (local (node_of node) client blocks differences) (Unit {0}) }
{
    if !is_within(z, node) {
        return Answer::Refused(Refusal::OutOfLimits);
    }
    if !z.is_node(j) {
        return Answer::Refused(Refusal::OutOfRange);
    }
    let is_due = node.is_due();
    Answer::Told(Finding::Due(is_due))
}
