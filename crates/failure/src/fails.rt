// A node fails.
ghost use Rattle.std.specs.Prelude.{◌&&◌, List, [], ◌≡◌, ℕ, ◌*◌, eqb};
ghost use Rattle.records.specs.Client.{Client};
ghost use Rattle.records.specs.Sizes.{sizes_within};
ghost use Rattle.records.specs.View.{node_of};
ghost use Rattle.machine.specs.Failure as Failure;
ghost use Rattle.calls.specs.Answers.{Meets, local};

use calls::{Answer, OfNode};
use limits::tables::are_blocks;
use records::{NodeRecord, Refusal, Sizes};

// Whether a failure's sizes, block table and value are within the limits.
fn is_within(z: Sizes, blocks: usize, value: usize) -> bool
    ensures { result ≡ (sizes_within z && (eqb blocks (z.n * z.b) && eqb value z.b)) }
{
    z.within() && (are_blocks(blocks, z) && value == z.b)
}

// Node j fails: the bytes given are its block, and whatever its record was, it is that of a failed node.
pub fn fail(z: Sizes, j: u8, value: &[u8], node: NodeRecord, blocks: &mut [u8]) -> OfNode
    ensures { (client : Client) (differences : List ℕ) →
        Meets (Failure.fail z j value.now (local (node_of node) client blocks.old differences))
        result.answer [] (local (node_of result.node) client blocks.new differences) (result.node ≡ node) }
{
    if !is_within(z, blocks.len(), value.len()) {
        return OfNode::refused(node, Refusal::OutOfLimits);
    }
    if !z.is_node(j) {
        return OfNode::refused(node, Refusal::OutOfRange);
    }
    let b = z.b;
    blocks::copy_block(blocks, b, j as usize, value);
    let step = node.fail();
    let failed = step.node;
    OfNode {
        answer: Answer::Accepted,
        node: failed,
    }
}
