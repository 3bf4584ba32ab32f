// A tick.
ghost use Rattle.std.specs.Prelude.{true, ◌&&◌, List, [], ◌≡◌, ℕ};
ghost use Rattle.records.specs.Client.{Client};
ghost use Rattle.records.specs.Node.{Node};
ghost use Rattle.records.specs.Sizes.{sizes_within};
ghost use Rattle.stripe.specs.Seen.{Sees, keep, applied};
ghost use Rattle.machine.specs.Aging as Aging;
ghost use Rattle.calls.specs.Answers.{Meets, whole};

use crate::Ticked;
use calls::Answer;
use records::{Refusal, Sizes};
use stripe::{Change, Seen};

// Whether the sizes and all node records are within the limits.
fn are_within(z: Sizes, seen: Seen) -> bool
    ensures { result ≡ (sizes_within z && seen.within) }
{
    z.within() && seen.within
}

// Each recent entry on every node is one older. It is told what was seen of all nodes.
pub fn tick(z: Sizes, seen: Seen) -> Ticked
    ensures { (c : ℕ) (nodes : List Node) (client : Client) (blocks spare : List ℕ) → (sizes_within z ≡ true → Sees z c nodes seen) →
        Meets (Aging.tick z (whole nodes client blocks spare))
        result.answer [] (whole (applied result.change nodes) client blocks spare) (result.change ≡ keep) }
{
    if !are_within(z, seen) {
        return Ticked {
            answer: Answer::Refused(Refusal::OutOfLimits),
            change: Change::keep(),
        };
    }
    Ticked {
        answer: Answer::Accepted,
        change: Change::tick(),
    }
}
