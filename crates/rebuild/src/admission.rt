// The tests that every call begins with, and what a call hands back.
ghost use Rattle.std.specs.Prelude.{◌&&◌, ◌≡◌, ◌≤◌};
ghost use Rattle.records.specs.Client.{NoRebuild, with_rebuild, client_within};
ghost use Rattle.records.specs.Node.{Node};
ghost use Rattle.records.specs.NodeSteps as NodeSteps;
ghost use Rattle.records.specs.NodeSteps.{held_answer};
ghost use Rattle.records.specs.Sizes.{node_limit, sizes_within};
ghost use Rattle.records.specs.View.{node_of, client_of};
ghost use Rattle.stripe.specs.Seen.{keep, expire};
ghost use Rattle.rebuild.specs.Promises.{Steps, entrance, not_held, at_own};

use crate::Stepped;
use calls::Answer;
use records::{ClientRecord, NodeRecord, NodeStep, Refusal, Sizes};
use stripe::{Change, Seen};

impl Stepped {
    // The other nodes stay.
    pub fn answered(answer: Answer, node: NodeRecord, client: ClientRecord) -> Self
        ensures { result ≡ record { answer = answer; node = node; client = client; change = keep } }
    {
        Stepped {
            answer,
            node,
            client,
            change: Change::keep(),
        }
    }

    // The very records.
    pub fn refused(node: NodeRecord, client: ClientRecord, why: Refusal) -> Self
        ensures { result ≡ record { answer = Answer.Refused why; node = node; client = client; change = keep } }
    {
        Stepped::answered(Answer::Refused(why), node, client)
    }

    // Answer 10: all that c held becomes EXP, and its rebuild ends.
    pub fn lost(z: Sizes, c: u8, seen: Seen, node: NodeRecord, client: ClientRecord) -> Self
        ensures { Steps not_held z c seen node client result }
    {
        Stepped {
            answer: Answer::Refused(Refusal::NotHeld),
            node,
            client: client.end_rebuild(),
            change: Change::expire(c),
        }
    }
}

fn is_within(z: Sizes, seen: Seen, client: ClientRecord) -> bool
    ensures { result ≡ (sizes_within z && (seen.within && client_within z (client_of client))) }
{
    z.within() && (seen.within && client.is_within(z))
}

// Whether the call goes on: 1, then 2.
pub fn entrance(z: Sizes, c: u8, seen: Seen, client: ClientRecord) -> Result<(), Refusal>
    ensures { result ≡ entrance z c seen client }
{
    if !is_within(z, seen, client) {
        return Err(Refusal::OutOfLimits);
    }
    if z.is_client(c) {
        Ok(())
    } else {
        Err(Refusal::OutOfRange)
    }
}

// The call's own node was stepped: the rebuild goes on with the next node, or is lost.
pub fn go_on(
    z: Sizes,
    c: u8,
    seen: Seen,
    node: NodeRecord,
    client: ClientRecord,
    step: NodeStep,
) -> Stepped
    requires { z.n ≤ node_limit }
    ensures { (after : Node → Node) → NodeSteps.MeetsAtNode (held_answer c (node_of node)) (after (node_of node)) node step →
        Steps (at_own after) z c seen node client result }
{
    match step.answer {
        Ok(()) => Stepped::answered(Answer::Accepted, step.node, client.advance(z.n)),
        Err(_) => Stepped::lost(z, c, seen, node, client),
    }
}
