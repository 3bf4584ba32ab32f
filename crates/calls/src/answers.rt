// The answers' numbers, which of them leave all unchanged, and refusals with the very records.
ghost use Rattle.std.specs.Prelude.{[], ◌≡◌};
ghost use Rattle.machine.specs.Stripe.{number};
ghost use Rattle.records.specs.Refusals.{changes};
ghost use Rattle.calls.specs.Answers.{answer_of, is_unchanged};

use crate::{Answer, AtNode, OfClient, OfNode};
use records::{ClientRecord, NodeRecord, Refusal};

impl Answer {
    // The number of document 01's table, 0 if accepted.
    pub fn number(self) -> u8
        ensures { result ≡ number (answer_of self []) }
    {
        match self {
            Answer::Refused(why) => why.number(),
            _ => 0,
        }
    }

    // Whether it is a refusal that leaves all unchanged.
    pub fn is_unchanged(self) -> bool
        ensures { result ≡ is_unchanged self }
    {
        match self {
            Answer::Refused(why) => !is_change(why),
            _ => false,
        }
    }
}

// Whether a refusal changes something: 9 and 10 do.
fn is_change(why: Refusal) -> bool
    ensures { result ≡ changes why }
{
    matches!(why, Refusal::Locked | Refusal::NotHeld)
}

impl AtNode {
    // A refusal, with the very records.
    pub fn refused(node: NodeRecord, client: ClientRecord, why: Refusal) -> Self
        ensures { result ≡ record { answer = Answer.Refused why; node = node; client = client } }
    {
        AtNode {
            answer: Answer::Refused(why),
            node,
            client,
        }
    }
}

impl OfClient {
    pub fn refused(client: ClientRecord, why: Refusal) -> Self
        ensures { result ≡ record { answer = Answer.Refused why; client = client } }
    {
        OfClient {
            answer: Answer::Refused(why),
            client,
        }
    }
}

impl OfNode {
    pub fn refused(node: NodeRecord, why: Refusal) -> Self
        ensures { result ≡ record { answer = Answer.Refused why; node = node } }
    {
        OfNode {
            answer: Answer::Refused(why),
            node,
        }
    }
}
