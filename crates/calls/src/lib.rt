// What is asked of a stripe and what is answered: the calls by family, the answers, and what the calls at one node hand back with them.
// The types are here; their methods are in a file for each.
#![tactic(auto)]

mod answers; // answers.rt: the answers
mod asked; // asked.rt: what a call is lent
mod shown; // shown.rt: the part of a table that an answer names

use records::{ClientCall, ClientRecord, Finding, NodeCall, NodeRecord, Refusal, Source};
pub use shown::shown_part;

// The calls, by what they step: a read and a pick apart, every other call steps the record of one node and that of its client, but a tick, which is of no
// client and changes all nodes. The numbers are a client, then a position or a node; the bytes of a swap or a failure are beside the call.
#[derive(Clone, Copy)]
pub enum Call {
    Read(u8),
    Pick(u8),
    Step(StepCall),
}

#[derive(Clone, Copy)]
pub enum StepCall {
    Swap(u8, u8),
    Fail(u8),
    Due(u8),
    Tick,
    At(NodeCall, u8, u8),
    By(ClientCall, u8),
}

// What a call is answered. All but the last are accepted: Shown is a read's and tells where the block lies, Added and Done are an add's, Rebuilt is that
// of the settle that finishes a rebuild, Told that of a call that asks. (An enum and no Result: document 01 has one table of answers, and two of its
// refusals, 9 and 10, change the stripe.)
#[derive(Clone, Copy)]
pub enum Answer {
    Accepted,
    Shown(Source),
    Added,
    Done,
    Rebuilt,
    Told(Finding),
    Refused(Refusal),
}

// What a read hands back with its answer: the block, a part of the live table or of the spare; an empty part where it is refused.
#[derive(Clone, Copy)]
pub struct Reading<'a> {
    pub part: &'a [u8],
    pub answer: Answer,
}

// What a call at one node hands back with its answer: the records of the node and of the client; of the client alone; of the node alone.
#[derive(Clone, Copy)]
pub struct AtNode {
    pub answer: Answer,
    pub node: NodeRecord,
    pub client: ClientRecord,
}

#[derive(Clone, Copy)]
pub struct OfClient {
    pub answer: Answer,
    pub client: ClientRecord,
}

#[derive(Clone, Copy)]
pub struct OfNode {
    pub answer: Answer,
    pub node: NodeRecord,
}
