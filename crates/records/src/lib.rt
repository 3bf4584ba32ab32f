// The records of a stripe: nodes and clients, the sizes, the families of calls, and the refusals with their numbers.
// The types are here; their methods, each with self by value, are in a file for each record.
#![tactic(auto)]

mod client; // client.rt: a client's record, its write in hand, its rebuild
mod node; // node.rt: a node's record and its calls
mod ranges; // ranges.rt: the ranges of numbers, the limits of the sizes

ghost use Rattle.std.specs.Prelude.{◌≡◌};
ghost use Rattle.records.specs.Calls.{is_stop};
ghost use Rattle.records.specs.Refusals.{number_of, returned_with};

use code::NodeSet;
use entries::{Entries, Epoch, Ids, WriteId, WriteNumber};

#[derive(Clone, Copy)]
pub enum Opmode {
    Norm,
    Recons,
    Init,
}

#[derive(Clone, Copy)]
pub enum Lmode {
    Unl,
    L0,
    L1,
    Exp,
}

// A node but for its block, which is in the block table.
#[derive(Clone, Copy)]
pub struct NodeRecord {
    pub opmode: Opmode,
    pub lmode: Lmode,
    // The client that holds it.
    pub holder: Option<u8>,
    pub epoch: Epoch,
    pub rset: NodeSet,
    pub entries: Entries,
}

// What a client knows of its write in hand, but for the difference.
#[derive(Clone, Copy)]
pub struct Write {
    pub id: WriteId,
    pub previous: Option<WriteId>,
    pub epoch: Epoch,
    pub done: NodeSet,
}

// How far a rebuild is: how many nodes are locked, and which of them were EXP; the lowest node not tightened since the weaken, 0 if there is
// none; from then on the next node of the phase, with the set picked and E for as long as they are needed. (0 and no Option: it is the number of the node
// that the rebuild is at, and there is no node 0.)
#[derive(Clone, Copy)]
pub enum Phase {
    NoRebuild,
    Locking(u8, NodeSet),
    Picking(u8),
    Writing(u8, NodeSet, Epoch),
    Settling(u8, Epoch),
    Unlocking(u8),
}

// A client but for its difference, which is in the table of differences.
#[derive(Clone, Copy)]
pub struct ClientRecord {
    pub hand: Option<Write>,
    pub phase: Phase,
    pub finished: Ids,
    pub moved: Ids,
    pub round: u8,
    pub next: WriteNumber,
}

// k data nodes of n, blocks of b bytes, failures planned for (t_d), m clients.
#[derive(Clone, Copy)]
pub struct Sizes {
    pub k: usize,
    pub n: usize,
    pub b: usize,
    pub failures: usize,
    pub m: usize,
}

// A client's calls at a node that they name, swap aside, which has bytes.
#[derive(Clone, Copy)]
pub enum NodeCall {
    Add,
    Check,
}

// A client's calls that name nothing else, pick aside, which looks at every record.
#[derive(Clone, Copy)]
pub enum ClientCall {
    Drop,
    Sweep,
    Stop,
    Lock,
    Weaken,
    Tighten,
    Write,
    Settle,
    Unlock,
    Quit,
}

// Where the block lies that a read shows: in the live table, or in the spare of a rebuild.
#[derive(Clone, Copy)]
pub enum Source {
    Live,
    Spare,
}

// Why a call is refused.
#[derive(Clone, Copy)]
pub enum Refusal {
    OutOfLimits,
    OutOfRange,
    OutOfPhase,
    WrongMode(Opmode, Lmode),
    OldEpoch(Epoch),
    BeforePrevious(WriteId),
    Full,
    Exhausted,
    Locked,
    NotHeld,
    TooFew(u8),
    NoInverse,
}

// What a call returns with a refusal.
#[derive(Clone, Copy)]
pub enum Returned {
    Nothing,
    Modes(Opmode, Lmode),
    NodeEpoch(Epoch),
    PreviousId(WriteId),
    SetSize(u8),
}

// A node's answer, and its record after the call.
#[derive(Clone, Copy)]
pub struct NodeStep {
    pub answer: Result<(), Refusal>,
    pub node: NodeRecord,
}

// What a node tells of a write whose id it was sent: no recent entry; one, and the previous id is recent no more; no change.
#[derive(Clone, Copy)]
pub enum CheckAnswer {
    Init,
    Gc,
    NoChange,
}

// That answer, and the node's record after the call.
#[derive(Clone, Copy)]
pub struct CheckStep {
    pub answer: CheckAnswer,
    pub node: NodeRecord,
}

// What a call that asks is told: by a check; whether a node is due.
#[derive(Clone, Copy)]
pub enum Finding {
    Check(CheckAnswer),
    Due(bool),
}

impl ClientCall {
    pub fn is_stop(self) -> bool
        ensures { result ≡ is_stop self }
    {
        matches!(self, ClientCall::Stop)
    }
}

impl Refusal {
    // The number of document 01's table.
    pub fn number(self) -> u8
        ensures { result ≡ number_of self }
    {
        match self {
            Refusal::OutOfLimits => 1,
            Refusal::OutOfRange => 2,
            Refusal::OutOfPhase => 3,
            Refusal::WrongMode(_, _) => 4,
            Refusal::OldEpoch(_) => 5,
            Refusal::BeforePrevious(_) => 6,
            Refusal::Full => 7,
            Refusal::Exhausted => 8,
            Refusal::Locked => 9,
            Refusal::NotHeld => 10,
            Refusal::TooFew(_) => 11,
            Refusal::NoInverse => 12,
        }
    }

    // What that table has beside the number.
    pub fn returned(self) -> Returned
        ensures { result ≡ returned_with self }
    {
        match self {
            Refusal::WrongMode(opmode, lmode) => Returned::Modes(opmode, lmode),
            Refusal::OldEpoch(epoch) => Returned::NodeEpoch(epoch),
            Refusal::BeforePrevious(id) => Returned::PreviousId(id),
            Refusal::TooFew(size) => Returned::SetSize(size),
            _ => Returned::Nothing,
        }
    }
}
