// What a call is lent: its client, the node that it is at, and whether it looks at all nodes.
ghost use Rattle.std.specs.Prelude.{◌≡◌};
ghost use Rattle.records.specs.View.{client_of};
ghost use Rattle.machine.specs.Writing.{sweep_node};
ghost use Rattle.calls.specs.Calls.{caller, target, target_by, looks_at_all, looks_by};

use crate::StepCall;
use records::{ClientCall, ClientRecord, Sizes};

// The node of the client's next sweep.
fn sweep_node(z: Sizes, client: ClientRecord) -> usize
    ensures { result ≡ sweep_node z (client_of client) }
{
    let round = client.round as usize;
    let n = z.n;
    if round < n { round + 1 } else { round - n + 1 }
}

// The node that a call of a client alone is at.
fn target_by(op: ClientCall, z: Sizes, client: ClientRecord) -> usize
    ensures { result ≡ target_by op z (client_of client) }
{
    match op {
        ClientCall::Drop => 0,
        ClientCall::Sweep => sweep_node(z, client),
        _ => client.node(),
    }
}

fn looks_by(op: ClientCall) -> bool
    ensures { result ≡ looks_by op }
{
    !matches!(op, ClientCall::Drop | ClientCall::Sweep)
}

impl StepCall {
    // Its client, 0 if it has none. (No Option: client 0 is looked for as any other, and no table has it.)
    pub fn caller(self) -> u8
        ensures { result ≡ caller self }
    {
        match self {
            StepCall::Swap(c, _) => c,
            StepCall::Fail(_) => 0,
            StepCall::Due(_) => 0,
            StepCall::Tick => 0,
            StepCall::At(_, c, _) => c,
            StepCall::By(_, c) => c,
        }
    }

    // The node that it is at, 0 if it is at none; by its client's record. (No Option: node 0 is looked for as any other, and no table has it.)
    pub fn target(self, z: Sizes, client: ClientRecord) -> usize
        ensures { result ≡ target z self (client_of client) }
    {
        match self {
            StepCall::Swap(_, i) => i as usize,
            StepCall::Fail(j) => j as usize,
            StepCall::Due(j) => j as usize,
            StepCall::Tick => 0,
            StepCall::At(_, _, j) => j as usize,
            StepCall::By(op, _) => target_by(op, z, client),
        }
    }

    // Whether it is a call on the whole stripe, which looks at the records of all nodes.
    pub fn looks_at_all(self) -> bool
        ensures { result ≡ looks_at_all self }
    {
        match self {
            StepCall::Tick => true,
            StepCall::By(op, _) => looks_by(op),
            _ => false,
        }
    }
}
