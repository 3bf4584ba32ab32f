// A stripe's calls as one: every call but read and pick as a step of one node's record and of its client's, and any call on a stripe by value, whose
// contract is the machine's step; a read also with the part that it shows.
#![tactic(auto)]

mod clients; // clients.rt: the records of all clients
mod nodes; // nodes.rt: one node of a stripe, or the failed one where there is none
mod plays; // plays.rt: any call on a stripe by value
mod reads; // reads.rt: a read on a stripe by value
mod steps; // steps.rt: every call but read and pick, on the records that it is handed
mod table; // table.rt: a record of a table by its number

ghost use Rattle.std.specs.Prelude.{◌≡◌};
ghost use Rattle.step.specs.View.{Fresh};

use calls::Answer;
pub use clients::Clients;
pub use plays::play;
pub use reads::{read, read_answer};
pub use steps::step;
use stripe::Nodes;
pub use table::{put_at, record_at};

// The records of a stripe of n nodes and m clients: the first n of the nodes, the first m of the clients. The tables are beside it.
#[derive(Clone, Copy)]
pub struct Stripe {
    pub nodes: Nodes,
    pub clients: Clients,
}

// The answer, and the records after the call.
#[derive(Clone, Copy)]
pub struct Played {
    pub answer: Answer,
    pub stripe: Stripe,
}

impl Stripe {
    pub fn fresh() -> Self
        ensures { Fresh result }
    {
        Stripe {
            nodes: nodes::fresh(),
            clients: Clients::fresh(),
        }
    }
}
