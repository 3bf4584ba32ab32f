// Document 01, "Rebuild": what its calls share. Each is a step of one node's record and the client's, with what was seen of all nodes handed in and
// what becomes of the others handed out. The calls are crates locking (lock, weaken, tighten, unlock, quit), picking (pick) and restoring (write,
// settle).
#![tactic(auto)]

pub mod admission; // admission.rt: the tests that every call begins with, and what a call hands back
mod phase; // phase.rt: the phase that pick and weaken share
pub mod tables; // tables.rt: the tests of the calls that are lent both tables

use calls::Answer;
pub use phase::is_picking;
use records::{ClientRecord, NodeRecord};
use stripe::Change;

// What a call hands back: the answer, the record of the node that the client's rebuild was at, that of the client, and what becomes of the others.
#[derive(Clone, Copy)]
pub struct Stepped {
    pub answer: Answer,
    pub node: NodeRecord,
    pub client: ClientRecord,
    pub change: Change,
}
