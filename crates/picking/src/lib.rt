// Document 01, "Rebuild": pick, which looks at all node records by value and decodes the spare from the set that it takes.
#![tactic(auto)]

mod picks; // picks.rt: pick

use calls::Answer;
pub use picks::pick;
use records::ClientRecord;
use stripe::Change;

// What a pick hands back: no node's record changes but by the change.
#[derive(Clone, Copy)]
pub struct Picked {
    pub answer: Answer,
    pub client: ClientRecord,
    pub change: Change,
}
