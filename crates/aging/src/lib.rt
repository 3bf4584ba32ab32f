// Document 01, "Due test and runner", by the record of a node: the due test. Change request C-12: the tick.
#![tactic(auto)]

mod dues; // dues.rt: the due test
mod ticks; // ticks.rt: a tick

use calls::Answer;
pub use dues::due;
use stripe::Change;
pub use ticks::tick;

// What a tick hands back: it steps no record of its own, and says what becomes of all nodes.
#[derive(Clone, Copy)]
pub struct Ticked {
    pub answer: Answer,
    pub change: Change,
}
