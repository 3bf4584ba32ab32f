// All node records of a stripe, by value: what a call is told of them, what becomes of them, and the set of nodes that a pick takes.
#![tactic(auto)]

mod nodes; // nodes.rt: all node records of a stripe, by value
mod seen; // seen.rt: what a call is told of all nodes, and what becomes of the others
mod sets; // sets.rt: the set of nodes that a pick takes

pub use nodes::Nodes;
pub use seen::{Change, Seen};
