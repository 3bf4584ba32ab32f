// The tests that the calls at one node begin with: what they are lent is within the limits.
#![tactic(auto)]

pub mod at_node; // at_node.rt: the sizes and the records
pub mod tables; // tables.rt: the tables
