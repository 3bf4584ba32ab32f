// A stripe as text, as the programs print it.
#![tactic(auto)]

pub mod clients; // clients.rt: a client's record
pub mod lists; // lists.rt: sets, ids and entries
pub mod nodes; // nodes.rt: a node's record with its block
pub mod state; // state.rt: a whole stripe
