// Document 01, "Writing", on the records of the node and of the client by value and on parts of the tables: swap.
#![tactic(auto)]

mod swaps; // swaps.rt: swap

pub use swaps::swap;
