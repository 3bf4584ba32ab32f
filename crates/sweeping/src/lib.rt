// Document 01, "Writing", on the records of the node and of the client by value: check, drop, sweep.
#![tactic(auto)]

mod checks; // checks.rt: check, drop
mod sweeps; // sweeps.rt: sweep

pub use checks::{check, drop};
pub use sweeps::sweep;
