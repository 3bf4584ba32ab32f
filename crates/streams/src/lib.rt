// What the programs striperun and volumerun share of their input and output, by way of buffers of fixed size.
#![tactic(auto)]

pub mod input; // input.rt: standard input, its bytes and its lines
pub mod output; // output.rt: standard output
mod refusing; // refusing.rt: the lines of a script that cannot be played
pub mod sizes; // sizes.rt: the line of sizes, which is read
