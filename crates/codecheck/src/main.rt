// Prints the text whose rules stand at the head of reference/codecheck.py.
#![tactic(auto)]

mod cases; // cases.rt: the cases of the code
mod checksum; // checksum.rt: the checksum of a run of bytes
mod decodings; // decodings.rt: a case's tables decoded from all sets of k nodes
mod field; // field.rt: the tables, all products, the inverses
mod line; // line.rt: a line of text
mod sets; // sets.rt: sets of nodes as numbers

use std::io::Result;

// The sizes of a case: k data nodes of n, and blocks of b bytes.
#[derive(Clone, Copy)]
struct Sizes {
    k: usize,
    n: usize,
    b: usize,
}

fn main(rt: HostRuntime) -> Result<()> {
    let mut to = rt.stdout();
    field::print(&mut to)?;
    cases::print(&mut to)
}
