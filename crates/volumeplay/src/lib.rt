// Plays the lines of a script on a volume of many stripes.
//
// The records of all nodes and clients are local arrays of one function, which plays the lines and lends them to the calls and to what prints (entry.rt).
#![tactic(auto)]

pub mod entry; // entry.rt: the lines of a script, one after the other, on the volume's tables
mod next_line; // next_line.rt: the next line of standard input
mod show; // show.rt: what is printed of a line
mod stripes; // stripes.rt: the records of one stripe, by value

// How many node records and client records there is memory for, of all stripes together.
pub const NODES: usize = 18 * 1024;

pub const CLIENTS: usize = 8 * 1024;
