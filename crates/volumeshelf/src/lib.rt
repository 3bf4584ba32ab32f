// The entry points on the tables of a whole volume: node records, client records, blocks, spare and differences of all stripes, each lent as one table, a
// stripe's part after the other's.
//
// A call goes to one stripe or, as a stop and a card's failure do, to each of them: its part of every table is lent on to shelf's entry point (entry.rt).
// A refusal of the volume's own goes to no stripe.
//
// The functions of entry.rt do nothing else. All the rest is in crates tables and routing.
#![tactic(auto)]

mod entry; // entry.rt: the entry points

pub use entry::{call, fresh, read, read_answer};
