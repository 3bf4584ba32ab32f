// Document 01, "Writing", on the records of the node and of the client by value and on parts of the tables: add.
#![tactic(auto)]

mod adds; // adds.rt: add

pub use adds::add;
