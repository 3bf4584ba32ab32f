// Lines of the programs: reading a line byte by byte, and the words of its answer.
#![tactic(auto)]

pub mod reader; // reader.rt: a line of input, byte by byte
pub mod writer; // writer.rt: a line of output
