// Lines of volumerun: reading a line byte by byte, and what it asks of the volume.
#![tactic(auto)]

pub mod asking; // asking.rt: the call, or the read
pub mod looking; // looking.rt: what its printing goes by
pub mod reader; // reader.rt: a line, byte by byte
