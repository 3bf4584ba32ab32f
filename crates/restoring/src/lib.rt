// Document 01, "Rebuild": write and settle, which put back the blocks that a pick decoded. Each is a step of one node's record and the client's, in
// the form of crate rebuild.
#![tactic(auto)]

mod settles; // settles.rt: settle
mod writes; // writes.rt: write

pub use settles::settle;
pub use writes::write;
