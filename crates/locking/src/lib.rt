// Document 01, "Rebuild": lock, weaken, tighten, unlock and quit, which take, change and give back the locks. Each is a step of one node's record and
// the client's, in the form of crate rebuild.
#![tactic(auto)]

mod locks; // locks.rt: lock, tighten, unlock
mod quits; // quits.rt: quit
mod weakens; // weakens.rt: weaken

pub use locks::{lock, tighten, unlock};
pub use quits::quit;
pub use weakens::weaken;
