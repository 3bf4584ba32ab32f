// Document 01, "Writing": what fails. A client stops, a step of one node's record and the client's like the calls of a rebuild; a node fails.
#![tactic(auto)]

mod fails; // fails.rt: a node fails
mod stops; // stops.rt: a client stops

pub use fails::fail;
pub use stops::stop;
