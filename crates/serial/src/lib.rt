// A node's and a client's record as the bytes of an image (docs/IMAGE.md).
#![tactic(auto)]

mod clients; // clients.rt: a client's record
mod ids; // ids.rt: write ids, lists of them
mod nodes; // nodes.rt: a node's record

pub use clients::client_bytes;
pub use nodes::node_bytes;
