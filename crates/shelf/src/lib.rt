// Document 01, "Records": the "thin entry points with the n node records lent as one table", and the m client records as another.
//
// An entry point takes the client's record and the node's out of their tables, steps them by value, and puts them back:
//
//     let client = record_at(clients, c as usize, ClientRecord::fresh());
//     let j = call.target(z, client);
//     let node = record_at(nodes, j, NodeRecord::failed());
//     let r = step::step(z, call, seen, node, client, value, blocks, spare, differences);
//     put_at(nodes, j, r.node);
//     change(nodes, r.change);
//     put_at(clients, c as usize, r.client);
//     r.answer
//
// A call on the whole stripe looks at each record where it lies (see), and changes the others where they lie (change). A pick takes all records out, and
// puts back none but by the change; it has the parameter list of a step, and leaves what it does not need as it is. An image takes all records out of both
// tables, and puts none back. A read takes out its node's record and that of the client that holds it, looks at all records if that client has picked, and
// puts none back. A node that is not in the table counts as failed, a client as fresh. A table of another length than n or m is answered 1.
#![tactic(auto)]

mod entry; // entry.rt: the entry points
mod table; // table.rt: the lent tables

pub use entry::{image, pick, read, read_answer, step};
