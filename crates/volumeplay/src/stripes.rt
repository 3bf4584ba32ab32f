// The records of one stripe, by value.
ghost use Rattle.volumeplay.specs.Stripes.{ClientsTook, NodesTook, Took};

use records::{ClientRecord, NodeRecord, Sizes};
use std::cmp::min;
use step::Clients;
use stripe::Nodes;
use tables::{Volume, stripe_part};
use volumescript::reader::VolumeLine;

// The records of stripe s, of a table with `each` for a stripe: as many as there is room for, and blank ones after them.
fn records_in<T: Copy, const N: usize>(table: &[T], s: usize, each: usize, blank: T) -> [T; N]
    ensures { Took table.now s each N result }
{
    let part = stripe_part(table, s, each);
    let count = min(part.len(), N);
    let mut items = [blank; N];
    items[..count].copy_from_slice(&part[..count]);
    items
}

// The nodes that the line prints: those of its stripe, or blank ones.
pub(crate) fn nodes_shown(nodes: &[NodeRecord], volume: Volume, line: VolumeLine) -> Nodes
    ensures { NodesTook nodes.now volume line result }
{
    let blank = NodeRecord::fresh();
    match line.nodes_of() {
        Some(s) => Nodes {
            items: records_in(nodes, s, volume.z.n, blank),
        },
        None => Nodes {
            items: [blank; Sizes::NODES],
        },
    }
}

// The clients that the line prints, or one of them.
pub(crate) fn clients_shown(clients: &[ClientRecord], volume: Volume, line: VolumeLine) -> Clients
    ensures { ClientsTook clients.now volume line result }
{
    match line.clients_of() {
        Some(s) => Clients {
            items: records_in(clients, s, volume.z.m, ClientRecord::fresh()),
        },
        None => Clients::fresh(),
    }
}
