// What each kind of work begins with, in the largest stripe of 8 clients.
use crate::runs::{VOLUME_CLIENTS, VOLUME_NODES, run, run_all, run_one};
use crate::{Run, Work};
use entries::{Entries, Epoch, WriteId, WriteNumber};
use records::{ClientRecord, NodeRecord, Sizes, Write};
use step::Clients;
use stripe::Nodes;

// Client c with a write in hand, the first at position 1.
fn writing_client(c: u8) -> ClientRecord {
    let id = WriteId {
        client: c,
        position: 1,
        number: WriteNumber(0),
    };
    ClientRecord::fresh().begin(Write::new(id, None, Epoch(0)))
}

// All clients with such a write.
pub(crate) fn writing() -> Clients {
    let mut clients = Clients::fresh();
    for c in 1..9u8 {
        clients = clients.set(8, c, writing_client(c));
    }
    clients
}

fn fresh() -> Nodes {
    let node = NodeRecord::fresh();
    let items = [node; Sizes::NODES];
    Nodes { items }
}

// Nodes 1 to 6 have failed, the others are fresh.
fn failed() -> Nodes {
    let mut nodes = fresh();
    for j in 1..7 {
        nodes = nodes.set(j, NodeRecord::failed());
    }
    nodes
}

// A node with as many entries as it may have, all recent.
fn full_node() -> NodeRecord {
    let mut node = NodeRecord::fresh();
    for i in 0..Entries::LIMIT {
        let id = WriteId {
            client: 1,
            position: 1,
            number: WriteNumber(i as u32),
        };
        node = node.swap(id).node;
    }
    node
}

pub(crate) fn full() -> Nodes {
    let node = full_node();
    let items = [node; Sizes::NODES];
    Nodes { items }
}

// The largest stripe of 8 clients, with blocks of b bytes.
pub(crate) fn largest(b: usize) -> Sizes {
    Sizes {
        k: 12,
        n: 18,
        b: b,
        failures: 6,
        m: 8,
    }
}

impl Work {
    fn numbered(number: u8) -> Self {
        match number {
            0 => Work::Dues,
            1 => Work::Swaps,
            2 => Work::Adds,
            3 => Work::Rebuild,
            4 => Work::Writes,
            5 => Work::Card,
            6 => Work::Ticks,
            _ => Work::Locks,
        }
    }

    fn nodes(self) -> Nodes {
        match self {
            Work::Rebuild => failed(),
            Work::Ticks => full(),
            Work::Locks => full(),
            _ => fresh(),
        }
    }

    fn clients(self) -> Clients {
        match self {
            Work::Adds => writing(),
            _ => Clients::fresh(),
        }
    }

    // The last place of a round.
    fn last(self) -> u8 {
        match self {
            Work::Dues => 17,
            Work::Swaps => 7,
            Work::Adds => 47,
            Work::Rebuild => 72,
            Work::Writes => 91,
            Work::Card => 72,
            Work::Ticks => 0,
            Work::Locks => 17,
        }
    }

    // The first place: a card's failure is before its first round.
    fn first(self) -> u8 {
        match self {
            Work::Card => 73,
            _ => 0,
        }
    }

    // The place of a pick; no round has place 255.
    fn pick(self) -> u8 {
        match self {
            Work::Rebuild => 18,
            Work::Card => 18,
            _ => 255,
        }
    }

    // So many calls with blocks of b bytes, in that stripe of so many.
    fn start(self, left: usize, b: usize, stripes: usize, stripe: usize) -> Run {
        let z = largest(b);
        Run {
            z: z,
            stripes: stripes,
            stripe: stripe,
            left: left,
            work: self,
            at: self.first(),
            last: self.last(),
            pick: self.pick(),
            number: 0,
        }
    }
}

// So many calls of the work of that number: whether a node is due; swaps at node 1, 8 at most; adds at nodes 13 to 18, 48 at most; the 73 calls of a rebuild
// of nodes 1 to 6, which are 18 locks, a pick, 18 writes, 18 settles and 18 unlocks; rounds of 8 swaps, their 48 adds and 36 sweeps; or, on nodes with 16
// entries each, ticks, or locks, 18 at most. The number of the first refusal, or 0. By the entry points of one stripe, where the stripe's number counts for
// nothing.
#[unsafe(no_mangle)]
pub extern "C" fn callbench_calls(
    work: u8,
    stripe: usize,
    calls: usize,
    b: usize,
    value: &[u8],
    blocks: &mut [u8],
    spare: &mut [u8],
    differences: &mut [u8],
) -> u8 {
    let kind = Work::numbered(work);
    let nodes = kind.nodes();
    let clients = kind.clients();
    let start = kind.start(calls, b, 1, stripe);
    let node_records = nodes.items;
    let client_records = clients.items;
    let end = run(
        node_records,
        client_records,
        blocks,
        spare,
        differences,
        value,
        start,
    );
    end.number
}

// The same by the entry point of a volume, in stripe 0 of one.
#[unsafe(no_mangle)]
pub extern "C" fn callbench_volume_calls(
    work: u8,
    stripe: usize,
    calls: usize,
    b: usize,
    value: &[u8],
    blocks: &mut [u8],
    spare: &mut [u8],
    differences: &mut [u8],
) -> u8 {
    let kind = Work::numbered(work);
    let nodes = kind.nodes();
    let clients = kind.clients();
    let start = kind.start(calls, b, 1, stripe);
    let node_records = nodes.items;
    let client_records = clients.items;
    let end = run_one(
        node_records,
        client_records,
        blocks,
        spare,
        differences,
        value,
        start,
    );
    end.number
}

// The same in a stripe of a fresh volume of 1,024, adds and a rebuild aside; or a card's failure, and the 73 calls of a rebuild in each stripe from that one
// on. It takes some megabytes of the stack.
#[unsafe(no_mangle)]
pub extern "C" fn callbench_large_volume_calls(
    work: u8,
    stripe: usize,
    calls: usize,
    b: usize,
    value: &[u8],
    blocks: &mut [u8],
    spare: &mut [u8],
    differences: &mut [u8],
) -> u8 {
    let kind = Work::numbered(work);
    let node = NodeRecord::fresh();
    let client = ClientRecord::fresh();
    let nodes = [node; VOLUME_NODES];
    let clients = [client; VOLUME_CLIENTS];
    let start = kind.start(calls, b, 1024, stripe);
    let end = run_all(nodes, clients, blocks, spare, differences, value, start);
    end.number
}
