// The lent tables.
ghost use Rattle.std.specs.Prelude.{◌&&◌, ◌≡◌, ◌≤◌, eqb, length, take};
ghost use Rattle.stripe.specs.Seen.{Sees, applied, keep};
ghost use Rattle.taking.specs.Table.{nodes_in};

use records::{ClientRecord, NodeRecord, Sizes};
use stripe::{Change, Seen};

// Whether the tables have n and m records.
pub(crate) fn are_tables(nodes: &[NodeRecord], clients: &[ClientRecord], z: Sizes) -> bool
    ensures { result ≡ (eqb (length nodes.now) z.n && eqb (length clients.now) z.m) }
{
    nodes.len() == z.n && clients.len() == z.m
}

// The records of a table, in an array whose other places are `blank`.
pub(crate) fn gather<T: Copy, const N: usize>(table: &[T], blank: T) -> [T; N]
    requires { length table.now ≤ N }
    ensures { take (length table.now) result ≡ table.now }
{
    let mut items = [blank; N];
    items[..table.len()].copy_from_slice(table);
    items
}

// What is seen of all nodes.
pub(crate) fn see(nodes: &[NodeRecord], z: Sizes, c: u8) -> Seen
    ensures { length nodes.now ≡ z.n → Sees z c (nodes_in nodes.now) result }
{
    let mut seen = Seen::none();
    for node in nodes {
        seen = seen.with(z, c, *node);
    }
    seen
}

// The nodes that a change touches, changed where they lie.
pub(crate) fn change(nodes: &mut [NodeRecord], change: Change)
    ensures nodes_are { nodes_in nodes.new ≡ applied change (nodes_in nodes.old) }
    ensures same { change ≡ keep → nodes.new ≡ nodes.old }
{
    let n = nodes.len();
    // (By the place: what becomes of a node depends on it.)
    for i in change.first(n)..change.end(n) {
        nodes[i] = change.made(i, nodes[i]);
    }
}
