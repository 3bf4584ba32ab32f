// Whether the sizes, all records and the three tables are within the limits.
ghost use Rattle.std.specs.Prelude.{true, ◌&&◌, ◌≡◌, ◌*◌, eqb};
ghost use Rattle.basics.specs.Lists.{every_of};
ghost use Rattle.image.specs.Image.{writable};
ghost use Rattle.records.specs.Client.{client_within};
ghost use Rattle.records.specs.Node.{node_within};
ghost use Rattle.records.specs.Sizes.{sizes_within};
ghost use Rattle.step.specs.View.{clients_of, stripe_of};
ghost use Rattle.stripe.specs.View.{nodes_of};

use limits::tables::{are_blocks, are_tables};
use records::Sizes;
use step::{Clients, Stripe};

// Whether the records of all clients are within the limits.
fn are_clients_within(z: Sizes, clients: Clients) -> bool
    requires { sizes_within z ≡ true }
    ensures { result ≡ every_of (client_within z) (clients_of z.m clients) }
{
    clients.items[..z.m]
        .iter()
        .all(|client| client.is_within(z))
}

// Whether the records are within them, by sizes that are.
fn are_records_within(z: Sizes, stripe: Stripe) -> bool
    requires { sizes_within z ≡ true }
    ensures { result ≡ (every_of (node_within z) (nodes_of z.n stripe.nodes) && every_of (client_within z) (clients_of z.m stripe.clients)) }
{
    stripe.nodes.are_within(z) && are_clients_within(z, stripe.clients)
}

// And the lengths of the three tables.
fn are_tables_within(blocks: usize, differences: usize, spare: usize, z: Sizes) -> bool
    requires { sizes_within z ≡ true }
    ensures { result ≡ (eqb blocks (z.n * z.b) && (eqb differences (z.m * z.b) && eqb spare (z.n * z.b))) }
{
    are_tables(blocks, differences, z) && are_blocks(spare, z)
}

pub(crate) fn is_writable(
    z: Sizes,
    stripe: Stripe,
    blocks: &[u8],
    differences: &[u8],
    spare: &[u8],
) -> bool
    ensures { result ≡ writable z (stripe_of z stripe blocks.now spare.now differences.now) }
{
    z.within()
        && (are_records_within(z, stripe)
            && are_tables_within(blocks.len(), differences.len(), spare.len(), z))
}
