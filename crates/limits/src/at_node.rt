// Whether the sizes and the records that a call is lent are within the limits.
ghost use Rattle.std.specs.Prelude.{true, ◌&&◌, ◌≡◌};
ghost use Rattle.records.specs.Sizes.{sizes_within};
ghost use Rattle.records.specs.Node.{node_within};
ghost use Rattle.records.specs.Client.{client_within};
ghost use Rattle.records.specs.View.{node_of, client_of};

use records::{ClientRecord, NodeRecord, Sizes};

// The records, by sizes that are within the limits.
pub fn are_records_within(z: Sizes, node: NodeRecord, client: ClientRecord) -> bool
    requires { sizes_within z ≡ true }
    ensures { result ≡ (node_within z (node_of node) && client_within z (client_of client)) }
{
    node.is_within(z) && client.is_within(z)
}

// The sizes and the records.
pub fn is_within(z: Sizes, node: NodeRecord, client: ClientRecord) -> bool
    ensures { result ≡ (sizes_within z && (node_within z (node_of node) && client_within z (client_of client))) }
{
    z.within() && are_records_within(z, node, client)
}

// The sizes and the record of the client.
pub fn is_client_within(z: Sizes, client: ClientRecord) -> bool
    ensures { result ≡ (sizes_within z && client_within z (client_of client)) }
{
    z.within() && client.is_within(z)
}
