// The phase that pick and weaken share.
ghost use Rattle.std.specs.Prelude.{◌≡◌};
ghost use Rattle.records.specs.View.{client_of};
ghost use Rattle.rebuild.specs.Promises.{is_picking};

use records::{ClientRecord, Phase};

// Whether all nodes are locked, and each one weakened is tightened again.
pub fn is_picking(client: ClientRecord) -> bool
    ensures { result ≡ is_picking (client_of client).rebuild }
{
    matches!(client.phase, Phase::Picking(0))
}
