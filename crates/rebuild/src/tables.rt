// The tests of pick and write, which are lent both tables, the blocks and the spare.
ghost use Rattle.std.specs.Prelude.{◌≡◌};
ghost use Rattle.rebuild.specs.Tables.{tabled_entrance};

use crate::admission::entrance;
use records::{ClientRecord, Refusal, Sizes};
use stripe::Seen;

// Whether the call goes on: 1, for the tables' lengths too, then 2.
pub fn tabled_entrance(
    z: Sizes,
    c: u8,
    seen: Seen,
    client: ClientRecord,
    blocks: &[u8],
    spare: &[u8],
) -> Result<(), Refusal>
    ensures { result ≡ tabled_entrance z c seen client blocks.now spare.now }
{
    if !z.within() {
        return Err(Refusal::OutOfLimits);
    }
    if blocks.len() != z.n * z.b {
        return Err(Refusal::OutOfLimits);
    }
    if spare.len() != z.n * z.b {
        return Err(Refusal::OutOfLimits);
    }
    entrance(z, c, seen, client)
}
