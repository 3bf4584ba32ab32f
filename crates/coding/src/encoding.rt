// The redundant blocks of the data.
ghost use Rattle.std.specs.Prelude.{◌≡◌, ◌-◌, ◌*◌, ◌<◌, ◌≤◌, length};
ghost use Rattle.code.specs.Code;
ghost use Rattle.code.specs.Code.{data_limit, redundant_limit, block_limit};

use crate::weights;
use code::Limits;

// The blocks of the redundant nodes k + 1 to n.
pub fn redundant(k: usize, n: usize, b: usize, blocks: &[u8], out: &mut [u8])
    requires { (1 ≤ k) × (k ≤ data_limit) × (k < n) × (n - k ≤ redundant_limit) × (b ≤ block_limit)
        × (length blocks.now ≡ k * b) × (length out.old ≡ (n - k) * b) }
    ensures { out.new ≡ Code.redundant k n b blocks.now }
{
    let m = n - k;
    let data = weights::data_nodes();
    let rows = weights::data_weights(k, m);
    let e = m * Limits::DATA_MOST;
    kernel::mix(out, m, b, blocks, &data[..k], &rows[..e]);
}
