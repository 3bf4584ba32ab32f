// The kernel of encoding and decoding: each block of a table is a sum of blocks of another table, each times its weight.
//
// It goes over tiles of 256 bytes. Of each tile the 16 sums of each group of four sources are made once; then each block of the result goes over
// the bits of its weights from the highest down: the sum so far is doubled, and for each group the one sum is added that the bit chooses. So
// there is no product of two bytes in it, and every block adds three sums for each bit, whatever the weights.
#![tactic(auto)]

ghost use Rattle.std.specs.Prelude.{◌≡◌, ℕ, ◌+◌, ◌*◌, ◌≤◌, ◌<◌, length, get_or};
ghost use Rattle.blocks.specs.Blocks.{table, block};
ghost use Rattle.kernel.specs.Combine.{source_limit, length_limit, mixed, HasBlocks, Rows, Nodes};
ghost use Rattle.kernel.specs.Working.{combined, Sources, Zeroed, Filled, start_of};

mod bits; // bits.rt: one block's part of a tile
mod plan; // plan.rt: which sums the weights choose
mod sums; // sums.rt: the sums of a tile

// How many blocks a sum is of at most.
pub const SOURCES: usize = 12;

// How many bytes of each block a tile has.
const TILE: usize = 256;

// The n bytes from place p on of each of the m blocks of out.
fn fill_all(out: &mut [u8], m: usize, b: usize, p: usize, n: usize, s: &[u8], plan: &[u32; 768])
    requires { (m ≤ 256) × (p + n ≤ b) × (n ≤ 256) × (length out.old ≡ m * b) × (length s.now ≡ 12288) × Zeroed n s.now }
    ensures { Filled m b p n s.now plan.now out.old m out.new }
{
    for j in 0..m {
        let a = j * b + p;
        let q = 3 * j;
        bits::fill(&mut out[a..a + n], s, plan[q], plan[q + 1], plan[q + 2]);
    }
}

// Each of the m blocks of out, of b bytes, becomes the sum of the twelve blocks of t at the starts, each times its weight: block j has row j of the
// rows. (The sums of a tile take 12,288 bytes; with 8 more they lie even on the stack, which is worth a twelfth of the time.)
fn combine(out: &mut [u8], m: usize, b: usize, t: &[u8], starts: &[usize; SOURCES], rows: &[u8])
    requires { (m ≤ 256) × (length out.old ≡ m * b) × (length rows.now ≡ m * source_limit) × Sources b t.now starts.now }
    ensures { out.new ≡ table m b (λ j. combined t.now starts.now (block source_limit j rows.now)) }
{
    let mut s = [0u8; 12296];
    let plan = plan::pack_all(rows, m);
    let mut p = 0;
    while p < b {
        let n = (b - p).min(TILE);
        sums::tile_sums(&mut s[..12288], t, starts, p, n);
        fill_all(out, m, b, p, n, &s[..12288], &plan);
        p += n;
    }
}

// Where the block of the qth of the nodes starts, q from 0; of none 0. (No Option: it is read there with the weight 0.)
fn start_of(nodes: &[u8], b: usize, q: usize) -> usize
    requires { Nodes nodes.now × (b ≤ length_limit) }
    ensures { result ≡ start_of nodes.now b q }
{
    match nodes.get(q) {
        Some(node) => (*node as usize - 1) * b,
        None => 0,
    }
}

fn starts_of(nodes: &[u8], b: usize) -> [usize; SOURCES]
    requires { Nodes nodes.now × (b ≤ length_limit) }
    ensures { (q : ℕ) → q < source_limit → get_or result q 0 ≡ start_of nodes.now b q }
{
    let mut r = [0usize; SOURCES];
    for (q, start) in r.iter_mut().enumerate() {
        *start = start_of(nodes, b, q);
    }
    r
}

// Each of the m blocks of out becomes the sum of the nodes' blocks in the table t, each times its weight. Weights past those of the nodes are 0.
pub fn mix(out: &mut [u8], m: usize, b: usize, t: &[u8], nodes: &[u8], rows: &[u8])
    requires { Nodes nodes.now × (1 ≤ length nodes.now) × (m ≤ 256) × (b ≤ length_limit) × (length out.old ≡ m * b)
        × (length rows.now ≡ m * source_limit) × HasBlocks b t.now nodes.now × Rows m (length nodes.now) rows.now }
    ensures { out.new ≡ table m b (λ j. mixed b t.now nodes.now (block source_limit j rows.now)) }
{
    let starts = starts_of(nodes, b);
    combine(out, m, b, t, &starts, rows);
}
