// Blocks of a codeword from those of k of its nodes.
ghost use Rattle.std.specs.Prelude.{MatchOption, true, ◌≡◌, ℕ, suc, ◌+◌, ◌*◌, ◌<◌, ◌≤◌, length, get_or};
ghost use Rattle.gf256.specs.Field.{IsPowers, IsLogarithms};
ghost use Rattle.blocks.specs.Blocks.{table};
ghost use Rattle.kernel.specs.Combine.{nth, HasBlocks, Nodes};
ghost use Rattle.code.specs.Code.{data_limit, block_limit};
ghost use Rattle.code.specs.Decode;
ghost use Rattle.code.specs.View.{node_set_of};
ghost use Rattle.coding.specs.Weights.{Apart, Rising, Recovers, Shares, restored_byte};

use crate::weights;
use code::{Limits, NodeSet};

// The place of node j among the nodes, from 0.
fn place_of(nodes: &[u8], j: usize) -> Option<usize>
    ensures { MatchOption result (Apart nodes.now j) (λ q. (q < length nodes.now) × (get_or nodes.now q 0 ≡ j)) }
{
    nodes.iter().position(|node| *node as usize == j)
}

// The weights of the nodes' blocks in that of node j: 1 for its own, if it is one of the nodes.
fn node_row(
    powers: &[u8; 255],
    logarithms: &[u8; 256],
    nodes: &[u8],
    shares: &[usize; Limits::DATA_MOST],
    j: usize,
) -> [u8; Limits::DATA_MOST]
    requires { IsPowers powers.now × IsLogarithms logarithms.now × Nodes nodes.now × (1 ≤ j) × (j ≤ 256)
        × Shares nodes.now shares.now }
    ensures { Recovers nodes.now j (λ q. get_or result q 0) }
{
    match place_of(nodes, j) {
        Some(q) => weights::unit(q),
        None => weights::recover_row(powers, logarithms, nodes, shares, j),
    }
}

// The weights of the nodes 1 to m, twelve of each.
fn fill_rows(rows: &mut [u8], m: usize, nodes: &[u8])
    requires { (m ≤ 256) × (length rows.old ≡ 256 * data_limit) × Nodes nodes.now × Rising nodes.now }
    ensures { (length rows.new ≡ 256 * data_limit)
        × ((u : ℕ) → u < m → Recovers nodes.now (suc u) (λ q. get_or rows.new (u * data_limit + q) 0)) }
{
    let powers = gf256::powers::table();
    let logarithms = gf256::logarithms::table();
    let shares = weights::shares(&logarithms, nodes);
    for j in 0..m {
        let a = j * Limits::DATA_MOST;
        let row = node_row(&powers, &logarithms, nodes, &shares, j + 1);
        rows[a..a + Limits::DATA_MOST].copy_from_slice(&row);
    }
}

// The blocks of the nodes 1 to m.
fn recover_all(m: usize, b: usize, nodes: &[u8], blocks: &[u8], out: &mut [u8])
    requires { (m ≤ 256) × (b ≤ block_limit) × Nodes nodes.now × Rising nodes.now × HasBlocks b blocks.now nodes.now × (length out.old ≡ m * b) }
    ensures { out.new ≡ table m b (restored_byte b blocks.now nodes.now) }
{
    if nodes.is_empty() {
        out.fill(0);
        return;
    }
    let mut rows = [0u8; 256 * Limits::DATA_MOST];
    fill_rows(&mut rows, m, nodes);
    let e = m * Limits::DATA_MOST;
    kernel::mix(out, m, b, blocks, nodes, &rows[..e]);
}

// The first m blocks of the codeword that agrees with the table blocks at the k lowest members of the set.
pub fn recover_table(k: usize, m: usize, b: usize, set: NodeSet, blocks: &[u8], out: &mut [u8])
    requires { (k ≤ data_limit) × (k ≤ Decode.size (node_set_of set)) × (m ≤ 256) × (b ≤ block_limit) × (length out.old ≡ m * b)
        × ((j : ℕ) → Decode.has (node_set_of set) j ≡ true → j * b ≤ length blocks.now) }
    ensures { out.new ≡ Decode.recovered_table k m b (node_set_of set) blocks.now }
{
    let members = set.members();
    recover_all(m, b, &members[..k], blocks, out);
}
