// Encoding and decoding on the caller's buffers.
#![tactic(auto)]

ghost use Rattle.std.specs.Prelude.{MatchResult, true, false, ◌≡◌, ◌≢◌, ◌*◌, ◌≤◌, length};
ghost use Rattle.code.specs.Code.{code_sizes, node_limit, block_limit};
ghost use Rattle.code.specs.declared.CodeRefusal.TheVariants.{OutOfLimits};
ghost use Rattle.code.specs.View.{node_set_of};
ghost use Rattle.code.specs.Calls.{encoding, some_outside, given_set, decoding};

use code::{CodeRefusal, Limits, NodeSet};

mod encoding; // encoding.rt: the redundant blocks
mod recovering; // recovering.rt: blocks from those of k nodes
mod weights; // weights.rt: with what weight a block counts in another

pub use recovering::recover_table;

// Refuses sizes outside the limits.
fn within_limits(k: usize, n: usize, b: usize) -> Result<(), CodeRefusal>
    ensures { MatchResult result (λ _. code_sizes k n b ≡ true) (λ e. (code_sizes k n b ≡ false) × (e ≡ OutOfLimits)) }
{
    if Limits::hold(k, n, b) {
        Ok(())
    } else {
        Err(CodeRefusal::OutOfLimits)
    }
}

// Refuses a buffer of another length than so many blocks.
fn of_blocks(len: usize, blocks: usize, b: usize) -> Result<(), CodeRefusal>
    requires { (blocks ≤ node_limit) × (b ≤ block_limit) }
    ensures { MatchResult result (λ _. len ≡ blocks * b) (λ e. (len ≢ blocks * b) × (e ≡ OutOfLimits)) }
{
    if len == blocks * b {
        Ok(())
    } else {
        Err(CodeRefusal::OutOfLimits)
    }
}

// The redundant blocks of the k data blocks lent, into out.
pub fn encode(
    k: usize,
    n: usize,
    b: usize,
    blocks: &[u8],
    out: &mut [u8],
) -> Result<(), CodeRefusal>
    ensures { encoding k n b blocks.now out.old ≡ record { answer = result; out = out.new } }
{
    within_limits(k, n, b)?;
    of_blocks(blocks.len(), k, b)?;
    of_blocks(out.len(), n - k, b)?;
    encoding::redundant(k, n, b, blocks, out);
    Ok(())
}

// Whether some node given is not one of 1 to n.
fn some_outside(n: usize, nodes: &[u8]) -> bool
    ensures { result ≡ some_outside n nodes.now }
{
    nodes.iter().any(|j| !(1 <= *j && *j as usize <= n))
}

// The set of the nodes given.
fn set_of(nodes: &[u8]) -> NodeSet
    ensures { node_set_of result ≡ given_set nodes.now }
{
    let mut set = NodeSet::none();
    for j in nodes {
        set = set.with(*j as usize);
    }
    set
}

// Decoding, once the sizes and the buffers fit.
fn decode_sized(
    k: usize,
    n: usize,
    b: usize,
    nodes: &[u8],
    blocks: &[u8],
    out: &mut [u8],
) -> Result<(), CodeRefusal>
    requires { (code_sizes k n b ≡ true) × (length blocks.now ≡ n * b) × (length out.old ≡ k * b) }
    ensures { decoding k n b nodes.now blocks.now out.old ≡ record { answer = result; out = out.new } }
{
    if some_outside(n, nodes) {
        return Err(CodeRefusal::OutOfRange);
    }
    let set = set_of(nodes);
    let size = set.size();
    if size < k {
        return Err(CodeRefusal::TooFew(size as u8));
    }
    recovering::recover_table(k, k, b, set, blocks, out);
    Ok(())
}

// The k data blocks, into out, from the blocks of the nodes given. Those stand in the table of n blocks; the others there are not read.
pub fn decode(
    k: usize,
    n: usize,
    b: usize,
    nodes: &[u8],
    blocks: &[u8],
    out: &mut [u8],
) -> Result<(), CodeRefusal>
    ensures { decoding k n b nodes.now blocks.now out.old ≡ record { answer = result; out = out.new } }
{
    within_limits(k, n, b)?;
    of_blocks(blocks.len(), n, b)?;
    of_blocks(out.len(), k, b)?;
    decode_sized(k, n, b, nodes, blocks, out)
}
