// The library for C and Rust. No function asks anything of its arguments.
#![tactic(auto)]

ghost use Rattle.std.specs.Prelude.{◌≡◌};
ghost use Rattle.gf256.specs.Field.{product};
ghost use Rattle.code.specs.Calls.{encoding, decoding};
ghost use Rattle.layout.specs.Layout.{home_of, card_for, node_for};
ghost use Rattle.exports.specs.Exports.{size_in, answer_of, answered, added};
ghost use Rattle.image.specs.Places.{length_by};

use code::CodeRefusal;
use records::Sizes;

// The size that the refusal gives.
fn size_in(refusal: CodeRefusal) -> u8
    ensures { result ≡ size_in refusal }
{
    match refusal {
        CodeRefusal::TooFew(size) => size,
        _ => 0,
    }
}

fn answer_of(answer: Result<(), CodeRefusal>) -> u32
    ensures { result ≡ answer_of answer }
{
    match answer {
        Ok(()) => 0,
        Err(refusal) => refusal.number() as u32 + 256 * size_in(refusal) as u32,
    }
}

// The redundant blocks of the k data blocks, into out.
#[unsafe(no_mangle)]
pub extern "C" fn mezgaudre_encode(
    k: usize,
    n: usize,
    b: usize,
    blocks: &[u8],
    out: &mut [u8],
) -> u32
    ensures { answered (encoding k n b blocks.now out.old) ≡ record { answer = result; out = out.new } }
{
    answer_of(coding::encode(k, n, b, blocks, out))
}

// The data blocks from the table's blocks of the nodes, into out.
#[unsafe(no_mangle)]
pub extern "C" fn mezgaudre_decode(
    k: usize,
    n: usize,
    b: usize,
    nodes: &[u8],
    blocks: &[u8],
    out: &mut [u8],
) -> u32
    ensures { answered (decoding k n b nodes.now blocks.now out.old) ≡ record { answer = result; out = out.new } }
{
    answer_of(coding::decode(k, n, b, nodes, blocks, out))
}

#[unsafe(no_mangle)]
pub extern "C" fn mezgaudre_product(a: u8, b: u8) -> u8
    ensures { result ≡ product a b }
{
    gf256::product(a, b)
}

// dst plus c times src, answered 0; of another length than src, dst stays as it is, answered 1.
#[unsafe(no_mangle)]
pub extern "C" fn mezgaudre_add_times(dst: &mut [u8], src: &[u8], c: u8) -> u32
    ensures { added c src.now dst.old ≡ record { answer = result; out = dst.new } }
{
    if dst.len() != src.len() {
        return 1;
    }
    blocks::add_times(dst, src, c);
    0
}

// The stripe and the position of block b: layout's block_home, as numbers.
#[unsafe(no_mangle)]
pub extern "C" fn mezgaudre_block_stripe(k: usize, b: usize) -> usize
    ensures { result ≡ (home_of k b).stripe }
{
    layout::block_home(k, b).stripe
}

#[unsafe(no_mangle)]
pub extern "C" fn mezgaudre_block_position(k: usize, b: usize) -> u8
    ensures { result ≡ (home_of k b).position }
{
    layout::block_home(k, b).position
}

#[unsafe(no_mangle)]
pub extern "C" fn mezgaudre_card(n: usize, s: usize, j: u8) -> u8
    ensures { result ≡ card_for n s j }
{
    layout::card(n, s, j)
}

#[unsafe(no_mangle)]
pub extern "C" fn mezgaudre_node_on(n: usize, s: usize, card: u8) -> u8
    ensures { result ≡ node_for n s card }
{
    layout::node_on(n, s, card)
}

// The length of a stripe's image; 0 for sizes outside the limits, which have none.
#[unsafe(no_mangle)]
pub extern "C" fn mezgaudre_image_length(
    k: usize,
    n: usize,
    b: usize,
    failures: usize,
    m: usize,
) -> usize
    ensures { result ≡ length_by (record { k = k; n = n; b = b; failures = failures; m = m }) }
{
    image::length(Sizes {
        k,
        n,
        b,
        failures,
        m,
    })
}
