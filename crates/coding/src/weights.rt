// The weights with which blocks count in a block: the coefficients of the code, and those that recover a node from k others.
ghost use Rattle.std.specs.Prelude.{◌≡◌, ℕ, ◌+◌, ◌-◌, ◌*◌, ◌/◌, ◌%◌, ◌<◌, ◌≤◌, length, get_or};
ghost use Rattle.gf256.specs.Field;
ghost use Rattle.gf256.specs.Field.{IsPowers, IsLogarithms};
ghost use Rattle.code.specs.Code;
ghost use Rattle.code.specs.Code.{data_limit, redundant_limit};
ghost use Rattle.code.specs.Decode;
ghost use Rattle.kernel.specs.Combine.{nth, Nodes};
ghost use Rattle.coding.specs.Weights.{Apart, ApartBut, ApartIn, Rising, First, factors, IsShare, Shares, data_weight, unit_weight};

use code::Limits;

// The nodes that can hold data.
pub fn data_nodes() -> [u8; Limits::DATA_MOST]
    ensures { First result }
{
    [1, 2, 3, 4, 5, 6, 7, 8, 9, 10, 11, 12]
}

// ---- the coefficients

// The weight of the data node that i nodes stand before in the redundant node j; 0 past the k data nodes.
fn data_weight(powers: &[u8; 255], logarithms: &[u8; 256], k: usize, j: usize, i: usize) -> u8
    requires { IsPowers powers.now × IsLogarithms logarithms.now × (k ≤ data_limit) × (k < j) × (j ≤ 256) }
    ensures { result ≡ data_weight k j i }
{
    if k <= i {
        return 0;
    }
    let apart = gf256::logarithm(logarithms, ((j - 1) as u8 ^ i as u8) as usize);
    gf256::power(powers, 255 - apart)
}

// The twelve weights of each of the m redundant nodes after k.
pub fn data_weights(k: usize, m: usize) -> [u8; Limits::REDUNDANT_MOST * Limits::DATA_MOST]
    requires { (k ≤ data_limit) × (m ≤ redundant_limit) }
    ensures { (i : ℕ) → i < m * data_limit → get_or result i 0 ≡ data_weight k (k + i / data_limit + 1) (i % data_limit) }
{
    let powers = gf256::powers::table();
    let logarithms = gf256::logarithms::table();
    let mut r = [0u8; Limits::REDUNDANT_MOST * Limits::DATA_MOST];
    for i in 0..m * Limits::DATA_MOST {
        r[i] = data_weight(
            &powers,
            &logarithms,
            k,
            k + i / Limits::DATA_MOST + 1,
            i % Limits::DATA_MOST,
        );
    }
    r
}

// ---- the recovering weights, by their logarithms, which are added up: of twelve factors at most

// The logarithm of the product, over the nodes after the first a up to the eth, of the sum of each one's point and that of node j, which is none of
// them.
fn span(logarithms: &[u8; 256], nodes: &[u8], a: usize, e: usize, j: usize) -> usize
    requires { IsLogarithms logarithms.now × Nodes nodes.now × (a ≤ e) × (e ≤ length nodes.now) × ApartIn nodes.now a e j × (1 ≤ j) × (j ≤ 256) }
    ensures { (Field.power result ≡ factors (nth nodes.now) a (e - a) (j - 1)) × (result ≤ 254 * (e - a)) }
{
    let t = (j - 1) as u8;
    let mut r = 0;
    for l in a..e {
        r += gf256::logarithm(logarithms, (t ^ (nodes[l] - 1)) as usize);
    }
    r
}

// The same over each node but the qth. Of the others none is node j.
fn others(logarithms: &[u8; 256], nodes: &[u8], q: usize, j: usize) -> usize
    requires { IsLogarithms logarithms.now × Nodes nodes.now × (1 ≤ q) × (q ≤ length nodes.now) × ApartBut nodes.now q j × (1 ≤ j) × (j ≤ 256) }
    ensures { (Field.power result ≡ Decode.others (nth nodes.now) (length nodes.now) q (j - 1)) × (result ≤ 3048) }
{
    span(logarithms, nodes, 0, q - 1, j) + span(logarithms, nodes, q, nodes.len(), j)
}

// The same over the data nodes.
fn scale(logarithms: &[u8; 256], k: usize, j: usize) -> usize
    requires { IsLogarithms logarithms.now × (k ≤ data_limit) × (1 ≤ j) × (j ≤ 256) }
    ensures { (Field.power result ≡ Decode.scale k j) × (result ≤ 3048) }
{
    let data = data_nodes();
    if k < j {
        return span(logarithms, &data[..k], 0, k, j);
    }
    others(logarithms, &data[..k], j, j)
}

// The logarithm of a quotient: 3,060 is twelve times 255.
fn over(a: usize, b: usize) -> usize
    requires { (a ≤ 3048) × (b ≤ 3048) }
    ensures { (Field.power result ≡ Field.product (Field.power a) (Field.inverse (Field.power b))) × (result ≤ 6108) }
{
    a + (3060 - b)
}

// What the qth node counts for by itself.
fn share_of(logarithms: &[u8; 256], nodes: &[u8], q: usize) -> usize
    requires { IsLogarithms logarithms.now × Nodes nodes.now × Rising nodes.now × (1 ≤ q) × (q ≤ length nodes.now) }
    ensures { IsShare nodes.now q result }
{
    let j = nodes[q - 1] as usize;
    let apart = others(logarithms, nodes, q, j);
    over(scale(logarithms, nodes.len(), j), apart)
}

pub fn shares(logarithms: &[u8; 256], nodes: &[u8]) -> [usize; Limits::DATA_MOST]
    requires { IsLogarithms logarithms.now × Nodes nodes.now × Rising nodes.now }
    ensures { Shares nodes.now result }
{
    let mut r = [0usize; Limits::DATA_MOST];
    for q in 0..nodes.len() {
        r[q] = share_of(logarithms, nodes, q + 1);
    }
    r
}

// What the blocks of the nodes count for in that of node j, which is none of them: so the product over all nodes is made once, and the factor of
// each taken out of it.
pub fn recover_row(
    powers: &[u8; 255],
    logarithms: &[u8; 256],
    nodes: &[u8],
    shares: &[usize; Limits::DATA_MOST],
    j: usize,
) -> [u8; Limits::DATA_MOST]
    requires { IsPowers powers.now × IsLogarithms logarithms.now × Nodes nodes.now × Apart nodes.now j × (1 ≤ j) × (j ≤ 256)
        × Shares nodes.now shares.now }
    ensures { ((q : ℕ) → 1 ≤ q → q ≤ length nodes.now → nth result q ≡ Decode.recover (length nodes.now) (nth nodes.now) j q)
        × ((q : ℕ) → length nodes.now ≤ q → get_or result q 0 ≡ 0) }
{
    let t = (j - 1) as u8;
    let k = nodes.len();
    let all = over(span(logarithms, nodes, 0, k, j), scale(logarithms, k, j));
    let mut r = [0u8; Limits::DATA_MOST];
    for q in 0..k {
        let own = gf256::logarithm(logarithms, (t ^ (nodes[q] - 1)) as usize);
        r[q] = gf256::power(powers, shares[q] + (255 - own) + all);
    }
    r
}

// The weight 1 at place q, from 0, and 0 at the others.
pub fn unit(q: usize) -> [u8; Limits::DATA_MOST]
    requires { q < data_limit }
    ensures { (i : ℕ) → get_or result i 0 ≡ unit_weight q i }
{
    let mut r = [0u8; Limits::DATA_MOST];
    r[q] = 1;
    r
}
