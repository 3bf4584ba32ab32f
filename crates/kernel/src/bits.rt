// One block's part of a tile, by the bits of its weights.
ghost use Rattle.std.specs.Prelude.{◌≡◌, ℕ, ◌+◌, ◌*◌, ◌/◌, ◌%◌, ◌≤◌, ◌<◌, length, get_or};
ghost use Rattle.kernel.specs.Working.{Zeroed, Lowest, Sixteens, stepped, down};

use crate::plan::place;

// The sum so far, one bit on.
fn step(above: u8, s: &[u8], x: u32, y: u32, z: u32, i: usize, h: usize) -> u8
    requires { (h < 8) × (i + 752 < length s.now) }
    ensures { result ≡ stepped s.now x y z i h above }
{
    gf256::double(above) ^ s[place(x, h, 0) + i] ^ s[place(y, h, 1) + i] ^ s[place(z, h, 2) + i]
}

// How many bits of the weights count, from the lowest on.
trait Bits {
    ghost many: { ℕ };

    // The sum by these bits, from the highest of them down. (A multiplication: it is arithmetic alone, with no loop.)
    fn sum(s: &[u8], x: u32, y: u32, z: u32, i: usize) -> u8
        requires { i + 752 < length s.now }
        ensures { result ≡ down s.now x y z i many 0 };
}

// All of them.
struct Eight;

impl Bits for Eight {
    ghost many = { 8 };

    fn sum(s: &[u8], x: u32, y: u32, z: u32, i: usize) -> u8 {
        let b7 = step(0, s, x, y, z, i, 7);
        let b6 = step(b7, s, x, y, z, i, 6);
        let b5 = step(b6, s, x, y, z, i, 5);
        let b4 = step(b5, s, x, y, z, i, 4);
        let b3 = step(b4, s, x, y, z, i, 3);
        let b2 = step(b3, s, x, y, z, i, 2);
        let b1 = step(b2, s, x, y, z, i, 1);
        step(b1, s, x, y, z, i, 0)
    }
}

// The lowest alone.
struct One;

impl Bits for One {
    ghost many = { 1 };

    fn sum(s: &[u8], x: u32, y: u32, z: u32, i: usize) -> u8 {
        step(0, s, x, y, z, i, 0)
    }
}

// Sixteen such sums, from place e on.
fn sixteen<W: Bits>(s: &[u8], x: u32, y: u32, z: u32, e: usize) -> [u8; 16]
    requires { e + 768 ≤ length s.now }
    ensures { (l : ℕ) → l < 16 → get_or result l 0 ≡ down s.now x y z (e + l) W.many 0 }
{
    let mut r = [0u8; 16];
    for (l, byte) in r.iter_mut().enumerate() {
        *byte = W::sum(s, x, y, z, e + l);
    }
    r
}

// Out as far as it has whole sixteens; the sums of the first begin at e. (Fewer than sixteen bytes have a way of their own: where a loop puts now
// sixteen, now fewer, LLVM makes a call of memcpy for each.)
fn fill_sixteens<W: Bits>(out: &mut [u8], s: &[u8], x: u32, y: u32, z: u32, e: usize)
    requires { (length out.old ≤ 256) × (e + length out.old / 16 * 768 ≤ length s.now) × (length s.now ≡ 12288) }
    ensures { Lowest W.many s.now x y z e (length out.old) (length out.old / 16) out.new }
{
    for c in 0..out.len() / 16 {
        let a = 16 * c;
        lanes::write(&mut out[a..a + 16], sixteen::<W>(s, x, y, z, e + c * 768));
    }
}

// The same for any weights: of weights 0 and 1 only the lowest bit counts. Which it is, is asked outside the loops.
fn fill_whole(out: &mut [u8], s: &[u8], x: u32, y: u32, z: u32, e: usize)
    requires { (length out.old ≤ 256) × (e + length out.old / 16 * 768 ≤ length s.now) × (length s.now ≡ 12288) }
    ensures { Sixteens s.now x y z e (length out.old) (length out.old / 16) out.new }
{
    if x < 16 && y < 16 && z < 16 {
        fill_sixteens::<One>(out, s, x, y, z, e);
    } else {
        fill_sixteens::<Eight>(out, s, x, y, z, e);
    }
}

// One block's bytes, from the sums of a tile.
pub fn fill(out: &mut [u8], s: &[u8], x: u32, y: u32, z: u32)
    requires { (length out.old ≤ 256) × (length s.now ≡ 12288) × Zeroed (length out.old) s.now }
    ensures { (length out.new ≡ length out.old)
        × ((i : ℕ) → i < length out.old → get_or out.new i 0 ≡ down s.now x y z (i / 16 * 768 + i % 16) 8 0) }
{
    fill_whole(out, s, x, y, z, 0);
    let c = out.len() / 16;
    if 16 * c < out.len() {
        let mut r = [0u8; 16];
        fill_whole(&mut r, s, x, y, z, c * 768);
        lanes::put(out, 16 * c, r);
    }
}
