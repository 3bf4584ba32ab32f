// Blocks of bytes, and one block of a table of blocks.
#![tactic(auto)]

pub mod doublings; // doublings.rt: products of one byte by many

ghost use Rattle.std.specs.Prelude.{◌≡◌, ◌+◌, ◌-◌, ◌*◌, ◌≤◌, length, replicate};
ghost use Rattle.blocks.specs.Blocks;
ghost use Rattle.blocks.specs.Blocks.{set_block, add_times, has_block, block_in};

use doublings::Doublings;

// Zero at each place.
pub fn clear(dst: &mut [u8])
    ensures { dst.new ≡ replicate (length dst.old) 0 }
{
    dst.fill(0);
}

// (By a loop: LLVM makes memcpy of it, as the two can't overlap; of copy_from_slice it makes memmove.)
pub fn copy(dst: &mut [u8], src: &[u8])
    requires { length dst.old ≡ length src.now }
    ensures { dst.new ≡ src.now }
{
    for (i, s) in src.iter().enumerate() {
        dst[i] = *s;
    }
}

// The value into the block, and what it differs by from the old block into the difference. (By the place: two slices are written.)
pub fn swap(block: &mut [u8], difference: &mut [u8], value: &[u8])
    requires { (length block.old ≡ length value.now) × (length difference.old ≡ length value.now) }
    ensures block { block.new ≡ value.now }
    ensures difference { difference.new ≡ Blocks.difference value.now block.old }
{
    for (i, v) in value.iter().enumerate() {
        difference[i] = *v ^ block[i];
        block[i] = *v;
    }
}

// dst plus c times src. (By the place: after a zip over iter_mut nothing is known of what it wrote.)
pub fn add_times(dst: &mut [u8], src: &[u8], c: u8)
    requires { length dst.old ≡ length src.now }
    ensures { dst.new ≡ add_times c dst.old src.now }
{
    let m = Doublings::of(c);
    for (i, s) in src.iter().enumerate() {
        dst[i] ^= m.times(*s);
    }
}

// ---- block j of the table t, of blocks of b bytes; the other blocks are as they were

// Whether a table of len bytes has it. The product j * b may overflow, so it is not made.
fn has_block(len: usize, b: usize, j: usize) -> bool
    ensures { result ≡ has_block b j len }
{
    j != 0 && b <= len / j
}

// The block itself, a part of the table; an empty part where the table does not have it.
pub fn block_of<'a>(t: &'a [u8], b: usize, j: usize) -> &'a [u8]
    ensures { result.now ≡ block_in b j t.now }
{
    if has_block(t.len(), b, j) {
        let a = (j - 1) * b;
        return &t[a..a + b];
    }
    &t[..0]
}

pub fn copy_block(t: &mut [u8], b: usize, j: usize, src: &[u8])
    requires { (1 ≤ j) × ((j - 1) * b + b ≤ length t.old) × (length src.now ≡ b) }
    ensures { t.new ≡ set_block b j src.now t.old }
{
    let a = (j - 1) * b;
    copy(&mut t[a..a + b], src);
}

pub fn add_times_block(t: &mut [u8], b: usize, j: usize, src: &[u8], c: u8)
    requires { (1 ≤ j) × ((j - 1) * b + b ≤ length t.old) × (length src.now ≡ b) }
    ensures { t.new ≡ set_block b j (add_times c (Blocks.block b j t.old) src.now) t.old }
{
    let a = (j - 1) * b;
    add_times(&mut t[a..a + b], src, c);
}

pub fn swap_block(t: &mut [u8], b: usize, j: usize, difference: &mut [u8], value: &[u8])
    requires { (1 ≤ j) × ((j - 1) * b + b ≤ length t.old) × (length difference.old ≡ b) × (length value.now ≡ b) }
    ensures block { t.new ≡ set_block b j value.now t.old }
    ensures difference { difference.new ≡ Blocks.difference value.now (Blocks.block b j t.old) }
{
    let a = (j - 1) * b;
    swap(&mut t[a..a + b], difference, value);
}
