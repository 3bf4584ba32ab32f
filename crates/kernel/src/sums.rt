// The sums of a tile: of each four sources the sixteen sums that the bits of four weights can choose.
ghost use Rattle.std.specs.Prelude.{◌≡◌, ◌+◌, ◌-◌, ◌≤◌, ◌<◌, length, get_or};
ghost use Rattle.basics.specs.Lists.{list_of};
ghost use Rattle.lanes.specs.Lanes.{lane};
ghost use Rattle.kernel.specs.Combine.{source_limit};
ghost use Rattle.kernel.specs.Working.{Sources, Summed, Prepared, group_sum};

use crate::SOURCES;

// The n bytes of source q from place p on, but no more than 16.
fn source(t: &[u8], starts: &[usize; SOURCES], q: usize, p: usize, n: usize) -> [u8; 16]
    requires { (q < source_limit) × Sources (p + n) t.now starts.now }
    ensures { result ≡ list_of 16 (lane t.now (get_or starts.now q 0 + p) n) }
{
    lanes::read(t, starts[q] + p, n)
}

// The sums of the group of four sources that g groups stand before.
fn group_sums(s: &mut [u8], t: &[u8], starts: &[usize; SOURCES], p: usize, n: usize, g: usize)
    requires { (length s.old ≡ 256) × (g < 3) × Sources (p + n) t.now starts.now }
    ensures { s.new ≡ list_of 256 (group_sum t.now starts.now p n g) }
{
    let q = 4 * g;
    let w = source(t, starts, q, p, n);
    let x = source(t, starts, q + 1, p, n);
    let y = source(t, starts, q + 2, p, n);
    let z = source(t, starts, q + 3, p, n);
    lanes::sums(s, w, x, y, z);
}

// The sums of one group, of all n bytes from place p on. (One group at a time: twelve sources that lie a page apart are more than the cache holds
// side by side.)
fn tile_group(s: &mut [u8], t: &[u8], starts: &[usize; SOURCES], p: usize, n: usize, g: usize)
    requires { (n ≤ 256) × (g < 3) × Sources (p + n) t.now starts.now × Summed t.now starts.now p n g 0 s.old }
    ensures { Summed t.now starts.now p n (g + 1) 0 s.new }
{
    for c in 0..n.div_ceil(16) {
        let a = c * 768 + g * 256;
        group_sums(&mut s[a..a + 256], t, starts, p + 16 * c, n - 16 * c, g);
    }
}

// The sums of the n bytes of the sources from place p on, 16 bytes after the other.
pub fn tile_sums(s: &mut [u8], t: &[u8], starts: &[usize; SOURCES], p: usize, n: usize)
    requires { (length s.old ≡ 12288) × (n ≤ 256) × Sources (p + n) t.now starts.now }
    ensures { Prepared t.now starts.now p n s.new }
{
    for g in 0..3 {
        tile_group(s, t, starts, p, n, g);
    }
}
