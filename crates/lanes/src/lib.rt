// Sixteen bytes at a time: as many as the machine adds at once.
#![tactic(auto)]

ghost use Rattle.std.specs.Prelude.{◌≡◌, ℕ, ◌+◌, ◌/◌, ◌%◌, ◌≤◌, ◌<◌, length, get_or};
ghost use Rattle.blocks.specs.Blocks.{part};
ghost use Rattle.basics.specs.Lists.{list_of};
ghost use Rattle.lanes.specs.Lanes.{lane, chosen};

// The sixteen bytes into out. (By a loop, into which the test of multiplications can look; the machine moves them at once.)
pub fn write(out: &mut [u8], bytes: [u8; 16])
    requires { length out.old ≡ 16 }
    ensures { out.new ≡ bytes }
{
    for l in 0..16 {
        out[l] = bytes[l];
    }
}

// The n bytes of t from a on, but no more than 16, and zeros after them.
pub fn read(t: &[u8], a: usize, n: usize) -> [u8; 16]
    requires { a + n ≤ length t.now }
    ensures { result ≡ list_of 16 (lane t.now a n) }
{
    let mut r = [0u8; 16];
    if n < 16 {
        r[..n].copy_from_slice(&t[a..a + n]);
    } else {
        r.copy_from_slice(&t[a..a + 16]);
    }
    r
}

// The bytes into out from a on, as far as out goes.
pub fn put(out: &mut [u8], a: usize, bytes: [u8; 16])
    requires { a ≤ length out.old }
    ensures { (length out.new ≡ length out.old)
        × ((i : ℕ) → i < a → get_or out.new i 0 ≡ get_or out.old i 0)
        × ((l : ℕ) → l < 16 → a + l < length out.old → get_or out.new (a + l) 0 ≡ get_or bytes l 0) }
{
    let n = (out.len() - a).min(16);
    out[a..a + n].copy_from_slice(&bytes[..n]);
}

// At place 16 v of s the sum of those of the four that the bits of v choose, for v from 0 to 15.
pub fn sums(s: &mut [u8], w: [u8; 16], x: [u8; 16], y: [u8; 16], z: [u8; 16])
    requires { length s.old ≡ 256 }
    ensures { s.new ≡ list_of 256 (λ i. chosen (i / 16) (get_or w (i % 16) 0) (get_or x (i % 16) 0) (get_or y (i % 16) 0) (get_or z (i % 16) 0)) }
{
    // (By the place: each turn writes sixteen places of s, sixteen apart.)
    for i in 0..16 {
        let a = w[i];
        let b = x[i];
        let c = y[i];
        let d = z[i];
        s[i] = 0;
        s[16 + i] = a;
        s[32 + i] = b;
        s[48 + i] = a ^ b;
        s[64 + i] = c;
        s[80 + i] = a ^ c;
        s[96 + i] = b ^ c;
        s[112 + i] = a ^ b ^ c;
        s[128 + i] = d;
        s[144 + i] = a ^ d;
        s[160 + i] = b ^ d;
        s[176 + i] = a ^ b ^ d;
        s[192 + i] = c ^ d;
        s[208 + i] = a ^ c ^ d;
        s[224 + i] = b ^ c ^ d;
        s[240 + i] = a ^ b ^ c ^ d;
    }
}
