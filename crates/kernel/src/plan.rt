// Which sums the weights choose.
ghost use Rattle.std.specs.Prelude.{◌≡◌, ℕ, ◌+◌, ◌*◌, ◌≤◌, ◌<◌, length, get_or};
ghost use Rattle.kernel.specs.Combine.{source_limit};
ghost use Rattle.kernel.specs.Working;
ghost use Rattle.kernel.specs.Working.{packed};

// The bits of w, each a digit in base 16.
fn spread(w: u8) -> u32
    ensures { (result ≡ Working.spread 8 w) × (result ≤ 286331153) }
{
    let halves = (w as u32 * 4097) & 983055;
    let quarters = (halves * 65) & 50529027;
    (quarters * 9) & 286331153
}

fn pack(a: u8, b: u8, c: u8, d: u8) -> u32
    ensures { result ≡ packed a b c d }
{
    spread(a) + 2 * spread(b) + 4 * spread(c) + 8 * spread(d)
}

// The weights of the m blocks, twelve of each, four by four.
pub fn pack_all(rows: &[u8], m: usize) -> [u32; 768]
    requires { (m ≤ 256) × (length rows.now ≡ m * source_limit) }
    ensures { (i : ℕ) → i < 3 * m → get_or result i 0 ≡ packed (get_or rows.now (4 * i) 0) (get_or rows.now (4 * i + 1) 0)
        (get_or rows.now (4 * i + 2) 0) (get_or rows.now (4 * i + 3) 0) }
{
    let mut r = [0u32; 768];
    for i in 0..3 * m {
        let q = 4 * i;
        r[i] = pack(rows[q], rows[q + 1], rows[q + 2], rows[q + 3]);
    }
    r
}

// Where the sum of the group g stands that digit h chooses.
pub fn place(x: u32, h: usize, g: usize) -> usize
    requires { (h < 8) × (g < 3) }
    ensures { (result ≡ Working.place x h g) × (result ≤ 752) }
{
    ((x >> (4 * h)) % 16) as usize * 16 + 256 * g
}
