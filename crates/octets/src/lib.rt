// Numbers as bytes, the low byte first, and a buffer that is filled piece by piece.
#![tactic(auto)]

ghost use Rattle.std.specs.Prelude.{◌≡◌, ◌+◌, ◌≤◌, length};
ghost use Rattle.octets.specs.Octets.{word_bytes, Put};

pub fn word_bytes(n: u32) -> [u8; 4]
    ensures { result ≡ word_bytes n }
{
    let a = n / 256;
    let b = a / 256;
    let c = b / 256;
    let n0 = (n % 256) as u8;
    let n1 = (a % 256) as u8;
    let n2 = (b % 256) as u8;
    let n3 = (c % 256) as u8;
    [n0, n1, n2, n3]
}

// The bytes of v, from the place on.
pub fn put(out: &mut [u8], at: usize, v: &[u8])
    requires { at + length v.now ≤ length out.old }
    ensures { Put out.old at v.now out.new }
{
    blocks::copy(&mut out[at..at + v.len()], v);
}
