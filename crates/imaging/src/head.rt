// The header and the sizes.
ghost use Rattle.std.specs.Prelude.{true, ◌≡◌, ◌+◌, ◌≤◌, ◌<◌, length, get_or};
ghost use Rattle.octets.specs.Octets.{joined, Put};
ghost use Rattle.image.specs.Image.{header_width, sizes_bytes, header};
ghost use Rattle.records.specs.Sizes.{data_limit, node_limit, block_limit, client_limit, sizes_within};
ghost use Rattle.imaging.specs.Imaging.{pair_bytes, Rises};

use image::{HEADER, Places, SIZES};
use octets::{put, word_bytes};
use records::Sizes;

// What the header says of a section: where it begins, and how long it is.
fn pair_bytes(begin: usize, end: usize) -> [u8; 8]
    requires { (begin ≤ end) × (end < 4294967296) }
    ensures { result ≡ pair_bytes begin end }
{
    let a = word_bytes(begin as u32);
    let l = word_bytes((end - begin) as u32);
    [a[0], a[1], a[2], a[3], l[0], l[1], l[2], l[3]]
}

// The six pairs: each section ends where the next begins.
fn put_pairs(out: &mut [u8], bounds: [usize; 7])
    requires { (header_width ≤ length out.old) × (Rises bounds) }
    ensures { Put out.old 4 (joined 6 (λ i. pair_bytes (get_or bounds i 0) (get_or bounds (i + 1) 0))) out.new }
{
    for i in 0..6 {
        let pair = pair_bytes(bounds[i], bounds[i + 1]);
        put(out, 4 + i * 8, &pair);
    }
}

// The count of sections, and the pairs.
pub(crate) fn put_header(out: &mut [u8], z: Sizes)
    requires { (sizes_within z ≡ true) × (header_width ≤ length out.old) }
    ensures { Put out.old 0 (header z) out.new }
{
    let p = Places::of(z);
    put(out, 0, &word_bytes(6));
    put_pairs(
        out,
        [
            HEADER,
            HEADER + SIZES,
            p.clients,
            p.blocks,
            p.differences,
            p.spare,
            p.end,
        ],
    );
}

pub(crate) fn sizes_bytes(z: Sizes) -> [u8; SIZES]
    requires { (z.k ≤ data_limit) × (z.n ≤ node_limit) × (z.failures ≤ node_limit) × (z.m ≤ client_limit) × (z.b ≤ block_limit) }
    ensures { result ≡ sizes_bytes z }
{
    let b = word_bytes(z.b as u32);
    [
        z.k as u8,
        z.n as u8,
        z.failures as u8,
        z.m as u8,
        b[0],
        b[1],
        b[2],
        b[3],
    ]
}
