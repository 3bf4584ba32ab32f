// The lines on the code, case by case.
ghost use Rattle.std.specs.Prelude.{◌≡◌, ◌+◌, ◌-◌, ◌*◌, ◌≤◌, length};
ghost use Rattle.code.specs.Code.{data_limit, redundant_limit, block_limit};
ghost use Rattle.codecheck.specs.Cases.{Within, Room, Tables};

use super::line::Line;
use super::{Sizes, checksum, decodings};
use code::{Limits, NodeSet};
use std::io::{Result, Write};

// The lengths of a case's buffers.
#[derive(Clone, Copy)]
struct Lengths {
    table: usize,
    data: usize,
    redundant: usize,
}

fn times(a: u16, b: u16) -> u32 {
    a as u32 * b as u32
}

// Byte q of the data.
fn data_byte(s: Sizes, q: u16) -> u8
    requires { Within s }
{
    let kn = times(s.k as u16, s.n as u16) as u64;
    ((times(q, q) as u64 / 251 + q as u64 * 31 + kn + s.b as u64) % 256) as u8
}

fn fill_data(s: Sizes, data: &mut [u8])
    requires { Within s × (length «data».old ≤ data_limit * block_limit) }
{
    for (q, byte) in data.iter_mut().enumerate() {
        *byte = data_byte(s, q as u16);
    }
}

// The codeword: the data, and then the redundant blocks.
fn join(word: &mut [u8], data: &[u8], redundant: &[u8])
    requires { length word.old ≡ length «data».now + length redundant.now }
{
    let middle = data.len();
    word[..middle].copy_from_slice(data);
    word[middle..].copy_from_slice(redundant);
}

// The case's first line.
fn print_codeword<W: Write>(to: &mut W, s: Sizes, redundant: &[u8]) -> Result<()>
    requires { Within s }
{
    let line = Line::new()
        .byte(s.k as u8)
        .byte(s.n as u8)
        .space()
        .byte((s.b / 256) as u8)
        .byte((s.b % 256) as u8)
        .space()
        .checksum(checksum::after_all(0, redundant));
    if s.b <= 2 {
        line.space().bytes(redundant).write(to)
    } else {
        line.write(to)
    }
}

// A case in the buffers lent.
fn print_lent<W: Write>(
    to: &mut W,
    s: Sizes,
    word: &mut [u8],
    table: &mut [u8],
    data: &mut [u8],
    redundant: &mut [u8],
) -> Result<()>
    requires tables { Tables s word.old table.old }
    requires data_len_bound { (length «data».old ≤ data_limit * block_limit) × (length word.old ≡ length «data».old + length redundant.old) }
{
    fill_data(s, data);
    let _ = coding::encode(s.k, s.n, s.b, data, redundant);
    join(word, data, redundant);
    print_codeword(to, s, redundant)?;
    decodings::print(to, s, word, table, data, redundant)
}

fn lengths_of(s: Sizes) -> Lengths
    requires { Within s }
    ensures { Room s result }
{
    let data = s.k * s.b;
    let redundant = (s.n - s.k) * s.b;
    Lengths {
        table: data + redundant,
        data,
        redundant,
    }
}

fn print_case<W: Write>(to: &mut W, s: Sizes) -> Result<()>
    requires { Within s }
{
    let mut word = [0u8; NodeSet::NODES * Limits::BLOCK_MOST];
    let mut table = [0u8; NodeSet::NODES * Limits::BLOCK_MOST];
    let mut data = [0u8; Limits::DATA_MOST * Limits::BLOCK_MOST];
    let mut redundant = [0u8; Limits::REDUNDANT_MOST * Limits::BLOCK_MOST];
    let lengths = lengths_of(s);
    let t = lengths.table;
    let d = lengths.data;
    let r = lengths.redundant;
    print_lent(
        to,
        s,
        &mut word[0..t],
        &mut table[0..t],
        &mut data[0..d],
        &mut redundant[0..r],
    )
}

fn print_lengths<W: Write>(to: &mut W, k: usize, n: usize) -> Result<()>
    requires { (k ≤ data_limit) × (k ≤ n) × (n - k ≤ redundant_limit) }
{
    print_case(to, Sizes { k, n, b: 1 })?;
    print_case(to, Sizes { k, n, b: 2 })?;
    print_case(to, Sizes { k, n, b: 511 })?;
    print_case(
        to,
        Sizes {
            k,
            n,
            b: Limits::BLOCK_MOST,
        },
    )
}

pub fn print<W: Write>(to: &mut W) -> Result<()> {
    print_lengths(to, 2, 4)?;
    print_lengths(to, 3, 5)?;
    print_lengths(to, 4, 7)?;
    print_lengths(to, 12, 18)
}
