// A case's tables, decoded from all sets of k nodes.
ghost use Rattle.std.specs.Prelude.{◌≡◌, ◌*◌, length};
ghost use Rattle.codecheck.specs.Cases.{Within, Tables};

use super::line::Line;
use super::{Sizes, checksum, sets};
use code::{Limits, NodeSet};
use std::io::{Result, Write};

// Puts the lost block in the place of each block outside the set.
fn lose(s: Sizes, set: u32, lost: &[u8], table: &mut [u8])
    requires { Within s × (length lost.now ≡ s.b) × (length table.old ≡ s.n * s.b) }
{
    let n = s.n;
    for i in 0..n {
        if !sets::contains(set, n, i + 1) {
            blocks::copy_block(table, s.b, i + 1, lost);
        }
    }
}

// The checksum h run on over the table decoded from the set.
fn decoded(
    h: u32,
    s: Sizes,
    set: u32,
    word: &[u8],
    table: &mut [u8],
    data: &mut [u8],
    redundant: &mut [u8],
) -> u32
    requires { Tables s word.now table.old }
{
    let k = s.k;
    let b = s.b;
    let lost = [0xA5u8; Limits::BLOCK_MOST];
    table.copy_from_slice(word);
    lose(s, set, &lost[0..b], table);
    let members = sets::members(set, s.n);
    let _ = coding::decode(k, s.n, b, &members[0..k], table, data);
    let _ = coding::encode(k, s.n, b, data, redundant);
    checksum::after_all(checksum::after_all(h, data), redundant)
}

// Whether the five missing nodes from the second to the sixth are neighbours.
fn neighbours(second: u8, sixth: u8) -> bool {
    second as u32 + 4 == sixth as u32
}

// Prints the line that ends with the set's table, if one does, and answers what the checksum goes on from. With 18 nodes
// the sets with the same two lowest missing nodes share a line: the last of them misses the four nodes after the second.
fn print_line<W: Write>(to: &mut W, s: Sizes, set: u32, h: u32) -> Result<u32>
    requires { Within s }
{
    if s.n < NodeSet::NODES {
        let k = s.k;
        let members = sets::members(set, s.n);
        Line::new()
            .bytes(&members[0..k])
            .space()
            .checksum(h)
            .write(to)?;
        return Ok(0);
    }
    let missing = sets::members(!set, NodeSet::NODES);
    if neighbours(missing[1], missing[5]) {
        Line::new()
            .bytes(&missing[0..2])
            .space()
            .checksum(h)
            .write(to)?;
        return Ok(0);
    }
    Ok(h)
}

// The sets in lexicographic order, and a line where one ends.
pub fn print<W: Write>(
    to: &mut W,
    s: Sizes,
    word: &[u8],
    table: &mut [u8],
    data: &mut [u8],
    redundant: &mut [u8],
) -> Result<()>
    requires { Tables s word.now table.old }
{
    let k = s.k as u32;
    let mut h = 0;
    let mut set = 1u32 << s.n;
    while 0 < set {
        set -= 1;
        if u32::count_ones(set) == k {
            h = decoded(h, s, set, word, table, data, redundant);
            h = print_line(to, s, set, h)?;
        }
    }
    Ok(())
}
