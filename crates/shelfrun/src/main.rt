// The program shelfrun of document 01: a line of output for each line of standard input.
#![tactic(auto)]

mod answering; // answering.rt: a line answered
mod feeding; // feeding.rt: the bytes of the input, one after the other
mod words; // words.rt: the words of an answer

ghost use Rattle.std.specs.Prelude.{◌≡◌, ◌+◌, ◌*◌, ◌≤◌, ◌<◌, ◌^◌, length, replicate, take, IfOk, OnOk, OnErr};
ghost use Rattle.io.specs.Counts.{IsPrefixLen};
ghost use Rattle.std.specs.Io.KnownBytes.{Consumes, IsAtEnd};
ghost use Rattle.shelfrun.specs.Feeding.{Ended, Feeds, Keeps, Played, Prints, Reached};

use feeding::Shelf;
use std::io::{Read, Result, Write};

// How many bytes were read, the shelf after them, and how long their output is.
#[derive(Clone, Copy)]
struct Passed {
    read: usize,
    shelf: Shelf,
    end: usize,
}

// Reads once, 0 bytes at the end of the input, and answers what came. A read that fails leaves all but the input's buffer as it was.
fn pass<R: Read>(
    from: &mut R,
    shelf: Shelf,
    input: &mut [u8],
    blocks: &mut [u8],
    spare: &mut [u8],
    differences: &mut [u8],
    out: &mut [u8],
) -> Result<Passed>
    requires { (shelf.lines + length input.old < 2 ^ 64) × (length input.old * 64 ≤ length out.old) }
    ensures read_in_bounds { IfOk result (λ passed.
        (passed.read ≤ length input.new) × (passed.shelf.lines ≤ shelf.lines + passed.read)) }
    ensures prefix_len { IfOk result (λ passed. IsPrefixLen passed.end out.new) }
    ensures feeds { IfOk result (λ passed. Feeds (Keeps shelf blocks.old spare.old differences.old)
        (take passed.read input.new) (take passed.end out.new)
        (Keeps passed.shelf blocks.new spare.new differences.new)) }
    ensures reads { IfOk result (λ passed.
        Consumes (R.remaining from.old) (R.remaining from.new) (take passed.read input.new)) }
    ensures at_end { IfOk result (λ passed. passed.read ≡ 0 → 0 < length input.old → IsAtEnd (R.remaining from.new)) }
    ensures err { OnErr result ((blocks.new ≡ blocks.old) × (spare.new ≡ spare.old)
        × (differences.new ≡ differences.old) × (out.new ≡ out.old)) }
{
    let n = from.read(input)?;
    let fed = feeding::feed(shelf, &input[..n], blocks, spare, differences, out);
    Ok(Passed {
        read: n,
        shelf: fed.shelf,
        end: fed.end,
    })
}

// The shelf after all that was read. A proved loop has to end, and nothing says that the input does. So it counts the bytes that are left of 2^64: no
// run uses them up, and no line number overflows. A read or a write that fails ends it; the tables are then those after some of the input.
fn run<R: Read, W: Write>(
    from: &mut R,
    to: &mut W,
    input: &mut [u8],
    blocks: &mut [u8],
    spare: &mut [u8],
    differences: &mut [u8],
    out: &mut [u8],
) -> Result<Shelf>
    requires input_len_bound { (length input.old ≤ 1024) × (length input.old * 64 ≤ length out.old) }
    requires blocks_value { (blocks.old ≡ replicate 4 0) × (spare.old ≡ replicate 4 0) × (differences.old ≡ replicate 2 0) }
    ensures lines_bound { IfOk result (λ shelf. shelf.lines + 1 < 2 ^ 64) }
    ensures reached { IfOk result (λ shelf. Reached (Keeps shelf blocks.new spare.new differences.new)) }
    ensures played { IfOk result (λ shelf.
        Played (R.remaining from.old) (R.remaining from.new) (W.contents to.old) (W.contents to.new)
        (Keeps shelf blocks.new spare.new differences.new)) }
    ensures ended { 0 < length input.old → OnOk result (Ended (R.remaining from.old) (R.remaining from.new)) }
    ensures err { OnErr result ((shelf : Shelf) × Reached (Keeps shelf blocks.new spare.new differences.new)) }
{
    let mut shelf = Shelf::new();
    let mut room = u64::MAX - 1;
    while room > 1024 {
        let passed = pass(from, shelf, input, blocks, spare, differences, out)?;
        shelf = passed.shelf;
        let n = passed.read;
        let end = passed.end;
        if n == 0 {
            return Ok(shelf);
        }
        to.write_all(&out[..end])?;
        room -= n as u64;
    }
    Ok(shelf)
}

// The program: reads to the end, and writes what `shelfrun` prints of what it read.
pub fn play<R: Read, W: Write>(from: &mut R, to: &mut W) -> Result<()>
    ensures { OnOk result (Prints (R.remaining from.old) (W.contents to.old) (W.contents to.new)) }
{
    let mut input = [0u8; 1024];
    let mut out = [0u8; 65536];
    let mut blocks = [0u8; 4];
    let mut spare = [0u8; 4];
    let mut differences = [0u8; 2];
    let shelf = run(
        from,
        to,
        &mut input,
        &mut blocks,
        &mut spare,
        &mut differences,
        &mut out,
    )?;
    let end = feeding::finish(shelf, &mut blocks, &mut spare, &mut differences, &mut out);
    to.write_all(&out[..end])
}

fn main(rt: HostRuntime) -> Result<()> {
    let mut from = rt.stdin();
    let mut to = rt.stdout();
    play(&mut from, &mut to)
}
