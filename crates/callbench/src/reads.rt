// Reads of the largest stripe, by value: the answer, and the part that it names.
ghost use Rattle.std.specs.Prelude.{◌≤◌};

use crate::starts::largest;
use calls::shown_part;
use records::Sizes;
use step::{Stripe, read_answer};

fn first_byte(part: &[u8]) -> u8 {
    if part.len() == 0 { 0 } else { part[0] }
}

// The position after i, of 1 to 12.
fn next(i: u8) -> u8
    ensures { result ≤ 12 }
{
    if i < 12 { i + 1 } else { 1 }
}

fn read_all<'a>(calls: usize, z: Sizes, stripe: Stripe, blocks: &'a [u8], spare: &'a [u8]) -> u8 {
    let mut sum = 0;
    let mut i = 1;
    for _ in 0..calls {
        let answer = read_answer(z, i, stripe, blocks.len(), spare.len());
        let part = shown_part(answer, z.b, i as usize, blocks, spare);
        sum = sum ^ first_byte(part);
        i = next(i);
    }
    sum
}

// So many reads with blocks of b bytes, of positions 1 to 12 in turn, on fresh records. The sum of the first bytes that they show.
#[unsafe(no_mangle)]
pub extern "C" fn callbench_reads<'a>(
    calls: usize,
    b: usize,
    blocks: &'a [u8],
    spare: &'a [u8],
) -> u8 {
    let stripe = Stripe::fresh();
    read_all(calls, largest(b), stripe, blocks, spare)
}
