// Images of the largest stripe, by value.
use crate::starts::{full, largest, writing};
use records::Sizes;
use step::Stripe;

// The number of a refusal, if it is the first.
fn first(number: u8, next: u8) -> u8 {
    if number == 0 { next } else { number }
}

fn write_all(
    calls: usize,
    z: Sizes,
    stripe: Stripe,
    blocks: &[u8],
    differences: &[u8],
    spare: &[u8],
    out: &mut [u8],
) -> u8 {
    let mut number = 0;
    for _ in 0..calls {
        let answer = imaging::write(z, stripe, blocks, differences, spare, out);
        number = first(number, answer.number());
    }
    number
}

// So many images with blocks of b bytes, of nodes with 16 entries each and clients with a write in hand. The number of the first refusal, or 0.
#[unsafe(no_mangle)]
pub extern "C" fn callbench_images(
    calls: usize,
    b: usize,
    blocks: &[u8],
    differences: &[u8],
    spare: &[u8],
    out: &mut [u8],
) -> u8 {
    let nodes = full();
    let clients = writing();
    let stripe = Stripe { nodes, clients };
    write_all(calls, largest(b), stripe, blocks, differences, spare, out)
}
