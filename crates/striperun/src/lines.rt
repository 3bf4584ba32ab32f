// A whole script, after its line of sizes.
ghost use Rattle.std.specs.Prelude.{◌≡◌, ◌*◌, ◌≤◌};
ghost use Rattle.format.specs.Tables.{Within, Tables};
ghost use Rattle.records.specs.Sizes.{node_limit, block_limit};

use super::next_line::{Order, take_line};
use super::show::put_played;
use calls::Answer;
use code::Limits;
use records::{Refusal, Sizes};
use script::reader::Line;
use std::cmp::min;
use std::io::{Read, Result, Write};
use step::{Played, Stripe};
use streams::input::{Input, TURNS};

// A line's call, if it has one: an image is no call. The value has room for one byte more than a block: a longer one is then refused for its length.
fn play(
    z: Sizes,
    order: Order,
    value: &[u8],
    stripe: Stripe,
    blocks: &mut [u8],
    spare: &mut [u8],
    differences: &mut [u8],
) -> Played {
    match order {
        Order::Image => Played {
            answer: Answer::Accepted,
            stripe,
        },
        Order::Call(None) => Played {
            answer: Answer::Refused(Refusal::OutOfLimits),
            stripe,
        },
        Order::Call(Some(Line { call, count })) => {
            let value = &value[..min(count, value.len())];
            step::play(z, call, value, stripe, blocks, spare, differences)
        }
    }
}

// What each line asks for, on a fresh stripe whose tables are lent.
fn play_lent<R: Read, W: Write>(
    input: &mut Input<R>,
    out: &mut W,
    z: Sizes,
    blocks: &mut [u8],
    spare: &mut [u8],
    differences: &mut [u8],
    value: &mut [u8],
) -> Result<()>
    requires { Tables z blocks.old }
{
    let mut stripe = Stripe::fresh();
    for _ in 0..TURNS {
        let Some(order) = take_line(input, value)? else {
            return out.flush();
        };
        let played = play(z, order, value, stripe, blocks, spare, differences);
        stripe = played.stripe;
        put_played(out, z, order, played, blocks, spare, differences)?;
    }
    Ok(())
}

fn table_length(blocks: usize, b: usize) -> usize
    requires { (blocks ≤ node_limit) × (b ≤ block_limit) }
    ensures { (result ≡ blocks * b) × (result ≤ blocks * block_limit) }
{
    blocks * b
}

pub fn play_lines<R: Read, W: Write>(input: &mut Input<R>, out: &mut W, z: Sizes) -> Result<()>
    requires { Within z }
{
    let mut blocks = [0u8; Sizes::NODES * Limits::BLOCK_MOST];
    let mut spare = [0xAAu8; Sizes::NODES * Limits::BLOCK_MOST];
    let mut differences = [0x55u8; Sizes::CLIENTS * Limits::BLOCK_MOST];
    let mut value = [0u8; Limits::BLOCK_MOST + 1];
    let of_nodes = table_length(z.n, z.b);
    let of_clients = table_length(z.m, z.b);
    play_lent(
        input,
        out,
        z,
        &mut blocks[..of_nodes],
        &mut spare[..of_nodes],
        &mut differences[..of_clients],
        &mut value[..z.b + 1],
    )
}
