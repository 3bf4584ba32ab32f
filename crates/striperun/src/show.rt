// What is printed of a line: `ANSWER RETURNED | STATE`.
ghost use Rattle.std.specs.Prelude.{◌≤◌};
ghost use Rattle.format.specs.Tables.{Tables};
ghost use Rattle.records.specs.Sizes.{client_limit};

use super::next_line::Order;
use answers::{put_answer, put_image};
use calls::{Call, shown_part};
use format::state::put_state;
use records::Sizes;
use script::reader::Line;
use std::io::{Result, Write};
use step::Played;

// The client that picks, if the line is a pick.
fn picker(line: Option<Line>) -> Option<u8> {
    match line?.call {
        Call::Pick(c) => Some(c),
        _ => None,
    }
}

// The position that is read, if the line is a read.
fn position(line: Option<Line>) -> Option<u8> {
    match line?.call {
        Call::Read(i) => Some(i),
        _ => None,
    }
}

// The answer, and what is returned with it.
fn put_returned<'a, W: Write>(
    out: &mut W,
    z: Sizes,
    order: Order,
    played: Played,
    blocks: &'a [u8],
    spare: &'a [u8],
    differences: &[u8],
) -> Result<()>
    requires { z.m ≤ client_limit }
{
    match order {
        Order::Image => put_image(out, z, played.stripe, blocks, spare, differences),
        Order::Call(line) => {
            let shown = shown_part(
                played.answer,
                z.b,
                position(line).unwrap_or(0) as usize,
                blocks,
                spare,
            );
            put_answer(
                out,
                z.m,
                picker(line),
                played.answer,
                played.stripe.clients,
                shown,
            )
        }
    }
}

// The line of a call or of an image.
pub fn put_played<'a, W: Write>(
    out: &mut W,
    z: Sizes,
    order: Order,
    played: Played,
    blocks: &'a [u8],
    spare: &'a [u8],
    differences: &[u8],
) -> Result<()>
    requires { Tables z blocks.now }
{
    put_returned(out, z, order, played, blocks, spare, differences)?;
    write!(out, " | ")?;
    let stripe = played.stripe;
    put_state(
        out,
        z,
        stripe.nodes,
        stripe.clients,
        blocks,
        spare,
        differences,
    )
}
