// What is printed of a line: `ANSWER RETURNED`, or `0 STATE`.
ghost use Rattle.std.specs.Prelude.{◌≡◌, ◌≤◌, length};

use crate::stripes::{clients_shown, nodes_shown};
use answers::put_answer;
use blocks::block_of;
use calls::Answer;
use format::state::put_state;
use records::{ClientRecord, NodeRecord, Source};
use std::io::{Result, Write};
use tables::{Volume, stripe_part, table_blocks, table_differences};
use volumescript::reader::VolumeLine;

// Stripe s, which the line shows, if there is one.
fn put_stripe<W: Write>(
    out: &mut W,
    volume: Volume,
    line: VolumeLine,
    s: usize,
    nodes: &[NodeRecord],
    clients: &[ClientRecord],
    blocks: &[u8],
    spare: &[u8],
    differences: &[u8],
) -> Result<()> {
    let z = volume.z;
    if volume.stripes <= s {
        return write!(out, "2 -\n");
    }
    if !z.within() {
        return write!(out, "1 -\n");
    }
    let blocks = stripe_part(blocks, s, table_blocks(z));
    let spare = stripe_part(spare, s, table_blocks(z));
    let differences = stripe_part(differences, s, table_differences(z));
    if blocks.len() != table_blocks(z) {
        return write!(out, "1 -\n");
    }
    let nodes = nodes_shown(nodes, volume, line);
    let clients = clients_shown(clients, volume, line);
    write!(out, "0 ")?;
    put_state(out, z, nodes, clients, blocks, spare, differences)
}

// An answer, and what is returned with it; the block that a read shows is in this table.
fn put_given<W: Write>(
    out: &mut W,
    volume: Volume,
    line: VolumeLine,
    answer: Answer,
    clients: &[ClientRecord],
    table: &[u8],
) -> Result<()> {
    let z = volume.z;
    if !z.within() {
        return write!(out, "1 -\n");
    }
    let read = line.read(volume);
    let own = stripe_part(table, read.stripe, table_blocks(z));
    let shown = block_of(own, z.b, read.i as usize);
    let picker = line.pick().map(|(_, c)| c);
    let clients = clients_shown(clients, volume, line);
    put_answer(out, z.m, picker, answer, clients, shown)?;
    write!(out, "\n")
}

// The line of a call, of a read or of a stripe that is shown.
pub(crate) fn put_line<W: Write>(
    out: &mut W,
    volume: Volume,
    line: VolumeLine,
    answer: Answer,
    nodes: &[NodeRecord],
    clients: &[ClientRecord],
    blocks: &[u8],
    spare: &[u8],
    differences: &[u8],
) -> Result<()> {
    if let VolumeLine::Show(s) = line {
        return put_stripe(
            out,
            volume,
            line,
            s,
            nodes,
            clients,
            blocks,
            spare,
            differences,
        );
    }
    match answer {
        Answer::Shown(Source::Spare) => put_given(out, volume, line, answer, clients, spare),
        _ => put_given(out, volume, line, answer, clients, blocks),
    }
}
