// The lines of a script, one after the other, on the volume's tables.
ghost use Rattle.std.specs.Prelude.{◌≡◌, length, min, OnOk, OnErr};
ghost use Rattle.streams.specs.Reading.{unread, Ended};
ghost use Rattle.volumeplay.specs.Asking.{AnswersPart, CallsPart};

use crate::next_line::take_line;
use crate::show::put_line;
use crate::{CLIENTS, NODES};
use calls::Answer;
use records::{ClientRecord, NodeRecord};
use std::io::{Read, Result, Write};
use streams::input::{Input, TURNS};
use tables::Volume;
use volumescript::reader::VolumeLine;

// As many as there are, or all.
fn least(count: usize, len: usize) -> usize
    ensures { result ≡ min count len }
{
    if count < len { count } else { len }
}

// The line's call, on the tables' parts of the volume. There is room for one byte more than any call takes: a longer value is then refused for its length.
fn call_part(
    nodes: &mut [NodeRecord],
    clients: &mut [ClientRecord],
    blocks: &mut [u8],
    spare: &mut [u8],
    differences: &mut [u8],
    value: &[u8],
    volume: Volume,
    line: VolumeLine,
) -> Answer
    ensures { CallsPart nodes.old clients.old blocks.old spare.old differences.old
        value.now volume line result nodes.new clients.new blocks.new spare.new differences.new }
{
    let lengths = volume.lengths();
    let nodes_to = least(lengths.nodes, nodes.len());
    let clients_to = least(lengths.clients, clients.len());
    let value_to = least(line.count(), value.len());
    volumeshelf::call(
        &mut nodes[..nodes_to],
        &mut clients[..clients_to],
        blocks,
        spare,
        differences,
        &value[..value_to],
        line.call(volume),
    )
}

// What the line's read is answered. The bytes have been cut out: the blocks and the spare have the volume's length.
fn read_part(
    nodes: &[NodeRecord],
    clients: &[ClientRecord],
    volume: Volume,
    line: VolumeLine,
) -> Answer
    ensures { AnswersPart nodes.now clients.now volume line result }
{
    let lengths = volume.lengths();
    let nodes_to = least(lengths.nodes, nodes.len());
    let clients_to = least(lengths.clients, clients.len());
    let read = line.read(volume).sized(lengths.blocks, lengths.blocks);
    volumeshelf::read_answer(&nodes[..nodes_to], &clients[..clients_to], read)
}

// All lines, from fresh records on, to the end of the input. A read or a write that fails ends it, with that error alone.
pub fn play<R: Read, W: Write>(
    input: &mut Input<R>,
    out: &mut W,
    volume: Volume,
    blocks: &mut [u8],
    spare: &mut [u8],
    differences: &mut [u8],
    value: &mut [u8],
) -> Result<()>
    ensures ended { OnOk result (Ended (unread R.remaining input.old) (unread R.remaining input.new)) }
    ensures err { OnErr result ((length blocks.new ≡ length blocks.old) × (length spare.new ≡ length spare.old)
        × (length differences.new ≡ length differences.old) × (length value.new ≡ length value.old)) }
{
    let mut nodes = [NodeRecord::fresh(); NODES];
    let mut clients = [ClientRecord::fresh(); CLIENTS];
    for _ in 0..TURNS {
        let Some(line) = take_line(input, value)? else {
            return out.flush();
        };
        let called = call_part(
            &mut nodes,
            &mut clients,
            blocks,
            spare,
            differences,
            value,
            volume,
            line,
        );
        let answer = if line.is_read() {
            read_part(&nodes, &clients, volume, line)
        } else {
            called
        };
        put_line(
            out,
            volume,
            line,
            answer,
            &nodes,
            &clients,
            blocks,
            spare,
            differences,
        )?;
    }
    Ok(())
}
