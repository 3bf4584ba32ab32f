// Plays a script on a volume of many stripes, in fixed memory.
#![tactic(auto)]

ghost use Rattle.std.specs.Prelude.{◌≡◌};
ghost use Rattle.volumerun.specs.Memory.{Fits, fits_in};

use std::io::{Read, Result, Write};
use streams::input::{Input, refuse_lines};
use streams::output::Output;
use streams::sizes::SizesReader;
use tables::Volume;
use volumeplay::{CLIENTS, NODES, entry};

// What there is memory for beside the records, of all stripes together: bytes of blocks, and of spare as many, bytes of differences, bytes of a value.
const BLOCKS: usize = 131_072;

const DIFFERENCES: usize = 262_144;

const VALUE: usize = 32_768;

fn fits(volume: Volume) -> bool
    ensures { result ≡ fits_in volume }
{
    let lengths = volume.lengths();
    lengths.nodes <= NODES
        && (lengths.clients <= CLIENTS
            && (lengths.blocks <= BLOCKS
                && (lengths.differences <= DIFFERENCES && lengths.value <= VALUE)))
}

// The script, on a fresh volume.
fn play_lines<R: Read, W: Write>(input: &mut Input<R>, out: &mut W, volume: Volume) -> Result<()>
    requires { Fits volume }
{
    let mut blocks = [0u8; BLOCKS];
    let mut spare = [0xAAu8; BLOCKS];
    let mut differences = [0x55u8; DIFFERENCES];
    let mut value = [0u8; VALUE + 1];
    let lengths = volume.lengths();
    let of_nodes = lengths.blocks;
    let of_clients = lengths.differences;
    entry::play(
        input,
        out,
        volume,
        &mut blocks[0..of_nodes],
        &mut spare[0..of_nodes],
        &mut differences[0..of_clients],
        &mut value,
    )
}

fn main(rt: HostRuntime) -> Result<()> {
    let mut input = Input::new(rt.stdin());
    let mut out = Output::new(rt.stdout());
    let mut reader = SizesReader::new();
    input.line(|byte| reader = reader.step(byte))?;
    let Some((stripes, z)) = reader.finish_volume() else {
        return refuse_lines(&mut input, &mut out);
    };
    let volume = Volume { stripes, z };
    if !volume.within() {
        return refuse_lines(&mut input, &mut out);
    }
    if fits(volume) {
        return play_lines(&mut input, &mut out, volume);
    }
    write!(out, "too large\n")?;
    out.flush()
}
