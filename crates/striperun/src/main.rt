// Plays a script on a stripe of any size, and prints everything after each call.
#![tactic(auto)]

mod lines; // lines.rt: the lines of a script, one after the other
mod show; // show.rt: what is printed of a call
mod next_line; // next_line.rt: the next line of standard input

use std::io::Result;
use streams::input::{Input, refuse_lines};
use streams::output::Output;
use streams::sizes::SizesReader;

fn main(rt: HostRuntime) -> Result<()> {
    let mut input = Input::new(rt.stdin());
    let mut out = Output::new(rt.stdout());
    let mut reader = SizesReader::new();
    input.line(|byte| reader = reader.step(byte))?;
    match reader.finish() {
        Some(z) if z.within() => lines::play_lines(&mut input, &mut out, z),
        _ => refuse_lines(&mut input, &mut out),
    }
}
