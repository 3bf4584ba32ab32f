// Answers planning calls: each line of standard input, `n-k G t_p`, gives `LIMIT yes`, `LIMIT no` or `1`.
#![tactic(auto)]

mod printing; // printing.rt: an answer's line
mod reader; // reader.rt: a line, read byte by byte

use printing::print;
use reader::Reader;
use std::io::{Read, Result, Write};

const LF: u8 = b'\n';

// A proved loop has to end, and nothing says that the input does: a number of turns that no run uses up.
const TURNS: u64 = u64::MAX;

// Answers the lines that end among the bytes; what is read of the line after them.
fn feed<W: Write>(to: &mut W, mut reader: Reader, input: &[u8]) -> Result<Reader> {
    for byte in input {
        if *byte == LF {
            print(to, reader.answer())?;
            reader = Reader::new();
        } else {
            reader = reader.step(*byte);
        }
    }
    Ok(reader)
}

fn main(rt: HostRuntime) -> Result<()> {
    let mut from = rt.stdin();
    let mut to = rt.stdout();
    let mut input = [0u8; 65536];
    let mut reader = Reader::new();
    for _ in 0..TURNS {
        let n = from.read(&mut input)?;
        if n == 0 {
            if reader.is_begun {
                print(&mut to, reader.answer())?;
            }
            return Ok(());
        }
        reader = feed(&mut to, reader, &input[..n])?;
    }
    Ok(())
}
