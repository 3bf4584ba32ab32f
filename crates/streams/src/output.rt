// Standard output by way of a buffer of fixed size, and what the programs print by it.
ghost use Rattle.std.specs.Prelude.{◌≡◌, ◌+◌, ◌≤◌, cond, ltb};

use std::cmp::min;
use std::io::{Result, Write};

const ROOM: usize = 65536;

// A writer, and the bytes that are not yet written: the first `held` of the buffer. A full buffer is written.
#[derive(Drop)]
pub struct Output<W> {
    to: W,
    buffer: [u8; ROOM],
    held: usize,
    ghost in_room: { held ≤ 65536 },
}

impl<W: Write> Output<W> {
    pub fn new(to: W) -> Self {
        Output {
            to,
            buffer: [0; ROOM],
            held: 0,
        }
    }
}

impl<W: Write> Write for Output<W> {
    fn write(&mut self, buf: &[u8]) -> Result<usize> {
        if self.held == ROOM {
            self.to.write_all(&self.buffer)?;
            self.held = 0;
        }
        let count = min(buf.len(), ROOM - self.held);
        let end = self.held + count;
        self.buffer[self.held..end].copy_from_slice(&buf[..count]);
        self.held = end;
        Ok(count)
    }

    // What fits goes in at once; else each turn takes what there is room for, a byte at least.
    fn write_all(&mut self, buf: &[u8]) -> Result<()> {
        if buf.len() <= ROOM - self.held {
            let end = self.held + buf.len();
            self.buffer[self.held..end].copy_from_slice(buf);
            self.held = end;
            return Ok(());
        }
        let mut rest = buf;
        for _ in 0..buf.len() {
            if rest.is_empty() {
                break;
            }
            let count = self.write(rest)?;
            rest = &rest[count..];
        }
        Ok(())
    }

    fn flush(&mut self) -> Result<()> {
        self.to.write_all(&self.buffer[..self.held])?;
        self.held = 0;
        self.to.flush()
    }
}

// A hexadecimal digit, a capital.
pub fn hexadecimal(digit: u8) -> u8
    requires { digit ≤ 15 }
    ensures { result ≡ cond (ltb digit 10) (48 + digit) (55 + digit) }
{
    if digit < 10 {
        b'0' + digit
    } else {
        b'A' + (digit - 10)
    }
}

// How many bytes become digits at a time.
const CHUNK: usize = 32;

// Two hexadecimal digits for each byte.
pub fn put_bytes<W: Write>(out: &mut W, bytes: &[u8]) -> Result<()> {
    let mut digits = [0u8; 2 * CHUNK];
    for chunk in bytes.chunks(CHUNK) {
        // (No chunk is longer; a minimum is what the check sees.)
        let count = min(chunk.len(), CHUNK);
        for i in 0..count {
            digits[2 * i] = hexadecimal(chunk[i] / 16);
            digits[2 * i + 1] = hexadecimal(chunk[i] % 16);
        }
        out.write_all(&digits[..2 * count])?;
    }
    Ok(())
}

// Each item by the closure, with the separator between one and the next; `-` if there is none.
pub fn put_list<W: Write, T, F: Fn(&mut W, &T) -> Result<()>>(
    out: &mut W,
    items: &[T],
    separator: &str,
    put: F,
) -> Result<()>
    requires { F.IsAlwaysCallable put }
{
    if items.is_empty() {
        return write!(out, "-");
    }
    for (i, item) in items.iter().enumerate() {
        if i > 0 {
            write!(out, "{separator}")?;
        }
        put(out, item)?;
    }
    Ok(())
}
