// A line of text: made by value, and written by one call.
ghost use Rattle.std.specs.Prelude.{◌<◌};

use std::io::{Result, Write};

// The characters so far, at the first `length` places. The longest line is 256 bytes of two digits, and LF.
#[derive(Clone, Copy)]
pub struct Line {
    characters: [u8; 513],
    length: usize,
}

fn hexadecimal(digit: u8) -> u8
    requires { digit < 16 }
{
    if digit < 10 {
        b'0' + digit
    } else {
        b'A' + (digit - 10)
    }
}

impl Line {
    pub fn new() -> Self {
        let characters = [0u8; 513];
        Self {
            characters,
            length: 0,
        }
    }

    // The line and one character more, where there is room.
    pub fn character(mut self, c: u8) -> Self {
        let at = self.length;
        if at < 513 {
            self.characters[at] = c;
            self.length = at + 1;
        }
        self
    }

    pub fn space(self) -> Self {
        self.character(b' ')
    }

    // Two hexadecimal digits.
    pub fn byte(self, b: u8) -> Self {
        self.character(hexadecimal(b / 16))
            .character(hexadecimal(b % 16))
    }

    pub fn bytes(mut self, bytes: &[u8]) -> Self {
        for b in bytes {
            self = self.byte(*b);
        }
        self
    }

    // Four bytes, the highest first.
    pub fn checksum(self, h: u32) -> Self {
        self.byte((h / 16777216) as u8)
            .byte((h / 65536 % 256) as u8)
            .byte((h / 256 % 256) as u8)
            .byte((h % 256) as u8)
    }

    // Writes the line, ended by LF.
    pub fn write<W: Write>(self, to: &mut W) -> Result<()> {
        let ended = self.character(b'\n');
        let characters = ended.characters;
        write_first(to, &characters, ended.length)
    }
}

fn write_first<W: Write>(to: &mut W, characters: &[u8], length: usize) -> Result<()> {
    if length <= characters.len() {
        to.write_all(&characters[0..length])?;
    }
    Ok(())
}
