// The lines of standard input.
use script::reader::{Line, LineReader};
use std::io::{Read, Result};
use streams::input::Input;

// What a line asks for: a call, None if it is unreadable, or the image of the stripe, `M`, which is no call of the machine.
#[derive(Clone, Copy)]
pub enum Order {
    Call(Option<Line>),
    Image,
}

// What a line is so far: without a byte, M alone, or anything else.
#[derive(Clone, Copy, PartialEq, Eq)]
enum Begun {
    Nothing,
    M,
    Other,
}

impl Begun {
    fn step(self, byte: u8) -> Begun {
        if self == Begun::Nothing && byte == b'M' {
            Begun::M
        } else {
            Begun::Other
        }
    }
}

// The next line, if there is one. Its value goes to the buffer lent for it.
pub fn take_line<R: Read>(input: &mut Input<R>, value: &mut [u8]) -> Result<Option<Order>> {
    let mut reader = LineReader::new();
    let mut begun = Begun::Nothing;
    let is_line = input.line(|byte| {
        reader = reader.step(byte, value);
        begun = begun.step(byte);
    })?;
    if !is_line {
        return Ok(None);
    }
    if begun == Begun::M {
        return Ok(Some(Order::Image));
    }
    Ok(Some(Order::Call(reader.finish())))
}
