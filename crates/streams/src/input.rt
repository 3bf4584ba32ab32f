// Standard input by way of a buffer of fixed size: its bytes and its lines.
ghost use Rattle.std.specs.Prelude.{◌≤◌};

pub use crate::refusing::refuse_lines;
use std::alloc::AllocError;
use std::io::{self, Read};

pub const LF: u8 = b'\n';

const ROOM: usize = 65536;

// A proved loop has to end, and nothing says that the input does: a number of turns that no run uses up.
pub const TURNS: u64 = u64::MAX;

// A reader, and the bytes that were read and not yet taken: those of the buffer from `at` on, before `end`.
#[derive(Drop)]
pub struct Input<R> {
    from: R,
    buffer: [u8; ROOM],
    at: usize,
    end: usize,
    ghost in_room: { end ≤ 65536 },
}

impl<R: Clone> Clone for Input<R> {
    ghost use Rattle.std.specs.Prelude.{◌≡◌};

    ghost is_clone = { λ x y. R.is_clone x.from y.from × (y.buffer ≡ x.buffer) × (y.at ≡ x.at) × (y.end ≡ x.end) };

    ghost is_infallible = { λ x. R.is_infallible x.from };

    fn clone(&self) -> Result<Self, AllocError> {
        Ok(Input {
            from: self.from.clone()?,
            buffer: self.buffer,
            at: self.at,
            end: self.end,
        })
    }
}

impl<R: Copy> Copy for Input<R> {}

impl<R: Read> Input<R> {
    ghost use Rattle.std.specs.Prelude.{◌≡◌, IfOk};
    ghost use Rattle.streams.specs.Reading.{unread, TakesByte, TakesLine};

    pub fn new(from: R) -> Self
        ensures { unread R.remaining result ≡ R.remaining from }
    {
        Input {
            from,
            buffer: [0; ROOM],
            at: 0,
            end: 0,
        }
    }

    // The next byte; None at the end of the input.
    pub fn next(&mut self) -> io::Result<Option<u8>>
        ensures { IfOk result (λ byte. TakesByte (unread R.remaining self.old) (unread R.remaining self.new) byte) }
    {
        if self.end <= self.at {
            let end = self.from.read(&mut self.buffer)?;
            self.end = end;
            self.at = 0;
            if end == 0 {
                return Ok(None);
            }
        }
        let byte = self.buffer[self.at];
        self.at += 1;
        Ok(Some(byte))
    }

    // The bytes of the next line, each given to the closure; whether there was a line, which may end with the input.
    pub fn line<F: FnMut(u8)>(&mut self, mut take: F) -> io::Result<bool>
        requires { F.IsAlwaysCallable take }
        ensures { IfOk result (λ is_line. TakesLine (unread R.remaining self.old) (unread R.remaining self.new) is_line) }
    {
        let mut is_begun = false;
        for _ in 0..TURNS {
            let Some(byte) = self.next()? else {
                return Ok(is_begun);
            };
            if byte == LF {
                return Ok(true);
            }
            take(byte);
            is_begun = true;
        }
        Ok(false)
    }
}
