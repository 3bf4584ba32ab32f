// The lines of a script that cannot be played.
ghost use Rattle.std.specs.Prelude.{OnOk};
ghost use Rattle.streams.specs.Reading.{unread, Ended};

use crate::input::{Input, TURNS};
use std::io::{Read, Result, Write};

// The sizes are outside the limits: each line is refused.
pub fn refuse_lines<R: Read, W: Write>(input: &mut Input<R>, out: &mut W) -> Result<()>
    ensures { OnOk result (Ended (unread R.remaining input.old) (unread R.remaining input.new)) }
{
    for _ in 0..TURNS {
        if !input.line(|_| ())? {
            return out.flush();
        }
        write!(out, "1 -\n")?;
    }
    Ok(())
}
