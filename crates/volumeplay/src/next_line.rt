// The lines of standard input.
ghost use Rattle.std.specs.Prelude.{IfOk, is_some};
ghost use Rattle.streams.specs.Reading.{unread, TakesLine};

use std::io::{Read, Result};
use streams::input::Input;
use volumescript::reader::{VolumeLine, VolumeReader};

// The next line, if there is one. Its value goes to the buffer lent for it.
pub(crate) fn take_line<R: Read>(
    input: &mut Input<R>,
    value: &mut [u8],
) -> Result<Option<VolumeLine>>
    ensures { IfOk result (λ line. TakesLine (unread R.remaining input.old) (unread R.remaining input.new) (is_some line)) }
{
    let mut reader = VolumeReader::new();
    let is_line = input.line(|byte| reader = reader.step(byte, value))?;
    if is_line {
        Ok(Some(reader.finish()))
    } else {
        Ok(None)
    }
}
