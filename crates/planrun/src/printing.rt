// An answer's line.
use planning::{PlanRefusal, Planned};
use std::io::{self, Write};

// More bytes than any line has.
const LINE_MOST: usize = 32;

// The line, as one write: standard output has no buffer.
pub fn print<W: Write>(to: &mut W, answer: Result<Planned, PlanRefusal>) -> io::Result<()> {
    let mut line = [0u8; LINE_MOST];
    let mut rest = &mut line[..];
    match answer {
        Ok(Planned { limit, kept }) => {
            writeln!(rest, "{limit} {}", if kept { "yes" } else { "no" })?
        }
        Err(refusal) => writeln!(rest, "{}", refusal.number())?,
    }
    let end = LINE_MOST.saturating_sub(rest.len());
    to.write_all(&line[..end])
}
