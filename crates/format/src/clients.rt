// A client's record as a text.
use super::lists::{Id, put_ids, put_set};
use records::ClientRecord;
use std::io::{Result, Write};

// `position/id/previous or none/epoch/DONE`.
fn put_write<W: Write>(out: &mut W, write: records::Write) -> Result<()> {
    write!(out, "{}/{}/", write.id.position, Id(write.id))?;
    match write.previous {
        None => write!(out, "none")?,
        Some(id) => write!(out, "{}", Id(id))?,
    }
    write!(out, "/{}/", write.epoch.0)?;
    put_set(out, write.done)
}

// `c:HAND,FINISHED,MOVED,SWEEP,NEXT`.
pub fn put_client<W: Write>(out: &mut W, c: usize, client: ClientRecord) -> Result<()> {
    write!(out, "{c}:")?;
    match client.hand {
        None => write!(out, "-")?,
        Some(write) => put_write(out, write)?,
    }
    write!(out, ",")?;
    put_ids(out, client.finished)?;
    write!(out, ",")?;
    put_ids(out, client.moved)?;
    write!(out, ",{},{}", client.round, client.next.0)
}
