// A node's record with its block as a text.
use super::lists::{put_entries, put_set};
use records::{Lmode, NodeRecord, Opmode};
use std::io::{Result, Write};
use streams::output::put_bytes;

fn opmode_word(opmode: Opmode) -> &'static str {
    match opmode {
        Opmode::Norm => "NORM",
        Opmode::Recons => "RECONS",
        Opmode::Init => "INIT",
    }
}

fn lmode_word(lmode: Lmode) -> &'static str {
    match lmode {
        Lmode::Unl => "UNL",
        Lmode::L0 => "L0",
        Lmode::L1 => "L1",
        Lmode::Exp => "EXP",
    }
}

// `OPMODE,LMODE`.
pub fn put_modes<W: Write>(out: &mut W, opmode: Opmode, lmode: Lmode) -> Result<()> {
    write!(out, "{},{}", opmode_word(opmode), lmode_word(lmode))
}

// `j:BLOCK,OPMODE,LMODE,HOLDER,EPOCH,RSET,ENTRIES`, the holder 0 if there is none.
pub fn put_node<W: Write>(out: &mut W, j: usize, node: NodeRecord, block: &[u8]) -> Result<()> {
    write!(out, "{j}:")?;
    put_bytes(out, block)?;
    write!(out, ",")?;
    put_modes(out, node.opmode, node.lmode)?;
    write!(out, ",{},{},", node.holder.unwrap_or(0), node.epoch.0)?;
    put_set(out, node.rset)?;
    write!(out, ",")?;
    put_entries(out, node.entries)
}
