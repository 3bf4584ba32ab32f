// An answer, and what is returned with it, as text.
#![tactic(auto)]

mod images; // images.rt: the image of a stripe

ghost use Rattle.std.specs.Prelude.{◌≤◌};
ghost use Rattle.records.specs.Sizes.{client_limit};

use calls::Answer;
use format::lists::{Id, put_set};
use format::nodes::put_modes;
pub use images::put_image;
use records::{CheckAnswer, Finding, Phase, Refusal, Returned, Source};
use std::io::{Result, Write};
use step::Clients;
use streams::output::put_bytes;

// What is returned with the acceptance of a call that has no word of its own: what the client that picks has picked, the set and E.
fn put_accepted<W: Write>(out: &mut W, m: usize, picker: Option<u8>, clients: Clients) -> Result<()>
    requires { m ≤ client_limit }
{
    let Some(c) = picker else {
        return write!(out, "-");
    };
    let Phase::Writing(_, set, epoch) = clients.get(m, c).phase else {
        return write!(out, "-");
    };
    write!(out, "set=")?;
    put_set(out, set)?;
    write!(out, " E={}", epoch.0)
}

// The block that a read shows, and where it lies.
fn put_block_read<W: Write>(out: &mut W, source: Source, shown: &[u8]) -> Result<()> {
    write!(out, "block=")?;
    put_bytes(out, shown)?;
    match source {
        Source::Live => write!(out, " live"),
        Source::Spare => write!(out, " spare"),
    }
}

// What is returned with a refusal.
fn put_refusal<W: Write>(out: &mut W, why: Refusal) -> Result<()> {
    match why.returned() {
        Returned::Nothing => write!(out, "-"),
        Returned::Modes(opmode, lmode) => put_modes(out, opmode, lmode),
        Returned::NodeEpoch(epoch) => write!(out, "{}", epoch.0),
        Returned::PreviousId(id) => write!(out, "{}", Id(id)),
        Returned::SetSize(size) => write!(out, "{size}"),
    }
}

// What a call that asks is told.
fn finding_word(finding: Finding) -> &'static str {
    match finding {
        Finding::Check(CheckAnswer::Init) => "INIT",
        Finding::Check(CheckAnswer::Gc) => "GC",
        Finding::Check(CheckAnswer::NoChange) => "NoChange",
        Finding::Due(true) => "due",
        Finding::Due(false) => "no",
    }
}

// `ANSWER RETURNED`. The client that picks, if the call is a pick; all clients after the call; the block that a read shows.
pub fn put_answer<W: Write>(
    out: &mut W,
    m: usize,
    picker: Option<u8>,
    answer: Answer,
    clients: Clients,
    shown: &[u8],
) -> Result<()>
    requires { m ≤ client_limit }
{
    write!(out, "{} ", answer.number())?;
    match answer {
        Answer::Accepted => put_accepted(out, m, picker, clients),
        Answer::Shown(source) => put_block_read(out, source, shown),
        Answer::Added => write!(out, "Added"),
        Answer::Done => write!(out, "Done"),
        Answer::Rebuilt => write!(out, "rebuilt"),
        Answer::Told(finding) => write!(out, "{}", finding_word(finding)),
        Answer::Refused(why) => put_refusal(out, why),
    }
}
