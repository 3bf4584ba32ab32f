// The bytes of the input, one after the other.
ghost use Rattle.std.specs.Prelude.{[], ◌∷◌, ◌≡◌, suc, ◌+◌, ◌*◌, ◌≤◌, ◌<◌, ◌^◌, length, replicate, take};
ghost use Rattle.io.specs.Counts.{IsPrefixLen};
ghost use Rattle.script.specs.Lines.{shelf_call};
ghost use Rattle.step.specs.View.{stripe_of};
ghost use Rattle.shelfrun.specs.Shelfrun.{State, start, sizes, last_output};
ghost use Rattle.shelfrun.specs.Feeding.{Answers, Feeds, Is, Keeps};

use super::answering;
use super::answering::Answered;
use script::reader::{LineReader, in_shelfrun};
use step::Stripe;

const LF: u8 = b'\n';

// What is kept from byte to byte: how many lines were answered, whether a line has begun, what it is so far, with the byte of its value, and the
// records.
#[derive(Clone, Copy)]
pub struct Shelf {
    pub lines: u64,
    pub begun: bool,
    pub reader: LineReader,
    pub value: u8,
    pub stripe: Stripe,
}

// The shelf after some bytes, and how long their output is.
#[derive(Clone, Copy)]
pub struct Fed {
    pub shelf: Shelf,
    pub end: usize,
}

impl Shelf {
    pub fn new() -> Self
        ensures lines_value { result.lines ≡ 0 }
        ensures keeps { Keeps result (replicate 4 0) (replicate 4 0) (replicate 2 0) start }
    {
        let reader = LineReader::new();
        let stripe = Stripe::fresh();
        Shelf {
            lines: 0,
            begun: false,
            reader,
            value: 0,
            stripe,
        }
    }
}

// The line comes to its end.
fn end_line(
    lines: u64,
    reader: LineReader,
    value: u8,
    stripe: Stripe,
    blocks: &mut [u8],
    spare: &mut [u8],
    differences: &mut [u8],
    out: &mut [u8],
) -> Answered
    requires { (lines + 1 < 2 ^ 64) × (64 ≤ length out.old) }
    ensures end_in_bounds { result.end ≤ length out.new }
    ensures answers { (x : State) →
        Is x lines reader (value ∷ []) (stripe_of sizes stripe blocks.old spare.old differences.old) →
        Answers (suc x.lines) (shelf_call x.line) x.stripe out.old out.new result.end
        (stripe_of sizes result.stripe blocks.new spare.new differences.new) }
{
    let line = in_shelfrun(reader.finish());
    answering::answer(
        lines + 1,
        line,
        value,
        stripe,
        blocks,
        spare,
        differences,
        out,
    )
}

// A byte prints at most a line, and no line is longer than 64 bytes.
pub fn feed(
    shelf: Shelf,
    input: &[u8],
    blocks: &mut [u8],
    spare: &mut [u8],
    differences: &mut [u8],
    out: &mut [u8],
) -> Fed
    requires { (shelf.lines + length input.now < 2 ^ 64) × (length input.now * 64 ≤ length out.old) }
    ensures prefix_len { IsPrefixLen result.end out.new }
    ensures lines_bound { result.shelf.lines ≤ shelf.lines + length input.now }
    ensures feeds { Feeds (Keeps shelf blocks.old spare.old differences.old)
        input.now (take result.end out.new)
        (Keeps result.shelf blocks.new spare.new differences.new) }
{
    let mut lines = shelf.lines;
    let mut begun = shelf.begun;
    let mut reader = shelf.reader;
    let mut value = [shelf.value];
    let mut stripe = shelf.stripe;
    let mut end = 0;
    let mut i = 0;
    while i < input.len() {
        let byte = input[i];
        i += 1;
        if byte == LF {
            let stop = end + 64;
            let answered = end_line(
                lines,
                reader,
                value[0],
                stripe,
                blocks,
                spare,
                differences,
                &mut out[end..stop],
            );
            stripe = answered.stripe;
            end += answered.end;
            lines += 1;
            reader = LineReader::new();
            begun = false;
        } else {
            reader = reader.step(byte, &mut value);
            begun = true;
        }
    }
    let shelf = Shelf {
        lines,
        begun,
        reader,
        value: value[0],
        stripe,
    };
    Fed { shelf, end }
}

// The last line, if it has begun: it lacks its end.
pub fn finish(
    shelf: Shelf,
    blocks: &mut [u8],
    spare: &mut [u8],
    differences: &mut [u8],
    out: &mut [u8],
) -> usize
    requires { (shelf.lines + 1 < 2 ^ 64) × (64 ≤ length out.old) }
    ensures prefix_len { IsPrefixLen result out.new }
    ensures out_after { (x : State) → Keeps shelf blocks.old spare.old differences.old x →
        take result out.new ≡ last_output x }
{
    if !shelf.begun {
        return 0;
    }
    let answered = end_line(
        shelf.lines,
        shelf.reader,
        shelf.value,
        shelf.stripe,
        blocks,
        spare,
        differences,
        out,
    );
    answered.end
}
