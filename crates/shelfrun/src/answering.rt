// A line answered: its call played, and the line of output.
ghost use Rattle.std.specs.Prelude.{List, [], ◌∷◌, ◌++◌, ◌≡◌, ℕ, ◌≤◌, length, take};
ghost use Rattle.std.proofs.Math.Option.{some};
ghost use Rattle.io.specs.Counts.{IsPrefixLen};
ghost use Rattle.calls.specs.Answers.{answer_of};
ghost use Rattle.calls.specs.Calls.{call_of};
ghost use Rattle.script.specs.Reading.{call_in};
ghost use Rattle.script.specs.Writing.{Put};
ghost use Rattle.step.specs.View.{stripe_of};
ghost use Rattle.step.specs.Plays.{shown_by};
ghost use Rattle.shelfrun.specs.Shelfrun.{output, sizes};
ghost use Rattle.shelfrun.specs.Feeding.{Answers};

use super::words;
use calls::{Answer, Call};
use records::Sizes;
use script::reader::Line;
use script::writer;
use std::cmp::min;
use step::Stripe;

// The records after a line, and how long its output is.
#[derive(Clone, Copy)]
pub struct Answered {
    pub stripe: Stripe,
    pub end: usize,
}

// The line of output of a call.
fn print<'a>(
    number: u64,
    call: Call,
    answer: Answer,
    blocks: &'a [u8],
    spare: &'a [u8],
    out: &mut [u8],
) -> usize
    requires { 64 ≤ length out.old }
    ensures { (value : List ℕ) → Put out.old 0
        (output number (some (call_of call value)) (answer_of answer (shown_by sizes call answer blocks.now spare.now)))
        out.new result }
{
    let w = words::words_of(call, answer, blocks, spare);
    writer::put_answer(out, number, w.event, answer.number(), w.shown)
}

// The call on the stripe of shelfrun's sizes, and what is printed of it.
fn answer_call(
    number: u64,
    call: Call,
    value: &[u8],
    stripe: Stripe,
    blocks: &mut [u8],
    spare: &mut [u8],
    differences: &mut [u8],
    out: &mut [u8],
) -> Answered
    requires { 64 ≤ length out.old }
    ensures { Answers number (some (call_of call value.now))
        (stripe_of sizes stripe blocks.old spare.old differences.old)
        out.old out.new result.end
        (stripe_of sizes result.stripe blocks.new spare.new differences.new) }
{
    let z = Sizes {
        k: 2,
        n: 4,
        b: 1,
        failures: 1,
        m: 2,
    };
    let played = step::play(z, call, value, stripe, blocks, spare, differences);
    let end = print(number, call, played.answer, blocks, spare, out);
    Answered {
        stripe: played.stripe,
        end,
    }
}

// As many bytes of the value as are counted, or all.
fn counted(value: &[u8], count: usize) -> usize
    ensures prefix_len { IsPrefixLen result value.now }
    ensures value_value { take result value.now ≡ take count value.now }
{
    min(count, value.len())
}

// A line is answered, readable or not. A value has one byte; of a longer one it is enough to know that it is longer, and a 0 stands for the rest.
pub fn answer(
    number: u64,
    line: Option<Line>,
    value: u8,
    stripe: Stripe,
    blocks: &mut [u8],
    spare: &mut [u8],
    differences: &mut [u8],
    out: &mut [u8],
) -> Answered
    requires { 64 ≤ length out.old }
    ensures { Answers number (call_in line (value ∷ []))
        (stripe_of sizes stripe blocks.old spare.old differences.old)
        out.old out.new result.end
        (stripe_of sizes result.stripe blocks.new spare.new differences.new) }
{
    match line {
        None => {
            let end = writer::put_answer(out, number, None, 1, None);
            Answered { stripe, end }
        }
        Some(Line { call, count }) => {
            let bytes = [value, 0];
            let n = counted(&bytes, count);
            answer_call(
                number,
                call,
                &bytes[..n],
                stripe,
                blocks,
                spare,
                differences,
                out,
            )
        }
    }
}
