// The words of an answer: its event, and the byte that a read shows.
ghost use Rattle.std.specs.Prelude.{None, Some, cond, List, [], ◌≡◌, ℕ, eqb};
ghost use Rattle.calls.specs.Answers.{answer_of};
ghost use Rattle.calls.specs.Calls.{call_of, step_of};
ghost use Rattle.script.specs.Lines.{is_rebuilt, event_at, event_by, event_of, shown, shown_text};
ghost use Rattle.machine.specs.Stripe.{number};
ghost use Rattle.step.specs.Plays.{shown_by};
ghost use Rattle.shelfrun.specs.Feeding.{Says, byte_in};
ghost use Rattle.shelfrun.specs.Shelfrun.{sizes};

use calls::{Answer, Call, StepCall, shown_part};
use records::{ClientCall, NodeCall};
use script::writer::Event;

#[derive(Clone, Copy)]
pub struct Words {
    pub event: Option<Event>,
    pub shown: Option<u8>,
}

fn if_accepted(answer: Answer, event: Event) -> Option<Event>
    ensures { (block : List ℕ) → result ≡ cond (eqb (number (answer_of answer block)) 0) (Some event) None }
{
    if answer.number() == 0 {
        Some(event)
    } else {
        None
    }
}

fn if_rebuilt(answer: Answer) -> Option<Event>
    ensures { (block : List ℕ) → result ≡ cond (is_rebuilt (answer_of answer block)) (Some Event.Rebuilt) None }
{
    match answer {
        Answer::Rebuilt => Some(Event::Rebuilt),
        _ => None,
    }
}

// The byte of a block of one byte.
fn byte_of(block: &[u8]) -> Option<u8>
    ensures { result ≡ byte_in block.now }
{
    block.first().copied()
}

// What a read shows of the tables.
fn shown_of<'a>(call: Call, answer: Answer, blocks: &'a [u8], spare: &'a [u8]) -> Option<u8>
    ensures { shown_text result ≡ shown (answer_of answer (shown_by sizes call answer blocks.now spare.now)) }
{
    match call {
        Call::Read(i) => byte_of(shown_part(answer, 1, i as usize, blocks, spare)),
        _ => None,
    }
}

// The events of the calls: at a node, of a client, and any.
fn event_at(op: NodeCall, answer: Answer) -> Option<Event>
    ensures { result ≡ event_at op (answer_of answer []) }
{
    match op {
        NodeCall::Add => if_accepted(answer, Event::Added),
        NodeCall::Check => None,
    }
}

fn event_by(op: ClientCall, answer: Answer) -> Option<Event>
    ensures { result ≡ event_by op (answer_of answer []) }
{
    match op {
        ClientCall::Lock => if_accepted(answer, Event::Locked),
        ClientCall::Settle => if_rebuilt(answer),
        _ => None,
    }
}

fn event_of(call: StepCall, answer: Answer) -> Option<Event>
    ensures { (value : List ℕ) → result ≡ event_of (step_of call value) (answer_of answer []) }
{
    match call {
        StepCall::Swap(_, _) => if_accepted(answer, Event::Swapped),
        StepCall::At(op, _, _) => event_at(op, answer),
        StepCall::By(op, _) => event_by(op, answer),
        _ => None,
    }
}

// The event of any call.
fn event_in(call: Call, answer: Answer) -> Option<Event>
    ensures { (value blocks spare : List ℕ) → result ≡ event_of (call_of call value) (answer_of answer (shown_by sizes call answer blocks spare)) }
{
    match call {
        Call::Step(step) => event_of(step, answer),
        _ => None,
    }
}

// The event of a call and its answer, and the byte that it shows of the tables.
pub fn words_of<'a>(call: Call, answer: Answer, blocks: &'a [u8], spare: &'a [u8]) -> Words
    ensures { (value : List ℕ) →
        Says (call_of call value) (answer_of answer (shown_by sizes call answer blocks.now spare.now)) result.event result.shown }
{
    Words {
        event: event_in(call, answer),
        shown: shown_of(call, answer, blocks, spare),
    }
}
