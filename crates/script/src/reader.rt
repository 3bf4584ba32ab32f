// A line of input, read byte by byte: the reader keeps what it needs of the bytes so far, and lines may have any length.
ghost use Rattle.std.proofs.Math.Option.{some};
ghost use Rattle.std.specs.Prelude.{List, [], ◌∷◌, ◌≡◌, true, ℕ, ◌+◌, ◌-◌, ◌*◌, Some};
ghost use Rattle.machine.specs.Calls.{At, By};
ghost use Rattle.calls.specs.Calls.{call_of};
ghost use Rattle.script.specs.Lines.{is_digit, is_shelf_line, shelf_line, with_none, with_one, with_two};
ghost use Rattle.script.specs.Reading.{HasRead, Follows, Finishes, call_in, kept, with_target, Stored, HexByte, HexDigit, clip_digits, clip_number, number_from};

use calls::{Call, StepCall};
use records::{ClientCall, NodeCall};

const SPACE: u8 = b' ';

// The call of a line, numbers clipped at 255; beside a swap or a failure the count of the value's bytes, else 0.
#[derive(Clone, Copy)]
pub struct Line {
    pub call: Call,
    pub count: usize,
}

// The field of a number, so far. It is clipped at a million, which is more than any number that a program has use for.
#[derive(Clone, Copy)]
pub enum Number {
    Empty,
    Digits(u32),
    Bad,
}

// The field of a value, so far: whole bytes, or a first digit besides.
#[derive(Clone, Copy)]
pub enum Hex {
    Whole,
    Half(u8),
    Bad,
}

// The call whose value is read.
#[derive(Clone, Copy)]
pub enum Target {
    Fail(u8),
    Swap(u8, u8),
}

// A line so far, by the field that it has come to, with the letter, the numbers before, and how many bytes of the value there are.
#[derive(Clone, Copy)]
pub enum LineReader {
    Unreadable,
    Start,
    Letter(u8),
    First(u8, Number),
    Second(u8, u8, Number),
    Value(Target, Hex, usize),
}

// The line as shelfrun has it, where a call that only striperun knows is unreadable.
pub fn in_shelfrun(line: Option<Line>) -> Option<Line>
    ensures { (value : List ℕ) → call_in result value ≡ shelf_line (call_in line value) }
{
    let line = line?;
    if is_shelf_line(line.call) {
        Some(line)
    } else {
        None
    }
}

// Whether shelfrun has a line for the call.
fn is_shelf_line(call: Call) -> bool
    ensures { (value : List ℕ) → result ≡ is_shelf_line (call_of call value) }
{
    !matches!(call, Call::Step(StepCall::Due(_) | StepCall::Tick))
}

impl LineReader {
    pub fn new() -> LineReader
        ensures { (value : List ℕ) → HasRead [] result value }
    {
        LineReader::Start
    }

    // The next byte of the line; the value's bytes go to the buffer, as far as it has room.
    pub fn step(self, byte: u8, value: &mut [u8]) -> LineReader
        ensures { Follows self value.old byte result value.new }
    {
        match self {
            LineReader::Unreadable => LineReader::Unreadable,
            LineReader::Start => {
                if byte == SPACE {
                    LineReader::Unreadable
                } else {
                    LineReader::Letter(byte)
                }
            }
            LineReader::Letter(letter) => {
                if byte == SPACE {
                    LineReader::First(letter, Number::Empty)
                } else {
                    LineReader::Unreadable
                }
            }
            LineReader::First(letter, first) => first_step(letter, first, byte),
            LineReader::Second(letter, first, second) => second_step(letter, first, second, byte),
            LineReader::Value(target, hex, count) => value_step(target, hex, count, byte, value),
        }
    }

    // The line's end; None if the line is unreadable.
    pub fn finish(self) -> Option<Line>
        ensures { Finishes self result }
    {
        match self {
            LineReader::Unreadable | LineReader::Start => None,
            LineReader::Letter(letter) => with_none(letter),
            LineReader::First(letter, first) => match first {
                Number::Digits(c) => with_one(letter, narrow(c)),
                Number::Empty | Number::Bad => None,
            },
            LineReader::Second(letter, first, second) => match second {
                Number::Digits(j) => with_two(letter, first, narrow(j)),
                Number::Empty | Number::Bad => None,
            },
            LineReader::Value(target, hex, count) => match hex {
                Hex::Whole => Some(with_value(target, count)),
                Hex::Half(_) | Hex::Bad => None,
            },
        }
    }
}

// A call that is given no bytes.
fn alone(call: Call) -> Option<Line>
    ensures { (value : List ℕ) → call_in result value ≡ some (call_of call []) }
{
    Some(Line { call, count: 0 })
}

// A client's call that names nothing else, and one at a node.
fn by(op: ClientCall, c: u8) -> Option<Line>
    ensures { (value : List ℕ) → call_in result value ≡ some (By op c) }
{
    alone(Call::Step(StepCall::By(op, c)))
}

fn at(op: NodeCall, c: u8, j: u8) -> Option<Line>
    ensures { (value : List ℕ) → call_in result value ≡ some (At op c j) }
{
    alone(Call::Step(StepCall::At(op, c, j)))
}

// The calls by their letters: of no number, of one, of two, of a value.
fn with_none(letter: u8) -> Option<Line>
    ensures { (value : List ℕ) → call_in result value ≡ with_none letter }
{
    match letter {
        b'K' => alone(Call::Step(StepCall::Tick)),
        _ => None,
    }
}

fn with_one(letter: u8, c: u8) -> Option<Line>
    ensures { (value : List ℕ) → call_in result value ≡ with_one letter (some c) }
{
    match letter {
        b'D' => by(ClientCall::Drop, c),
        b'G' => by(ClientCall::Sweep, c),
        b'R' => alone(Call::Read(c)),
        b'L' => by(ClientCall::Lock, c),
        b'P' => alone(Call::Pick(c)),
        b'O' => by(ClientCall::Weaken, c),
        b'I' => by(ClientCall::Tighten, c),
        b'W' => by(ClientCall::Write, c),
        b'T' => by(ClientCall::Settle, c),
        b'U' => by(ClientCall::Unlock, c),
        b'Q' => by(ClientCall::Quit, c),
        b'C' => by(ClientCall::Stop, c),
        b'Z' => alone(Call::Step(StepCall::Due(c))),
        _ => None,
    }
}

fn with_two(letter: u8, c: u8, j: u8) -> Option<Line>
    ensures { (value : List ℕ) → call_in result value ≡ with_two letter (some c) (some j) }
{
    match letter {
        b'A' => at(NodeCall::Add, c, j),
        b'H' => at(NodeCall::Check, c, j),
        _ => None,
    }
}

fn with_value(target: Target, count: usize) -> Line
    ensures { (value : List ℕ) → call_in (Some result) value ≡ with_target target (some (kept count value)) }
{
    let step = match target {
        Target::Fail(j) => StepCall::Fail(j),
        Target::Swap(c, i) => StepCall::Swap(c, i),
    };
    Line {
        call: Call::Step(step),
        count,
    }
}

pub fn is_digit(byte: u8) -> bool
    ensures { result ≡ is_digit byte }
{
    byte.is_ascii_digit()
}

// The number with one byte more.
pub fn extended(number: Number, byte: u8) -> Number
    ensures { (l : List ℕ) → number_from result l ≡ number_from number (byte ∷ l) }
{
    if is_digit(byte) {
        match number {
            Number::Empty => Number::Digits(grown(0, byte)),
            Number::Digits(n) => Number::Digits(grown(n, byte)),
            Number::Bad => Number::Bad,
        }
    } else {
        Number::Bad
    }
}

// The number with one digit more, clipped.
fn grown(n: u32, digit: u8) -> u32
    requires { is_digit digit ≡ true }
    ensures { result ≡ clip_digits (n * 10 + (digit - 48)) }
{
    let next = n as u64 * 10 + (digit - b'0') as u64;
    if next < 1_000_000 {
        next as u32
    } else {
        1_000_000
    }
}

// The number of a client, a position or a node, clipped.
pub fn narrow(n: u32) -> u8
    ensures { result ≡ clip_number n }
{
    if n < 255 { n as u8 } else { 255 }
}

fn first_step(letter: u8, first: Number, byte: u8) -> LineReader
    ensures { (value : List ℕ) → Follows (LineReader.First letter first) value byte result value }
{
    if byte != SPACE {
        return LineReader::First(letter, extended(first, byte));
    }
    match first {
        Number::Digits(n) => {
            if letter == b'N' {
                LineReader::Value(Target::Fail(narrow(n)), Hex::Whole, 0)
            } else {
                LineReader::Second(letter, narrow(n), Number::Empty)
            }
        }
        Number::Empty | Number::Bad => LineReader::Unreadable,
    }
}

fn second_step(letter: u8, first: u8, second: Number, byte: u8) -> LineReader
    ensures { (value : List ℕ) → Follows (LineReader.Second letter first second) value byte result value }
{
    if byte != SPACE {
        return LineReader::Second(letter, first, extended(second, byte));
    }
    match second {
        Number::Digits(n) => {
            if letter == b'S' {
                LineReader::Value(Target::Swap(first, narrow(n)), Hex::Whole, 0)
            } else {
                LineReader::Unreadable
            }
        }
        Number::Empty | Number::Bad => LineReader::Unreadable,
    }
}

fn value_step(target: Target, hex: Hex, count: usize, byte: u8, value: &mut [u8]) -> LineReader
    ensures { Follows (LineReader.Value target hex count) value.old byte result value.new }
{
    if byte == SPACE {
        return LineReader::Unreadable;
    }
    match hex {
        Hex::Whole => LineReader::Value(target, Hex::Half(byte), count),
        Hex::Bad => LineReader::Value(target, Hex::Bad, count),
        Hex::Half(first) => match hex_byte(first, byte) {
            Some(next) => LineReader::Value(target, Hex::Whole, store(value, count, next)),
            None => LineReader::Value(target, Hex::Bad, count),
        },
    }
}

// The byte of two hexadecimal digits.
fn hex_byte(first: u8, second: u8) -> Option<u8>
    ensures { HexByte first second result }
{
    Some(hex_digit(first)? * 16 + hex_digit(second)?)
}

// The value of a hexadecimal digit, a capital.
#[tactic(auto, unfolding(crate::specs::Lines::hex_digit))]
fn hex_digit(byte: u8) -> Option<u8>
    ensures { HexDigit byte result }
{
    match byte {
        b'0'..=b'9' => Some(byte - b'0'),
        b'A'..=b'F' => Some(byte - b'A' + 10),
        _ => None,
    }
}

// One byte more of the value, as far as there is room; the count of its bytes, or one more than there is room for.
fn store(value: &mut [u8], count: usize, byte: u8) -> usize
    ensures { Stored value.old count byte value.new result }
{
    if count < value.len() {
        value[count] = byte;
        count + 1
    } else {
        value.len() + 1
    }
}
