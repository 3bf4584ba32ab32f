// A line of input, read byte by byte: what follows a stripe's number is read as striperun's lines are.
ghost use Rattle.std.specs.Prelude.{List, [], ◌∷◌, ◌≡◌, ℕ};
ghost use Rattle.calls.specs.Calls.{call_of};
ghost use Rattle.script.specs.Reading.{call_in, number_from};
ghost use Rattle.volume.specs.Volume.{is_of_each};
ghost use Rattle.volumescript.specs.Lines.{of_each, of_one};
ghost use Rattle.volumescript.specs.Reading.{Finishes, Follows, HasRead, after_number, line_told, with_bytes};

use calls::{Call, StepCall};
use records::ClientCall;
use script::reader::{Hex, Line, LineReader, Number, Target, extended, is_digit, narrow};

const SPACE: u8 = b' ';

// A line: a call of one stripe, a call of every stripe, a block that is read or swapped, a stripe that is shown. Numbers are clipped; beside a swap or a
// failure is the count of the value's bytes, else 0.
#[derive(Clone, Copy)]
pub enum VolumeLine {
    Unreadable,
    One(usize, Call, usize),
    Each(Call, usize),
    ReadBlock(usize),
    SwapBlock(u8, usize, usize),
    Show(usize),
}

// The words that a number follows: `?`, `RB`, `SB`.
#[derive(Clone, Copy)]
pub enum Word {
    Show,
    Read,
    Swap,
}

// A line so far, by the field that it has come to: a word's first letter, a word; the number of a stripe, that after a word, that of a block after a
// client's; the call of a stripe, that of every stripe, the value of a swap.
#[derive(Clone, Copy)]
pub enum VolumeReader {
    Unreadable,
    Start,
    Letter(u8),
    Word(Word),
    Stripe(Number),
    First(Word, Number),
    Block(u8, Number),
    One(usize, LineReader),
    Each(LineReader),
    Value(u8, usize, LineReader),
}

impl VolumeReader {
    pub fn new() -> VolumeReader
        ensures { (value : List ℕ) → HasRead [] result value }
    {
        VolumeReader::Start
    }

    // The next byte of the line; the value's bytes go to the buffer, as far as it has room.
    pub fn step(self, byte: u8, value: &mut [u8]) -> VolumeReader
        ensures { Follows self value.old byte result value.new }
    {
        match self {
            VolumeReader::Unreadable => VolumeReader::Unreadable,
            VolumeReader::Start => start_step(byte),
            VolumeReader::Letter(letter) => letter_step(letter, byte),
            VolumeReader::Word(word) => {
                if byte == SPACE {
                    VolumeReader::First(word, Number::Empty)
                } else {
                    VolumeReader::Unreadable
                }
            }
            VolumeReader::Stripe(number) => stripe_step(number, byte),
            VolumeReader::First(word, number) => first_step(word, number, byte),
            VolumeReader::Block(c, number) => block_step(c, number, byte),
            VolumeReader::One(s, line) => VolumeReader::One(s, line.step(byte, value)),
            VolumeReader::Each(line) => VolumeReader::Each(line.step(byte, value)),
            VolumeReader::Value(c, b, line) => VolumeReader::Value(c, b, line.step(byte, value)),
        }
    }

    // The line's end.
    pub fn finish(self) -> VolumeLine
        ensures { Finishes self result }
    {
        match self {
            VolumeReader::Unreadable
            | VolumeReader::Start
            | VolumeReader::Letter(_)
            | VolumeReader::Word(_)
            | VolumeReader::Stripe(_)
            | VolumeReader::Block(_, _) => VolumeLine::Unreadable,
            VolumeReader::First(word, number) => with_number(word, number),
            VolumeReader::One(s, line) => one(s, line.finish()),
            VolumeReader::Each(line) => each(line.finish()),
            VolumeReader::Value(c, b, line) => swap(c, b, line.finish()),
        }
    }
}

fn start_step(byte: u8) -> VolumeReader
    ensures { (value : List ℕ) → Follows (VolumeReader.Start) value byte result value }
{
    if byte == SPACE {
        return VolumeReader::Unreadable;
    }
    if is_digit(byte) {
        return VolumeReader::Stripe(extended(Number::Empty, byte));
    }
    VolumeReader::Letter(byte)
}

// A word of one letter, or of two.
fn letter_step(letter: u8, byte: u8) -> VolumeReader
    ensures { (value : List ℕ) → Follows (VolumeReader.Letter letter) value byte result value }
{
    match byte {
        SPACE => after_mark(letter),
        b'B' => with_block(letter),
        b'C' => with_card(letter),
        _ => VolumeReader::Unreadable,
    }
}

fn after_mark(letter: u8) -> VolumeReader
    ensures { (value : List ℕ) → Follows (VolumeReader.Letter letter) value 32 result value }
{
    if letter == b'?' {
        VolumeReader::First(Word::Show, Number::Empty)
    } else {
        VolumeReader::Unreadable
    }
}

fn with_block(letter: u8) -> VolumeReader
    ensures { (value : List ℕ) → Follows (VolumeReader.Letter letter) value 66 result value }
{
    match letter {
        b'R' => VolumeReader::Word(Word::Read),
        b'S' => VolumeReader::Word(Word::Swap),
        _ => VolumeReader::Unreadable,
    }
}

// `CC` and `NC` go on as `C` and `N` do in striperun.
fn with_card(letter: u8) -> VolumeReader
    ensures { (value : List ℕ) → Follows (VolumeReader.Letter letter) value 67 result value }
{
    match letter {
        b'C' => VolumeReader::Each(LineReader::Letter(b'C')),
        b'N' => VolumeReader::Each(LineReader::Letter(b'N')),
        _ => VolumeReader::Unreadable,
    }
}

fn stripe_step(number: Number, byte: u8) -> VolumeReader
    ensures { (value : List ℕ) → Follows (VolumeReader.Stripe number) value byte result value }
{
    if byte != SPACE {
        return VolumeReader::Stripe(extended(number, byte));
    }
    match number {
        Number::Digits(s) => VolumeReader::One(s as usize, LineReader::Start),
        Number::Empty | Number::Bad => VolumeReader::Unreadable,
    }
}

fn first_step(word: Word, number: Number, byte: u8) -> VolumeReader
    ensures { (value : List ℕ) → Follows (VolumeReader.First word number) value byte result value }
{
    if byte != SPACE {
        return VolumeReader::First(word, extended(number, byte));
    }
    match word {
        Word::Show | Word::Read => VolumeReader::Unreadable,
        Word::Swap => match number {
            Number::Digits(c) => VolumeReader::Block(narrow(c), Number::Empty),
            Number::Empty | Number::Bad => VolumeReader::Unreadable,
        },
    }
}

// A swap's value is read as that of a swap in striperun.
fn block_step(c: u8, number: Number, byte: u8) -> VolumeReader
    ensures { (value : List ℕ) → Follows (VolumeReader.Block c number) value byte result value }
{
    if byte != SPACE {
        return VolumeReader::Block(c, extended(number, byte));
    }
    match number {
        Number::Digits(b) => {
            let line = LineReader::Value(Target::Swap(c, 0), Hex::Whole, 0);
            VolumeReader::Value(c, b as usize, line)
        }
        Number::Empty | Number::Bad => VolumeReader::Unreadable,
    }
}

fn with_number(word: Word, number: Number) -> VolumeLine
    ensures { (value : List ℕ) (room : ℕ) → line_told result value ≡ after_number room word (number_from number []) [] }
{
    match number {
        Number::Digits(n) => match word {
            Word::Show => VolumeLine::Show(n as usize),
            Word::Read => VolumeLine::ReadBlock(n as usize),
            Word::Swap => VolumeLine::Unreadable,
        },
        Number::Empty | Number::Bad => VolumeLine::Unreadable,
    }
}

// Whether a call is one of every stripe.
fn is_of_each(call: Call) -> bool
    ensures { (value : List ℕ) → result ≡ is_of_each (call_of call value) }
{
    matches!(
        call,
        Call::Step(StepCall::Fail(_) | StepCall::By(ClientCall::Stop, _))
    )
}

// A call of stripe s; those of every stripe have words of their own.
fn one(s: usize, line: Option<Line>) -> VolumeLine
    ensures { (value : List ℕ) → line_told result value ≡ of_one s (call_in line value) }
{
    let Some(Line { call, count }) = line else {
        return VolumeLine::Unreadable;
    };
    if is_of_each(call) {
        VolumeLine::Unreadable
    } else {
        VolumeLine::One(s, call, count)
    }
}

fn each(line: Option<Line>) -> VolumeLine
    ensures { (value : List ℕ) → line_told result value ≡ of_each (call_in line value) }
{
    match line {
        Some(Line { call, count }) => VolumeLine::Each(call, count),
        None => VolumeLine::Unreadable,
    }
}

fn swap(c: u8, b: usize, line: Option<Line>) -> VolumeLine
    ensures { (value : List ℕ) → line_told result value ≡ with_bytes c b (call_in line value) }
{
    match line {
        Some(
            Line {
                call: Call::Step(StepCall::Swap(_, _)),
                count,
            },
        ) => VolumeLine::SwapBlock(c, b, count),
        _ => VolumeLine::Unreadable,
    }
}
