// A line of output: the line's number, an event, the answer's number, and the byte that was read.
ghost use Rattle.std.specs.Prelude.{◌≡◌, ◌+◌, ◌≤◌, ◌<◌, length};
ghost use Rattle.script.specs.Lines.{decimal, ended, hex_of, printed, shown_text, spaced, word};
ghost use Rattle.script.specs.Writing.{Put};

// The longest line has 53 bytes: numbers of 20 digits, an event of 7 letters, a byte, three spaces and the end of the line.

#[derive(Clone, Copy)]
pub enum Event {
    Swapped,
    Added,
    Locked,
    Rebuilt,
}

// The line's bytes at the start of out, and how many they are.
pub fn put_answer(
    out: &mut [u8],
    number: u64,
    event: Option<Event>,
    answer: u8,
    shown: Option<u8>,
) -> usize
    requires { 64 ≤ length out.old }
    ensures { Put out.old 0 (printed number event answer (shown_text shown)) out.new result }
{
    let event_at = put_number(out, 0, number);
    let answer_at = put_event(out, event_at, event);
    let shown_at = put_number(out, answer_at, answer as u64);
    put_shown(out, shown_at, shown)
}

// The text at the place at; what stands before it stays. The place after it.
fn put(out: &mut [u8], at: usize, text: &[u8]) -> usize
    requires { at + length text.now ≤ length out.old }
    ensures { Put out.old at text.now out.new result }
{
    let end = at + text.len();
    out[at..end].copy_from_slice(text);
    end
}

// A number and a space.
fn put_number(out: &mut [u8], at: usize, n: u64) -> usize
    requires { at + 21 ≤ length out.old }
    ensures { Put out.old at (spaced (decimal n)) out.new result }
{
    let mut digits = [0u8; 20];
    let k = io::decimal(n, &mut digits);
    let end = put(out, at, &digits[..k]);
    put(out, end, b" ")
}

// An event and a space.
fn put_event(out: &mut [u8], at: usize, event: Option<Event>) -> usize
    requires { at + 8 ≤ length out.old }
    ensures { Put out.old at (spaced (word event)) out.new result }
{
    match event {
        Some(Event::Swapped) => put(out, at, b"swapped "),
        Some(Event::Added) => put(out, at, b"added "),
        Some(Event::Locked) => put(out, at, b"locked "),
        Some(Event::Rebuilt) => put(out, at, b"rebuilt "),
        None => put(out, at, b"- "),
    }
}

// What is shown, and the end of the line.
fn put_shown(out: &mut [u8], at: usize, shown: Option<u8>) -> usize
    requires { at + 3 ≤ length out.old }
    ensures { Put out.old at (ended (shown_text shown)) out.new result }
{
    match shown {
        None => put(out, at, b"-\n"),
        Some(b) => {
            let text = [hex(b / 16), hex(b % 16), b'\n'];
            put(out, at, &text)
        }
    }
}

// A hexadecimal digit, a capital.
fn hex(digit: u8) -> u8
    requires { digit < 16 }
    ensures { result ≡ hex_of digit }
{
    if digit <= 9 { b'0' + digit } else { 55 + digit }
}
