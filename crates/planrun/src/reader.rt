// A line, read byte by byte: n-k, the group sizes joined by dots, and t_p, one space apart; numbers may have any length.
ghost use Rattle.std.specs.Prelude.{◌<◌};

use planning::{PlanRefusal, Planned};

// The fields, in order: n-k, the sizes, t_p.
#[derive(Clone, Copy)]
enum Field {
    Redundant,
    Sizes,
    Stops,
}

// One more than a stripe has groups: of more sizes the others may go.
const SIZES_KEPT: usize = 7;

// What the line has come to: its field, the number there if it has a digit, and n-k and the sizes before that.
#[derive(Clone, Copy)]
pub struct Reader {
    redundant: u8,
    sizes: [u8; SIZES_KEPT],
    count: usize,
    field: Field,
    number: Option<u8>,
    is_unreadable: bool,
    pub is_begun: bool,
}

// The number with one digit more; 100 for all of more than two digits, which are larger than any that is planned for.
fn grown(n: u8, digit: u8) -> u8
    requires { digit < 10 }
{
    if n < 10 { n * 10 + digit } else { 100 }
}

// The plan for the first of the sizes.
fn plan_first(
    redundant: u8,
    sizes: &[u8],
    count: usize,
    stops: u8,
) -> Result<Planned, PlanRefusal> {
    if sizes.len() < count {
        return Err(PlanRefusal::OutOfLimits);
    }
    planning::plan(redundant as usize, &sizes[0..count], stops as usize)
}

impl Reader {
    pub fn new() -> Self {
        let sizes = [0u8; SIZES_KEPT];
        Reader {
            redundant: 0,
            sizes,
            count: 0,
            field: Field::Redundant,
            number: None,
            is_unreadable: false,
            is_begun: false,
        }
    }

    fn spoiled(mut self) -> Self {
        self.is_unreadable = true;
        self
    }

    // One size more.
    fn with_size(mut self, size: u8) -> Self {
        let at = self.count;
        if at < SIZES_KEPT {
            self.sizes[at] = size;
            self.count = at + 1;
        }
        self
    }

    // Another number begins, in that field.
    fn begin(mut self, field: Field) -> Self {
        self.field = field;
        self.number = None;
        self
    }

    fn after_space(mut self) -> Self {
        match (self.field, self.number) {
            (Field::Redundant, Some(redundant)) => {
                self.redundant = redundant;
                self.begin(Field::Sizes)
            }
            (Field::Sizes, Some(size)) => self.with_size(size).begin(Field::Stops),
            _ => self.spoiled(),
        }
    }

    fn after_dot(self) -> Self {
        match (self.field, self.number) {
            (Field::Sizes, Some(size)) => self.with_size(size).begin(Field::Sizes),
            _ => self.spoiled(),
        }
    }

    fn after_digit(mut self, digit: u8) -> Self
        requires { digit < 10 }
    {
        self.number = Some(grown(self.number.unwrap_or(0), digit));
        self
    }

    // The next byte of the line.
    pub fn step(mut self, byte: u8) -> Self {
        self.is_begun = true;
        match byte {
            b' ' => self.after_space(),
            b'.' => self.after_dot(),
            b'0'..=b'9' => self.after_digit(byte - b'0'),
            _ => self.spoiled(),
        }
    }

    // The line ends.
    pub fn answer(self) -> Result<Planned, PlanRefusal> {
        match (self.field, self.number) {
            (Field::Stops, Some(stops)) if !self.is_unreadable => {
                plan_first(self.redundant, &self.sizes, self.count, stops)
            }
            _ => Err(PlanRefusal::OutOfLimits),
        }
    }
}
