// The line of sizes, read byte by byte: numbers of any length, one space apart. Five are the sizes of a stripe; a volume has their number before them.
ghost use Rattle.std.specs.Prelude.{◌<◌};

use records::Sizes;

const SPACE: u8 = b' ';

// The numbers so far, clipped; the field that the line has come to, and whether it is empty.
#[derive(Clone, Copy, Drop)]
struct Numbers {
    items: [usize; 6],
    field: usize,
    is_empty: bool,
    ghost in_range: { field < 6 },
}

// What was read of the line; None if it is unreadable.
#[derive(Clone, Copy, Drop)]
pub struct SizesReader(Option<Numbers>);

// The number with one digit more; 10,000 for any that is larger than all sizes.
fn grown(n: usize, digit: u8) -> usize {
    if n < 1000 {
        n * 10 + digit as usize
    } else {
        10000
    }
}

impl Numbers {
    fn after_space(mut self) -> Option<Self> {
        if self.is_empty || self.field == 5 {
            return None;
        }
        self.field += 1;
        self.is_empty = true;
        Some(self)
    }

    fn after_digit(mut self, digit: u8) -> Self {
        let at = self.field;
        self.items[at] = grown(self.items[at], digit);
        self.is_empty = false;
        self
    }

    // The line with one byte more.
    fn step(self, byte: u8) -> Option<Self> {
        match byte {
            SPACE => self.after_space(),
            b'0'..=b'9' => Some(self.after_digit(byte - b'0')),
            _ => None,
        }
    }
}

impl SizesReader {
    pub fn new() -> Self {
        SizesReader(Some(Numbers {
            items: [0; 6],
            field: 0,
            is_empty: true,
        }))
    }

    // The next byte of the line.
    pub fn step(self, byte: u8) -> Self {
        SizesReader(self.0.and_then(|numbers| numbers.step(byte)))
    }

    // The numbers of the line that ends here, if it has so many and nothing else.
    fn numbers(self, count: usize) -> Option<[usize; 6]> {
        let Numbers {
            items,
            field,
            is_empty,
        } = self.0?;
        if is_empty || field + 1 != count {
            return None;
        }
        Some(items)
    }

    // The sizes of a stripe.
    pub fn finish(self) -> Option<Sizes> {
        let [k, n, b, failures, m, _] = self.numbers(5)?;
        Some(Sizes {
            k,
            n,
            b,
            failures,
            m,
        })
    }

    // The number of stripes of a volume, and their sizes.
    pub fn finish_volume(self) -> Option<(usize, Sizes)> {
        let [stripes, k, n, b, failures, m] = self.numbers(6)?;
        let z = Sizes {
            k,
            n,
            b,
            failures,
            m,
        };
        Some((stripes, z))
    }
}
