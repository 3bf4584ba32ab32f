// What a read shows.
ghost use Rattle.std.specs.Prelude.{◌≡◌};
ghost use Rattle.calls.specs.Answers.{shown_part};

use crate::Answer;
use blocks::block_of;
use records::Source;

// The part of a table that an answer names: block i, of blocks of b bytes, of the live table or of the spare; an empty part where it names none. Any
// answer may be handed in, with any tables.
pub fn shown_part<'a>(
    answer: Answer,
    b: usize,
    i: usize,
    blocks: &'a [u8],
    spare: &'a [u8],
) -> &'a [u8]
    ensures { result.now ≡ shown_part answer b i blocks.now spare.now }
{
    match answer {
        Answer::Shown(Source::Live) => block_of(blocks, b, i),
        Answer::Shown(Source::Spare) => block_of(spare, b, i),
        _ => &blocks[..0],
    }
}
