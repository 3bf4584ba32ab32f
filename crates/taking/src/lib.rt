// The requests of the entry points on lent tables (crate shelf), and in specs/ what such tables are as a stripe.
#![tactic(auto)]

ghost use Rattle.std.specs.Prelude.{◌≡◌};
ghost use Rattle.calls.specs.Answers.{shown_part};
ghost use Rattle.taking.specs.Reads.{sized_of};

use calls::{Answer, StepCall, shown_part};
use records::Sizes;

// Every call but read and pick. The bytes of a swap or a failure are beside it.
#[derive(Clone, Copy)]
pub struct Request {
    pub z: Sizes,
    pub call: StepCall,
}

// The read of position i.
#[derive(Clone, Copy)]
pub struct ReadRequest {
    pub z: Sizes,
    pub i: u8,
}

// The same, with the lengths of the blocks and the spare.
#[derive(Clone, Copy)]
pub struct SizedRead {
    pub z: Sizes,
    pub i: u8,
    pub blocks: usize,
    pub spare: usize,
}

// The pick of client c.
#[derive(Clone, Copy)]
pub struct PickRequest {
    pub z: Sizes,
    pub c: u8,
}

impl ReadRequest {
    pub fn sized(self, blocks: usize, spare: usize) -> SizedRead
        ensures { result ≡ sized_of self blocks spare }
    {
        let ReadRequest { z, i } = self;
        SizedRead {
            z,
            i,
            blocks,
            spare,
        }
    }
}

impl SizedRead {
    // The block that an answer names.
    pub fn part<'a>(self, answer: Answer, blocks: &'a [u8], spare: &'a [u8]) -> &'a [u8]
        ensures { result.now ≡ shown_part answer self.z.b self.i blocks.now spare.now }
    {
        shown_part(answer, self.z.b, self.i as usize, blocks, spare)
    }
}
