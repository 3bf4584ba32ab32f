// A volume's tables, and the parts of its stripes.
ghost use Rattle.std.specs.Prelude.{cond, ◌&&◌, ◌≡◌, ◌*◌, ◌≤◌, leb, length};
ghost use Rattle.parts.specs.Inside.{part_in};
ghost use Rattle.records.specs.Sizes.{block_limit};
ghost use Rattle.tables.specs.Parts.{part_from, part_of, part_to, table_blocks, table_differences, lengths_of, volume_within};
ghost use Rattle.tables.specs.Renewals.{fresh_fits, Renews};

use crate::{Lengths, Volume};
use blocks::clear;
use code::Limits;
use records::{ClientRecord, NodeRecord, Refusal, Sizes};
use std::ops::Range;

// How many bytes a table of blocks of the largest stripe has.
const PART_MOST: usize = Sizes::NODES * Limits::BLOCK_MOST;

// How many stripes a volume has at most.
pub const STRIPES_MOST: usize = 1024;

// The part of stripe s in a table of `len` with `each` elements for a stripe; an empty one if it is not all there.
pub fn part(s: usize, each: usize, len: usize) -> Range<usize>
    ensures start { result.start ≡ part_from s each len }
    ensures end { result.end ≡ part_to s each len }
{
    if PART_MOST < each || STRIPES_MOST <= s {
        return 0..0;
    }
    let first = s * each;
    let end = first + each;
    if end <= len { first..end } else { 0..0 }
}

// The part of stripe s of a table with so many elements for each; an empty one if it is not all there.
pub fn stripe_part<T>(table: &[T], s: usize, each: usize) -> &[T]
    ensures { result.now ≡ part_in (part_of s each (length table.now)) table.now }
{
    let own = part(s, each, table.len());
    &table[own.start..own.end]
}

// The bytes of so many blocks; 0 if they are more than `most`, or the blocks too large.
fn bytes_of(count: usize, most: usize, b: usize) -> usize
    requires { most ≤ 18 }
    ensures { result ≡ cond (leb count most && leb b block_limit) (count * b) 0 }
{
    if count <= most && b <= Limits::BLOCK_MOST {
        count * b
    } else {
        0
    }
}

// The bytes of a stripe's blocks, and of its clients' differences; 0 if the sizes are too large for a stripe.
pub fn table_blocks(z: Sizes) -> usize
    ensures { result ≡ table_blocks z }
{
    bytes_of(z.n, Sizes::NODES, z.b)
}

pub fn table_differences(z: Sizes) -> usize
    ensures { result ≡ table_differences z }
{
    bytes_of(z.m, Sizes::CLIENTS, z.b)
}

impl Volume {
    // Whether the number of stripes and the sizes are within the limits.
    #[tactic(auto, unfolding(crate::specs::Parts::volume_within))]
    pub fn within(self) -> bool
        ensures { result ≡ volume_within self }
    {
        1 <= self.stripes && self.stripes <= STRIPES_MOST && self.z.within()
    }

    // The lengths of its tables, if it is within the limits.
    pub fn lengths(self) -> Lengths
        ensures { result ≡ lengths_of self }
    {
        let z = self.z;
        if !self.within() {
            return Lengths {
                nodes: 0,
                clients: 0,
                blocks: 0,
                differences: 0,
                value: 0,
            };
        }
        Lengths {
            nodes: self.stripes * z.n,
            clients: self.stripes * z.m,
            blocks: self.stripes * table_blocks(z),
            differences: self.stripes * table_differences(z),
            value: self.stripes * z.b,
        }
    }

    // Whether tables that are to be made fresh have its lengths.
    fn fits_fresh(self, nodes: usize, clients: usize, blocks: usize) -> bool
        ensures { result ≡ fresh_fits self nodes clients blocks }
    {
        let lengths = self.lengths();
        self.within()
            && (nodes == lengths.nodes && (clients == lengths.clients && blocks == lengths.blocks))
    }

    // Every record fresh, every block zero; or refused, with the tables as they were.
    pub fn renew(
        self,
        nodes: &mut [NodeRecord],
        clients: &mut [ClientRecord],
        blocks: &mut [u8],
    ) -> Result<(), Refusal>
        ensures { Renews self nodes.old clients.old blocks.old result nodes.new clients.new blocks.new }
    {
        if !self.fits_fresh(nodes.len(), clients.len(), blocks.len()) {
            return Err(Refusal::OutOfLimits);
        }
        nodes.fill(NodeRecord::fresh());
        clients.fill(ClientRecord::fresh());
        clear(blocks);
        Ok(())
    }
}
