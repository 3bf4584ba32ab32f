// A read on its way to its stripe, and the part that its answer names.
ghost use Rattle.std.specs.Prelude.{◌≡◌, length};
ghost use Rattle.parts.specs.Inside.{part_in};
ghost use Rattle.tables.specs.Parts.{part_of};
ghost use Rattle.routing.specs.Walks.{read_fits, read_request_of, read_tested, shown_of, sized_of};

use crate::{ReadRequest, SizedRead};
use calls::{Answer, shown_part};
use records::{ClientRecord, NodeRecord, Refusal};
use tables::{stripe_part, table_blocks};

impl ReadRequest {
    pub fn sized(self, blocks: usize, spare: usize) -> SizedRead
        ensures { result ≡ sized_of self blocks spare }
    {
        SizedRead {
            volume: self.volume,
            stripe: self.stripe,
            i: self.i,
            blocks,
            spare,
        }
    }
}

impl SizedRead {
    // Whether the volume is within the limits, and the tables have their lengths.
    fn fits(self, nodes: usize, clients: usize) -> bool
        ensures { result ≡ read_fits self nodes clients }
    {
        let lengths = self.volume.lengths();
        self.volume.within()
            && (nodes == lengths.nodes
                && (clients == lengths.clients
                    && (self.blocks == lengths.blocks && self.spare == lengths.blocks)))
    }

    // The volume's own tests: its limits and the lengths, then the stripe.
    pub fn test(self, nodes: usize, clients: usize) -> Result<(), Refusal>
        ensures { result ≡ read_tested self nodes clients }
    {
        if !self.fits(nodes, clients) {
            return Err(Refusal::OutOfLimits);
        }
        if self.volume.stripes <= self.stripe {
            return Err(Refusal::OutOfRange);
        }
        Ok(())
    }

    // ---- the stripe's own part of each table

    pub fn nodes_part<'a>(self, nodes: &'a [NodeRecord]) -> &'a [NodeRecord]
        ensures { result.now ≡ part_in (part_of self.stripe self.volume.z.n (length nodes.now)) nodes.now }
    {
        stripe_part(nodes, self.stripe, self.volume.z.n)
    }

    pub fn clients_part<'a>(self, clients: &'a [ClientRecord]) -> &'a [ClientRecord]
        ensures { result.now ≡ part_in (part_of self.stripe self.volume.z.m (length clients.now)) clients.now }
    {
        stripe_part(clients, self.stripe, self.volume.z.m)
    }

    // What shelf is asked, on these.
    pub fn inner(self) -> taking::SizedRead
        ensures { result ≡ read_request_of self }
    {
        let z = self.volume.z;
        let each = table_blocks(z);
        taking::SizedRead {
            z,
            i: self.i,
            blocks: each,
            spare: each,
        }
    }

    // The block that an answer names, in the stripe's own part of each table.
    pub fn part<'a>(self, answer: Answer, blocks: &'a [u8], spare: &'a [u8]) -> &'a [u8]
        ensures { result.now ≡ shown_of self answer blocks.now spare.now }
    {
        let z = self.volume.z;
        let each = table_blocks(z);
        let live = stripe_part(blocks, self.stripe, each);
        let kept = stripe_part(spare, self.stripe, each);
        shown_part(answer, z.b, self.i as usize, live, kept)
    }
}
