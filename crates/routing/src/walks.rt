// A call on its way over the stripes.
ghost use Rattle.std.specs.Prelude.{◌≡◌};
ghost use Rattle.tables.specs.Parts.{part_from, part_to, table_blocks, table_differences};
ghost use Rattle.volume.specs.Volume.{is_stop};
ghost use Rattle.routing.specs.Walks.{at_stripe, is_failure_call, is_of_each_call, is_place_of, is_stop_call, may_stop, pick_request_of, step_for, step_request_of, stripes_of};
ghost use Rattle.routing.specs.Walks.{stopping_of, tested, value_fits, value_fits_step, value_from, value_to, walk_fits};

use crate::{Request, VolumeCall};
use calls::StepCall;
use limits::at_node::is_client_within;
use records::{ClientCall, ClientRecord, NodeRecord, Refusal};
use std::ops::Range;
use tables::{part, table_blocks, table_differences};

fn is_stop_by(op: ClientCall) -> bool
    ensures { result ≡ is_stop op }
{
    matches!(op, ClientCall::Stop)
}

fn value_fits_step(call: StepCall, block: usize, card: usize, len: usize) -> bool
    ensures { result ≡ value_fits_step call block card len }
{
    match call {
        StepCall::Swap(_, _) => len == block,
        StepCall::Fail(_) => len == card,
        _ => true,
    }
}

// A card's failure is that of the node on it.
fn step_for(call: StepCall, n: usize, s: usize) -> StepCall
    ensures { result ≡ step_for call n s }
{
    match call {
        StepCall::Fail(card) => StepCall::Fail(layout::node_on(n, s, card)),
        _ => call,
    }
}

// Whether place i of a table of clients, m for each stripe, is client c's.
fn is_place_of(m: usize, c: u8, i: usize) -> bool
    ensures { result ≡ is_place_of m c i }
{
    m != 0 && i % m + 1 == c as usize
}

impl VolumeCall {
    fn is_stop(self) -> bool
        ensures { result ≡ is_stop_call self }
    {
        match self {
            VolumeCall::Step(StepCall::By(op, _)) => is_stop_by(op),
            _ => false,
        }
    }

    fn is_failure(self) -> bool
        ensures { result ≡ is_failure_call self }
    {
        matches!(self, VolumeCall::Step(StepCall::Fail(_)))
    }

    // Whether it is a call on every stripe.
    pub fn is_of_each(self) -> bool
        ensures { result ≡ is_of_each_call self }
    {
        self.is_failure() || self.is_stop()
    }

    // Whether it is given as many bytes as it takes: those of a block for a swap, those of a block of each stripe for a card's failure.
    fn value_fits(self, block: usize, card: usize, len: usize) -> bool
        ensures { result ≡ value_fits self block card len }
    {
        match self {
            VolumeCall::Pick(_) => true,
            VolumeCall::Step(call) => value_fits_step(call, block, card, len),
        }
    }

    // The client that stops.
    fn stopping(self) -> u8
        ensures { result ≡ stopping_of self }
    {
        match self {
            VolumeCall::Pick(c) => c,
            VolumeCall::Step(call) => call.caller(),
        }
    }
}

impl Request {
    // Whether the volume is within the limits, and the tables and the bytes given have their lengths.
    fn fits(
        self,
        nodes: usize,
        clients: usize,
        blocks: usize,
        spare: usize,
        differences: usize,
        value: usize,
    ) -> bool
        ensures { result ≡ walk_fits self nodes clients blocks spare differences value }
    {
        let volume = self.volume;
        let lengths = volume.lengths();
        volume.within()
            && (nodes == lengths.nodes
                && (clients == lengths.clients
                    && (blocks == lengths.blocks
                        && (spare == lengths.blocks
                            && (differences == lengths.differences
                                && self.call.value_fits(volume.z.b, lengths.value, value))))))
    }

    // Whether the records that a stop tests are within the limits: every node's, and the client's in every stripe.
    fn may_stop(self, nodes: &[NodeRecord], clients: &[ClientRecord]) -> bool
        ensures { result ≡ may_stop self nodes.now clients.now }
    {
        let z = self.volume.z;
        let c = self.call.stopping();
        nodes.iter().all(|node| node.is_within(z))
            && clients.iter().enumerate().all(|(i, client)| !is_place_of(z.m, c, i)
                || is_client_within(z, *client))
    }

    // The volume's own tests: its limits, the lengths and, before a stop, the records; then the stripe.
    pub fn test(
        self,
        nodes: &[NodeRecord],
        clients: &[ClientRecord],
        blocks: usize,
        spare: usize,
        differences: usize,
        value: usize,
    ) -> Result<(), Refusal>
        ensures { result ≡ tested self nodes.now clients.now blocks spare differences value }
    {
        let volume = self.volume;
        if !self.fits(
            nodes.len(),
            clients.len(),
            blocks,
            spare,
            differences,
            value,
        ) {
            return Err(Refusal::OutOfLimits);
        }
        if self.call.is_stop() && !self.may_stop(nodes, clients) {
            return Err(Refusal::OutOfLimits);
        }
        if !self.call.is_of_each() && volume.stripes <= self.stripe {
            return Err(Refusal::OutOfRange);
        }
        Ok(())
    }

    // How many stripes a call on every stripe goes to, and the call on one of them.
    pub fn stripes(self) -> usize
        ensures { result ≡ stripes_of self }
    {
        self.volume.stripes
    }

    pub fn at(self, stripe: usize) -> Self
        ensures { result ≡ at_stripe self stripe }
    {
        Request { stripe, ..self }
    }

    // ---- the stripe's own part of each table

    pub fn nodes_part(self, len: usize) -> Range<usize>
        ensures start { result.start ≡ part_from self.stripe self.volume.z.n len }
        ensures end { result.end ≡ part_to self.stripe self.volume.z.n len }
    {
        part(self.stripe, self.volume.z.n, len)
    }

    pub fn clients_part(self, len: usize) -> Range<usize>
        ensures start { result.start ≡ part_from self.stripe self.volume.z.m len }
        ensures end { result.end ≡ part_to self.stripe self.volume.z.m len }
    {
        part(self.stripe, self.volume.z.m, len)
    }

    pub fn blocks_part(self, len: usize) -> Range<usize>
        ensures start { result.start ≡ part_from self.stripe (table_blocks self.volume.z) len }
        ensures end { result.end ≡ part_to self.stripe (table_blocks self.volume.z) len }
    {
        part(self.stripe, table_blocks(self.volume.z), len)
    }

    pub fn differences_part(self, len: usize) -> Range<usize>
        ensures start { result.start ≡ part_from self.stripe (table_differences self.volume.z) len }
        ensures end { result.end ≡ part_to self.stripe (table_differences self.volume.z) len }
    {
        part(self.stripe, table_differences(self.volume.z), len)
    }

    // A card's failure has bytes for each stripe, in stripe order.
    pub fn value_part(self, len: usize) -> Range<usize>
        ensures start { result.start ≡ value_from self len }
        ensures end { result.end ≡ value_to self len }
    {
        if self.call.is_failure() {
            part(self.stripe, self.volume.z.b, len)
        } else {
            0..len
        }
    }

    // ---- what shelf is asked, on these

    pub fn pick(self, c: u8) -> taking::PickRequest
        ensures { result ≡ pick_request_of self c }
    {
        taking::PickRequest {
            z: self.volume.z,
            c,
        }
    }

    pub fn step(self, call: StepCall) -> taking::Request
        ensures { result ≡ step_request_of self call }
    {
        let z = self.volume.z;
        taking::Request {
            z,
            call: step_for(call, z.n, self.stripe),
        }
    }
}
