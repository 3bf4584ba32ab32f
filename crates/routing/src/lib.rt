// A volume's call on its way to its stripes: the volume's own tests, the stripes that the call goes to, what it is in each of them, and the part of each
// table that is the stripe's own. The calls on the tables are in crate volumeshelf.
#![tactic(auto)]

mod reads; // reads.rt: a read on its way to its stripe
mod walks; // walks.rt: a call on its way over the stripes

use calls::StepCall;
use tables::Volume;

// Every call but read. Of the calls that step a record a stop and a failure are of every stripe, and the number in a failure is that of a card.
#[derive(Clone, Copy)]
pub enum VolumeCall {
    Pick(u8),
    Step(StepCall),
}

// A call of a stripe, counted from 0. The bytes of a swap or a card's failure are beside it.
#[derive(Clone, Copy)]
pub struct Request {
    pub volume: Volume,
    pub stripe: usize,
    pub call: VolumeCall,
}

// The read of position i of a stripe.
#[derive(Clone, Copy)]
pub struct ReadRequest {
    pub volume: Volume,
    pub stripe: usize,
    pub i: u8,
}

// The same, with the lengths of the blocks and the spare.
#[derive(Clone, Copy)]
pub struct SizedRead {
    pub volume: Volume,
    pub stripe: usize,
    pub i: u8,
    pub blocks: usize,
    pub spare: usize,
}
