// A volume's tables: its limits, the lengths of its tables, the part of each that is a stripe's own, and fresh ones. The calls on the tables are in crate
// volumeshelf.
#![tactic(auto)]

mod volumes; // volumes.rt: a volume's tables, and the parts of its stripes

use records::Sizes;
pub use volumes::{part, stripe_part, table_blocks, table_differences};

// So many stripes of these sizes.
#[derive(Clone, Copy)]
pub struct Volume {
    pub stripes: usize,
    pub z: Sizes,
}

// The lengths of a volume's tables, and of the bytes that are given with a card's failure.
#[derive(Clone, Copy)]
pub struct Lengths {
    pub nodes: usize,
    pub clients: usize,
    pub blocks: usize,
    pub differences: usize,
    pub value: usize,
}
