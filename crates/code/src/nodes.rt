// Sets of nodes.
ghost use Rattle.std.specs.Prelude.{cond, ◌≡◌, ℕ, suc, ◌≤◌, get_or};
ghost use Rattle.basics.specs.Lists.{list_of};
ghost use Rattle.code.specs.Bits.{bits_of};
ghost use Rattle.code.specs.Code.{node_limit};
ghost use Rattle.code.specs.Decode;
ghost use Rattle.code.specs.View.{node_set_of};

use crate::Limits;

// Bit j - 1 says whether node j is in the set; the bits past the last node say nothing.
#[derive(Clone, Copy)]
pub struct NodeSet {
    bits: u32,
}

impl NodeSet {
    // How many nodes a stripe has at most.
    pub const NODES: usize = Limits::DATA_MOST + Limits::REDUNDANT_MOST;

    // One more than the bits of all nodes.
    const END: u32 = 262_144;

    pub fn none() -> Self
        ensures { node_set_of result ≡ Decode.no_nodes }
    {
        NodeSet { bits: 0 }
    }

    // (By two comparisons: with (1..=NODES).contains(&j) the proof did not close.)
    pub fn contains(self, j: usize) -> bool
        ensures { result ≡ Decode.has (node_set_of self) j }
    {
        1 <= j && j <= NodeSet::NODES && (self.bits >> (j - 1)) % 2 == 1
    }

    // The set and node j, if it is one that a stripe can have.
    pub fn with(self, j: usize) -> Self
        ensures { node_set_of result ≡ Decode.including j (node_set_of self) }
    {
        if j == 0 || NodeSet::NODES < j {
            return self;
        }
        let bit = 1u32 << (j - 1);
        NodeSet {
            bits: self.bits | bit,
        }
    }

    pub fn without(self, j: usize) -> Self
        ensures { node_set_of result ≡ Decode.excluding j (node_set_of self) }
    {
        if j == 0 || NodeSet::NODES < j {
            return self;
        }
        let bit = 1u32 << (j - 1);
        NodeSet {
            bits: (self.bits | bit) ^ bit,
        }
    }

    // The set with node j in it, or without it.
    pub fn put(self, j: usize, member: bool) -> Self
        ensures { node_set_of result ≡ cond member (Decode.including j (node_set_of self)) (Decode.excluding j (node_set_of self)) }
    {
        if member {
            self.with(j)
        } else {
            self.without(j)
        }
    }

    // The nodes 1 to n of the set as a number.
    pub fn first_bits(self, n: usize) -> u32
        requires { n ≤ node_limit }
        ensures { result ≡ bits_of (list_of n (λ i. Decode.has (node_set_of self) (suc i))) }
    {
        self.bits % (1u32 << n)
    }

    pub fn size(self) -> usize
        ensures { (result ≡ Decode.size (node_set_of self)) × (result ≤ node_limit) }
    {
        u32::count_ones(self.bits % NodeSet::END) as usize
    }

    // Whether every member is one of the nodes 1 to n.
    pub fn is_within(self, n: usize) -> bool
        ensures { result ≡ Decode.set_within n (node_set_of self) }
    {
        NodeSet::NODES <= n || (self.bits % NodeSet::END) >> n == 0
    }

    // The members in rising order, and 0 at each place past the last.
    pub fn members(self) -> [u8; NodeSet::NODES]
        ensures { (q : ℕ) → get_or result q 0 ≡ get_or (Decode.members (node_set_of self)) q 0 }
    {
        let mut r = [0u8; NodeSet::NODES];
        let mut n = 0;
        for j in 0..NodeSet::NODES {
            if self.contains(j + 1) {
                r[n] = j as u8 + 1;
                n += 1;
            }
        }
        r
    }
}
