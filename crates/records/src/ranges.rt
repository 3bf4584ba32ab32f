// The ranges of clients, positions and nodes, and the limits of the sizes.
ghost use Rattle.std.specs.Prelude.{◌≡◌};
ghost use Rattle.records.specs.Sizes.{sizes_within, is_node, is_position, is_redundant, is_client};

use crate::Sizes;
use code::{Limits, NodeSet};
use entries::is_up_to;

impl Sizes {
    pub const CLIENTS: usize = 8;

    pub const NODES: usize = NodeSet::NODES;

    // (No type for sizes that are within: each call asks this first and goes on in the same &&, or after a refusal, and would make such a value and take it
    // apart.)
    pub fn within(self) -> bool
        ensures { result ≡ sizes_within self }
    {
        Limits::hold(self.k, self.n, self.b)
            && (self.failures <= self.n - self.k && (1 <= self.m && self.m <= Sizes::CLIENTS))
    }

    pub fn is_client(self, c: u8) -> bool
        ensures { result ≡ is_client self c }
    {
        is_up_to(c, self.m)
    }

    pub fn is_position(self, i: u8) -> bool
        ensures { result ≡ is_position self i }
    {
        is_up_to(i, self.k)
    }

    pub fn is_node(self, j: u8) -> bool
        ensures { result ≡ is_node self j }
    {
        is_up_to(j, self.n)
    }

    pub fn is_redundant(self, j: u8) -> bool
        ensures { result ≡ is_redundant self j }
    {
        self.k < j as usize && j as usize <= self.n
    }
}
