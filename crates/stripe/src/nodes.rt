// All node records of a stripe, by value.
ghost use Rattle.std.specs.Prelude.{true, cond, ◌≡◌, ℕ, ◌+◌, ◌<◌, ◌≤◌, max};
ghost use Rattle.machine.specs.Stripe.{node_at};
ghost use Rattle.basics.specs.Lists.{set_at, every_of, some_of};
ghost use Rattle.machine.specs.Rebuild.{some_recons, count_init, largest_epoch};
ghost use Rattle.records.specs.Node.{is_init, held_at_l1, node_within};
ghost use Rattle.records.specs.View.{node_of};
ghost use Rattle.records.specs.Sizes.{node_limit, sizes_within};
ghost use Rattle.stripe.specs.Seen.{Sees, applied};
ghost use Rattle.stripe.specs.View.{record_at, nodes_of};

use crate::seen::{Change, Seen};
use entries::Epoch;
use records::{NodeRecord, Sizes};

// Node j is item j - 1; a stripe of n nodes has the first n items.
#[derive(Clone, Copy)]
pub struct Nodes {
    pub items: [NodeRecord; Sizes::NODES],
}

impl Nodes {
    pub fn get(self, j: usize) -> NodeRecord
        requires { (1 ≤ j) × (j ≤ node_limit) }
        ensures { (n : ℕ) → j ≤ n → node_of result ≡ node_at (nodes_of n self) j }
    {
        self.items[j - 1]
    }

    pub fn set(mut self, j: usize, node: NodeRecord) -> Self
        requires { (1 ≤ j) × (j ≤ node_limit) }
        ensures { (n : ℕ) → nodes_of n result ≡ set_at (nodes_of n self) j (node_of node) }
    {
        self.items[j - 1] = node;
        self
    }

    pub fn are_within(self, z: Sizes) -> bool
        requires { z.n ≤ node_limit }
        ensures { result ≡ every_of (node_within z) (nodes_of z.n self) }
    {
        self.items[..z.n].iter().all(|node| node.is_within(z))
    }

    pub fn all_held_at_l1(self, n: usize, c: u8) -> bool
        requires { n ≤ node_limit }
        ensures { result ≡ every_of (held_at_l1 c) (nodes_of n self) }
    {
        self.items[..n].iter().all(|node| node.held_at_l1(c))
    }

    pub fn some_recons(self, n: usize) -> bool
        requires { n ≤ node_limit }
        ensures { result ≡ some_recons (nodes_of n self) }
    {
        self.items[..n].iter().any(|node| node.opmode.is_recons())
    }

    pub fn count_init(self, n: usize) -> usize
        requires { n ≤ node_limit }
        ensures { result ≡ count_init (nodes_of n self) }
    {
        self.items[..n]
            .iter()
            .filter(|node| node.opmode.is_init())
            .count()
    }

    pub fn largest_epoch(self, n: usize) -> Epoch
        requires { n ≤ node_limit }
        ensures { result.0 ≡ largest_epoch (nodes_of n self) }
    {
        let mut largest = 0;
        for node in &self.items[..n] {
            largest = node.epoch.0.max(largest);
        }
        Epoch(largest)
    }

    // What is seen of all n nodes.
    pub fn see(self, z: Sizes, c: u8) -> Seen
        ensures { sizes_within z ≡ true → Sees z c (nodes_of z.n self) result }
    {
        let mut seen = Seen::none();
        if !z.within() {
            return seen;
        }
        for node in &self.items[..z.n] {
            seen = seen.with(z, c, *node);
        }
        seen
    }

    // The n nodes after a change.
    pub fn change(mut self, n: usize, change: Change) -> Self
        requires { n ≤ node_limit }
        ensures { nodes_of n result ≡ applied change (nodes_of n self) }
    {
        // (By the place: what becomes of a node depends on it.)
        for i in change.first(n)..change.end(n) {
            self.items[i] = change.made(i, self.items[i]);
        }
        self
    }
}
