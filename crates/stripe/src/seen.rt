// A call on the whole stripe steps one node's record: what it is told of all nodes, and what becomes of the others.
ghost use Rattle.std.specs.Prelude.{◌≡◌, suc, ◌≤◌, min};
ghost use Rattle.code.specs.Decode.{has};
ghost use Rattle.code.specs.View.{node_set_of};
ghost use Rattle.records.specs.View.{node_of, old_lmode};
ghost use Rattle.stripe.specs.Seen.{seen_none, seen_with, keep, expire, restore, weaken, tick, changed_at, first_of, end_of};

use code::NodeSet;
use records::{Lmode, NodeRecord, Sizes};

// Of all n nodes: whether there are n records, each within the limits; whether each is held by the client; whether each is held by it at L1; whether
// some is RECONS.
#[derive(Clone, Copy)]
pub struct Seen {
    pub within: bool,
    pub held: bool,
    pub tight: bool,
    pub recons: bool,
}

// What becomes of the other nodes: nothing; all that c held becomes EXP; of nodes 1 to x those that c still holds get their old lmode, EXP if in
// the set, else UNL; the nodes after x go to L0 for c; each recent entry is one older.
#[derive(Clone, Copy)]
pub enum Change {
    Keep,
    Expire(u8),
    Restore(u8, u8, NodeSet),
    Weaken(u8, u8),
    Tick,
}

impl Seen {
    pub fn none() -> Self
        ensures { result ≡ seen_none }
    {
        Seen {
            within: true,
            held: true,
            tight: true,
            recons: false,
        }
    }

    // One node later. (Always compiled into its caller: a call of it would copy the record once more.)
    #[inline(always)]
    pub fn with(self, z: Sizes, c: u8, node: NodeRecord) -> Self
        ensures { result ≡ seen_with z c (node_of node) self }
    {
        Seen {
            within: self.within & node.is_within(z),
            held: self.held & node.held_by(c),
            tight: self.tight & node.held_at_l1(c),
            recons: self.recons | node.opmode.is_recons(),
        }
    }
}

// The lmode of a node before it was locked.
fn old_lmode(was_exp: bool) -> Lmode
    ensures { result ≡ old_lmode was_exp }
{
    if was_exp { Lmode::Exp } else { Lmode::Unl }
}

// Whether the node at place i was EXP when it was locked.
fn was_exp(expired: NodeSet, i: usize) -> bool
    ensures { result ≡ has (node_set_of expired) (suc i) }
{
    i < NodeSet::NODES && expired.contains(i + 1)
}

impl Change {
    pub fn keep() -> Self
        ensures { result ≡ keep }
    {
        Change::Keep
    }

    pub fn expire(c: u8) -> Self
        ensures { result ≡ expire c }
    {
        Change::Expire(c)
    }

    pub fn restore(x: u8, c: u8, expired: NodeSet) -> Self
        ensures { result ≡ restore x c expired }
    {
        Change::Restore(x, c, expired)
    }

    pub fn weaken(k: u8, c: u8) -> Self
        ensures { result ≡ weaken k c }
    {
        Change::Weaken(k, c)
    }

    pub fn tick() -> Self
        ensures { result ≡ tick }
    {
        Change::Tick
    }

    // The first place, of n, that it touches.
    pub fn first(self, n: usize) -> usize
        ensures { result ≡ first_of self n }
    {
        match self {
            Change::Weaken(k, _) => (k as usize).min(n),
            Change::Keep | Change::Expire(_) | Change::Restore(..) | Change::Tick => 0,
        }
    }

    // The place after the last.
    pub fn end(self, n: usize) -> usize
        ensures { (result ≡ end_of self n) × (result ≤ n) }
    {
        match self {
            Change::Keep => 0,
            Change::Restore(x, _, _) => (x as usize).min(n),
            Change::Expire(_) | Change::Weaken(..) | Change::Tick => n,
        }
    }

    // The node at place i after the change.
    pub fn made(self, i: usize, node: NodeRecord) -> NodeRecord
        ensures { node_of result ≡ changed_at self i (node_of node) }
    {
        match self {
            Change::Keep => node,
            Change::Expire(c) => node.expire(c).node,
            Change::Restore(_, c, expired) => node
                .give_back(c, old_lmode(was_exp(expired, i)))
                .node,
            Change::Weaken(_, c) => node.weaken(c).node,
            Change::Tick => node.tick().node,
        }
    }
}
