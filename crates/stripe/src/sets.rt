// The set of nodes that a pick takes.
ghost use Rattle.std.specs.Prelude.{cond, ◌&&◌, ◌||◌, not, List, [], ◌∷◌, ◌++◌, ◌≡◌, ◌+◌, ◌-◌, ◌<◌, ◌≤◌, ltb};
ghost use Rattle.code.specs.Decode.{size};
ghost use Rattle.code.specs.View.{node_set_of};
ghost use Rattle.machine.specs.Stripe.{node_at};
ghost use Rattle.basics.specs.Lists.{every_of};
ghost use Rattle.machine.specs.Rebuild.{old_somewhere, recent_ids, at_position, same_ids, all_data, besides, largest, resumed, picked_set, needed_size};
ghost use Rattle.entries.specs.Entries.{entry_limit, is_recent, is_in};
ghost use Rattle.entries.specs.View.{entry_of, entries_of, ids_of};
ghost use Rattle.records.specs.Node.{is_norm};
ghost use Rattle.records.specs.View.{node_of};
ghost use Rattle.records.specs.Sizes.{node_limit};
ghost use Rattle.stripe.specs.Sets.{fits_beside, is_resumed, larger, Knows};
ghost use Rattle.stripe.specs.View.{nodes_of, Counted};

use crate::nodes::Nodes;
use code::NodeSet;
use entries::{Entries, Entry, Few, WriteId};
use records::{NodeRecord, Opmode, Sizes};

// Recent ids of a node, without those that are old at a NORM node.
type RecentIds = Few<WriteId, 16>;

// The recent ids of every node: those of node j are item j - 1.
#[derive(Clone, Copy)]
pub struct Recents {
    pub items: [RecentIds; Sizes::NODES],
}

// Whether each id is among the others.
fn are_among(ids: RecentIds, others: RecentIds) -> bool
    requires { (ids.count ≤ entry_limit) × (others.count ≤ entry_limit) }
    ensures { result ≡ every_of (λ x. is_in x (ids_of others)) (ids_of ids) }
{
    ids.all(|id| others.has(id))
}

// Whether both lists have the same ids.
fn are_same(ids: RecentIds, others: RecentIds) -> bool
    requires { (ids.count ≤ entry_limit) × (others.count ≤ entry_limit) }
    ensures { result ≡ same_ids (ids_of ids) (ids_of others) }
{
    are_among(ids, others) && are_among(others, ids)
}

// The ids of position i.
fn at_position(ids: RecentIds, i: usize) -> RecentIds
    requires { ids.count ≤ entry_limit }
    ensures { ids_of result ≡ at_position i (ids_of ids) }
{
    let mut out = RecentIds::none();
    for id in &ids.items[..ids.count] {
        if id.position as usize == i {
            out = out.push(*id);
        }
    }
    out
}

// Whether a node with its own recent ids fits beside a redundant member with theirs.
fn fits(own: RecentIds, theirs: RecentIds, k: usize, j: usize) -> bool
    requires { (own.count ≤ entry_limit) × (theirs.count ≤ entry_limit) }
    ensures { result ≡ fits_beside k j (ids_of own) (ids_of theirs) }
{
    if j <= k {
        are_same(own, at_position(theirs, j))
    } else {
        are_same(own, theirs)
    }
}

fn is_beside(node: NodeRecord, own: RecentIds, theirs: RecentIds, k: usize, j: usize) -> bool
    requires { (own.count ≤ entry_limit) × (theirs.count ≤ entry_limit) }
    ensures { result ≡ (is_norm node.opmode && fits_beside k j (ids_of own) (ids_of theirs)) }
{
    node.opmode.is_norm() && fits(own, theirs, k, j)
}

impl Nodes {
    fn old_somewhere(self, n: usize, id: WriteId) -> bool
        requires { (n ≤ node_limit) × Counted n self }
        ensures { result ≡ old_somewhere (nodes_of n self) id }
    {
        self.items[..n]
            .iter()
            .any(|node| node.opmode.is_norm() && node.entries.has_old(id))
    }

    // Whether the entry's id is among the recent ids of its node.
    fn counts(self, n: usize, e: Entry) -> bool
        requires { (n ≤ node_limit) × Counted n self }
        ensures { result ≡ (is_recent (entry_of e) && not (old_somewhere (nodes_of n self) (entry_of e).id)) }
    {
        e.is_recent() && !self.old_somewhere(n, e.id())
    }

    fn recent_ids(self, n: usize, entries: Entries) -> RecentIds
        requires { (n ≤ node_limit) × (Counted n self × (entries.count ≤ entry_limit)) }
        ensures { ids_of result ≡ recent_ids (nodes_of n self) (entries_of entries) }
    {
        let mut out = RecentIds::none();
        for e in &entries.items[..entries.count] {
            if self.counts(n, *e) {
                out = out.push(e.id());
            }
        }
        out
    }

    // The recent ids of nodes 1 to n. (This loop and those below go by the place, which is the number of the node less 1.)
    fn recents(self, n: usize) -> Recents
        requires { (n ≤ node_limit) × Counted n self }
        ensures { Knows n self result }
    {
        let mut items = [RecentIds::none(); Sizes::NODES];
        for i in 0..n {
            items[i] = self.recent_ids(n, self.items[i].entries);
        }
        Recents { items }
    }

    // The largest consistent set with no redundant member.
    fn all_data(self, z: Sizes) -> NodeSet
        requires { (z.k ≤ z.n) × (z.n ≤ node_limit) }
        ensures { node_set_of result ≡ all_data z (nodes_of z.n self) }
    {
        let mut set = NodeSet::none();
        for i in 0..z.k {
            set = set.put(i + 1, self.items[i].opmode.is_norm());
        }
        set
    }

    // The largest consistent set with the redundant member r.
    fn besides(self, recents: Recents, z: Sizes, r: usize) -> NodeSet
        requires { (1 ≤ r) × ((r ≤ z.n) × Knows z.n self recents) }
        ensures { node_set_of result ≡ besides z (nodes_of z.n self) r }
    {
        let theirs = recents.items[r - 1];
        let mut set = NodeSet::none();
        for i in 0..z.n {
            let beside = is_beside(self.items[i], recents.items[i], theirs, z.k, i + 1);
            set = set.put(i + 1, beside);
        }
        set
    }

    // Whether an unfinished rebuild is resumed with node j.
    fn is_resumed(self, n: usize, j: usize) -> bool
        requires { (n ≤ node_limit) × ((1 ≤ j) × (j ≤ n)) }
        ensures { result ≡ is_resumed (nodes_of n self) j }
    {
        match self.get(j).opmode {
            Opmode::Norm => self.items[..n].iter().any(|node| node.rset.contains(j)),
            Opmode::Recons => true,
            Opmode::Init => false,
        }
    }

    // The set of an unfinished rebuild.
    fn resumed(self, n: usize) -> NodeSet
        requires { n ≤ node_limit }
        ensures { node_set_of result ≡ resumed (nodes_of n self) }
    {
        let mut set = NodeSet::none();
        for i in 0..n {
            set = set.put(i + 1, self.is_resumed(n, i + 1));
        }
        set
    }

    // The larger of the best set so far and the one with the redundant node r; on a tie the former.
    fn larger(self, recents: Recents, z: Sizes, r: usize, best: NodeSet) -> NodeSet
        requires { (1 ≤ r) × ((r ≤ z.n) × Knows z.n self recents) }
        ensures { node_set_of result ≡ larger z (nodes_of z.n self) r (node_set_of best) }
    {
        if !self.get(r).opmode.is_norm() {
            return best;
        }
        let other = self.besides(recents, z, r);
        if best.size() < other.size() {
            other
        } else {
            best
        }
    }

    // The largest consistent set; on a tie the all-data set, then the one with the lowest redundant member.
    fn largest(self, recents: Recents, z: Sizes) -> NodeSet
        requires { (z.k ≤ z.n) × Knows z.n self recents }
        ensures { node_set_of result ≡ largest z (nodes_of z.n self) (z.n - z.k) }
    {
        let mut best = self.all_data(z);
        for i in z.k..z.n {
            best = self.larger(recents, z, i + 1, best);
        }
        best
    }

    pub fn picked_set(self, z: Sizes) -> NodeSet
        requires { (z.k ≤ z.n) × ((z.n ≤ node_limit) × Counted z.n self) }
        ensures { node_set_of result ≡ picked_set z (nodes_of z.n self) }
    {
        if self.some_recons(z.n) {
            self.resumed(z.n)
        } else {
            self.largest(self.recents(z.n), z)
        }
    }

    pub fn needed_size(self, z: Sizes) -> usize
        requires { (z.n ≤ node_limit) × (z.k + z.failures ≤ z.n) }
        ensures { result ≡ needed_size z (nodes_of z.n self) }
    {
        if self.some_recons(z.n) {
            z.k
        } else {
            z.k + z.failures.saturating_sub(self.count_init(z.n))
        }
    }
}
