// A client's record: each step takes it by value and hands it back.
ghost use Rattle.std.specs.Prelude.{true, false, ◌||◌, ◌≡◌, ◌+◌, ◌*◌, ◌<◌, ◌≤◌, ltb, length, None, Some};
ghost use Rattle.code.specs.Decode.{no_nodes, including, excluding};
ghost use Rattle.code.specs.View.{node_set_of};
ghost use Rattle.entries.specs.Entries.{write_limit, finished_limit, previous_within};
ghost use Rattle.entries.specs.View.{ids_of};
ghost use Rattle.records.specs.Sizes.{data_limit, node_limit, sizes_within};
ghost use Rattle.records.specs.Node.{is_l0, is_l1};
ghost use Rattle.records.specs.Client.{NoRebuild, Picking, Writing, fresh_client, stopped, with_hand, with_rebuild, began, finished_write, swept_on, has_write, has_rebuild, remembered, next_node, locked_rebuild, next_rebuild, hand_within, rebuild_within, client_within};
ghost use Rattle.records.specs.ClientSteps.{lists_within, idle_client};
ghost use Rattle.records.specs.View.{write_of, hand_of, old_lmodes, rebuild_of, client_of};

use crate::{ClientRecord, Lmode, NodeRecord, Phase, Sizes, Write};
use code::NodeSet;
use entries::{Epoch, Ids, WriteId, WriteNumber};

impl Write {
    // Done at its own position alone.
    pub fn new(id: WriteId, previous: Option<WriteId>, epoch: Epoch) -> Self
        ensures { write_of result ≡ record { id = id; previous = previous; epoch = epoch; done = including id.position no_nodes } }
    {
        Write {
            id,
            previous,
            epoch,
            done: NodeSet::none().with(id.position as usize),
        }
    }

    // Done at other nodes.
    fn with_done(self, done: NodeSet) -> Self
        ensures { write_of result ≡ record { id = self.id; previous = self.previous; epoch = self.epoch; done = node_set_of done } }
    {
        Write { done, ..self }
    }

    fn is_previous_within(self, z: Sizes) -> bool
        ensures { result ≡ previous_within z.k z.m self.previous }
    {
        self.previous.is_none_or(|id| id.is_within(z.k, z.m))
    }

    // A write in hand leaves room for its own id in the finished list.
    fn is_within(self, finished: Ids, z: Sizes) -> bool
        ensures { result ≡ hand_within z (Some (write_of self)) (ids_of finished) }
    {
        self.id.is_within(z.k, z.m)
            && (self.is_previous_within(z)
                && (self.epoch.0 <= NodeRecord::EPOCHS
                    && (self.done.is_within(z.n) && finished.count < Ids::LIMIT)))
    }
}

impl Phase {
    // The node that the rebuild is at.
    pub fn node(self) -> usize
        ensures { result ≡ next_node (rebuild_of self) }
    {
        match self {
            Phase::NoRebuild => 1,
            Phase::Locking(x, _) => x as usize + 1,
            Phase::Picking(j) => j as usize,
            Phase::Writing(j, _, _) => j as usize,
            Phase::Settling(j, _) => j as usize,
            Phase::Unlocking(j) => j as usize,
        }
    }

    // After the lock of the next node, whose lmode was old, where x are locked of which those in `expired` were EXP.
    fn locked(x: u8, expired: NodeSet, old: Lmode, n: usize) -> Self
        requires { ((is_l0 old || is_l1 old) ≡ false) × (x < node_limit) }
        ensures { rebuild_of result ≡ locked_rebuild n old (old_lmodes x expired) }
    {
        let j = x as usize + 1;
        if n <= j {
            Phase::Picking(0)
        } else {
            Phase::Locking(x + 1, expired.put(j, old.is_exp()))
        }
    }

    // The same of the phase before it.
    fn lock(self, old: Lmode, n: usize) -> Self
        requires { ((is_l0 old || is_l1 old) ≡ false) × (length (remembered (rebuild_of self)) < node_limit) }
        ensures { rebuild_of result ≡ locked_rebuild n old (remembered (rebuild_of self)) }
    {
        match self {
            Phase::Locking(x, expired) => Phase::locked(x, expired, old, n),
            _ => Phase::locked(0, NodeSet::none(), old, n),
        }
    }

    // After a tighten, a write, a settle or an unlock of the phase's node.
    fn next(self, n: usize) -> Self
        requires { n ≤ node_limit }
        ensures { rebuild_of result ≡ next_rebuild n (rebuild_of self) }
    {
        match self {
            Phase::NoRebuild => self,
            Phase::Locking(_, _) => self,
            Phase::Picking(j) => {
                if n <= j as usize {
                    Phase::Picking(0)
                } else {
                    Phase::Picking(j + 1)
                }
            }
            Phase::Writing(j, set, e) => {
                if n <= j as usize {
                    Phase::Settling(1, e)
                } else {
                    Phase::Writing(j + 1, set, e)
                }
            }
            Phase::Settling(j, e) => {
                if n <= j as usize {
                    Phase::Unlocking(1)
                } else {
                    Phase::Settling(j + 1, e)
                }
            }
            Phase::Unlocking(j) => {
                if n <= j as usize {
                    Phase::NoRebuild
                } else {
                    Phase::Unlocking(j + 1)
                }
            }
        }
    }

    fn is_within(self, z: Sizes) -> bool
        ensures { result ≡ rebuild_within z (rebuild_of self) }
    {
        match self {
            Phase::NoRebuild => true,
            Phase::Locking(x, _) => 1 <= x && (x as usize) < z.n,
            Phase::Picking(j) => j == 0 || z.is_redundant(j),
            Phase::Writing(j, set, e) => z.is_node(j)
                && (set.is_within(z.n) && e.0 < NodeRecord::EPOCHS),
            Phase::Settling(j, e) => z.is_node(j) && e.0 < NodeRecord::EPOCHS,
            Phase::Unlocking(j) => z.is_node(j),
        }
    }
}

impl ClientRecord {
    pub const WRITES: u32 = WriteNumber::LIMIT;

    pub fn fresh() -> Self
        ensures { client_of result ≡ fresh_client }
    {
        ClientRecord::idle(WriteNumber(0))
    }

    pub fn stop(self) -> Self
        ensures { client_of result ≡ stopped (client_of self) }
    {
        ClientRecord::idle(self.next)
    }

    // Nothing in hand, no rebuild, empty lists.
    fn idle(next: WriteNumber) -> Self
        ensures { client_of result ≡ idle_client next }
    {
        ClientRecord {
            hand: None,
            phase: Phase::NoRebuild,
            finished: Ids::none(),
            moved: Ids::none(),
            round: 0,
            next,
        }
    }

    // (A match, since either arm is a test of its own.)
    fn is_hand_within(self, z: Sizes) -> bool
        ensures { result ≡ hand_within z (client_of self).hand (client_of self).finished }
    {
        match self.hand {
            None => self.finished.count <= Ids::LIMIT,
            Some(write) => write.is_within(self.finished, z),
        }
    }

    fn are_lists_within(self, z: Sizes) -> bool
        requires { sizes_within z ≡ true }
        ensures { result ≡ lists_within z (client_of self) }
    {
        self.finished.is_within(z.k, z.m)
            && (self.moved.is_within(z.k, z.m)
                && ((self.round as usize) < 2 * z.n && self.next.0 <= ClientRecord::WRITES))
    }

    pub fn is_within(self, z: Sizes) -> bool
        requires { sizes_within z ≡ true }
        ensures { result ≡ client_within z (client_of self) }
    {
        self.is_hand_within(z) && (self.phase.is_within(z) && self.are_lists_within(z))
    }

    pub fn has_write(self) -> bool
        ensures { result ≡ has_write (client_of self).hand }
    {
        self.hand.is_some()
    }

    pub fn has_rebuild(self) -> bool
        ensures { result ≡ has_rebuild (client_of self).rebuild }
    {
        !matches!(self.phase, Phase::NoRebuild)
    }

    // ---- the write in hand

    fn with_hand(self, hand: Option<Write>) -> Self
        ensures { client_of result ≡ with_hand (hand_of hand) (client_of self) }
    {
        ClientRecord { hand, ..self }
    }

    // A new write; its number is used.
    pub fn begin(self, write: Write) -> Self
        requires { self.next.0 < write_limit }
        ensures { client_of result ≡ began (write_of write) (client_of self) }
    {
        ClientRecord {
            hand: Some(write),
            next: WriteNumber(self.next.0 + 1),
            ..self
        }
    }

    pub fn finish(self, id: WriteId) -> Self
        requires { self.finished.count < finished_limit }
        ensures { client_of result ≡ finished_write id (client_of self) }
    {
        ClientRecord {
            hand: None,
            finished: self.finished.push(id),
            ..self
        }
    }

    pub fn drop_write(self) -> Self
        ensures { client_of result ≡ with_hand None (client_of self) }
    {
        self.with_hand(None)
    }

    // The write in hand is done at node j too.
    pub fn join(self, write: Write, j: u8) -> Self
        ensures { client_of result ≡ with_hand (Some (record { id = write.id; previous = write.previous; epoch = write.epoch; done = including j (node_set_of write.done) })) (client_of self) }
    {
        self.with_hand(Some(write.with_done(write.done.with(j as usize))))
    }

    // The write in hand is done at node j no more: check's INIT.
    pub fn leave(self, write: Write, j: u8) -> Self
        ensures { client_of result ≡ with_hand (Some (record { id = write.id; previous = write.previous; epoch = write.epoch; done = excluding j (node_set_of write.done) })) (client_of self) }
    {
        self.with_hand(Some(write.with_done(write.done.without(j as usize))))
    }

    // The write in hand has no previous id any more: check's GC.
    pub fn forget(self, write: Write) -> Self
        ensures { client_of result ≡ with_hand (Some (record { id = write.id; previous = None; epoch = write.epoch; done = node_set_of write.done })) (client_of self) }
    {
        self.with_hand(Some(Write {
            previous: None,
            ..write
        }))
    }

    // ---- the sweep round

    // Whether the round is in its first half, which discards.
    pub fn is_discarding(self, n: usize) -> bool
        ensures { result ≡ ltb self.round n }
    {
        (self.round as usize) < n
    }

    // One more sweep of the round, which ends after 2n.
    pub fn sweep_on(self, n: usize) -> Self
        requires { (self.round < 2 * n) × (n ≤ node_limit) }
        ensures { client_of result ≡ swept_on n (client_of self) }
    {
        if 2 * n <= self.round as usize + 1 {
            ClientRecord {
                moved: self.finished,
                finished: Ids::none(),
                round: 0,
                ..self
            }
        } else {
            ClientRecord {
                round: self.round + 1,
                ..self
            }
        }
    }

    // ---- the rebuild

    fn with_phase(self, phase: Phase) -> Self
        ensures { client_of result ≡ with_rebuild (rebuild_of phase) (client_of self) }
    {
        ClientRecord { phase, ..self }
    }

    // The node that the rebuild is at.
    pub fn node(self) -> usize
        ensures { result ≡ next_node (client_of self).rebuild }
    {
        self.phase.node()
    }

    // After the lock of the next node, whose lmode was old.
    pub fn lock(self, old: Lmode, n: usize) -> Self
        requires { ((is_l0 old || is_l1 old) ≡ false) × (length (remembered (client_of self).rebuild) < node_limit) }
        ensures { client_of result ≡ with_rebuild (locked_rebuild n old (remembered (client_of self).rebuild)) (client_of self) }
    {
        self.with_phase(self.phase.lock(old, n))
    }

    pub fn pick(self, set: NodeSet, epoch: Epoch) -> Self
        ensures { client_of result ≡ with_rebuild (Writing 1 (node_set_of set) epoch) (client_of self) }
    {
        self.with_phase(Phase::Writing(1, set, epoch))
    }

    // After a weaken: node k + 1 is the lowest not tightened.
    pub fn weaken(self, k: usize) -> Self
        requires { k ≤ data_limit }
        ensures { client_of result ≡ with_rebuild (Picking (k + 1)) (client_of self) }
    {
        self.with_phase(Phase::Picking(k as u8 + 1))
    }

    // After a tighten, a write, a settle or an unlock of the phase's node.
    pub fn advance(self, n: usize) -> Self
        requires { n ≤ node_limit }
        ensures { client_of result ≡ with_rebuild (next_rebuild n (client_of self).rebuild) (client_of self) }
    {
        self.with_phase(self.phase.next(n))
    }

    pub fn end_rebuild(self) -> Self
        ensures { client_of result ≡ with_rebuild NoRebuild (client_of self) }
    {
        self.with_phase(Phase::NoRebuild)
    }
}
