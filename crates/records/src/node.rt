// A node's record: each call takes it by value and hands it back.
ghost use Rattle.std.specs.Prelude.{◌&&◌, ◌||◌, ◌≡◌, ◌<◌, ◌≤◌, Ok, Err};
ghost use Rattle.code.specs.View.{node_set_of};
ghost use Rattle.entries.specs.Entries.{entry_limit, finished_limit, discard, mark_old};
ghost use Rattle.entries.specs.View.{ids_of, entries_of};
ghost use Rattle.records.specs.Node.{epoch_limit, fresh_node, failed_node, is_norm, is_recons, is_init, is_unl, is_exp, is_l0, is_l1, is_holder, holder_of, is_free, takes_add, held_by, held_at_l1, with_entries, with_lmode, entered, locked_by, weakened_by, unlocked, expired_for, given_back, written, settled, ticked, is_due, holder_within, node_within};
ghost use Rattle.records.specs.NodeSteps.{MeetsAtNode, empty_node, enter_answer, swap_answer, after_previous, add_answer, sweep_answer, lock_answer, held_answer, weaken_answer, tick_answer, check_answer};
ghost use Rattle.records.specs.View.{node_of};

use crate::{CheckAnswer, CheckStep, Lmode, NodeRecord, NodeStep, Opmode, Refusal, Sizes, Write};
use code::NodeSet;
use entries::{Entries, Epoch, Ids, WriteId};

impl Opmode {
    pub fn is_norm(self) -> bool
        ensures { result ≡ is_norm self }
    {
        matches!(self, Opmode::Norm)
    }

    pub fn is_recons(self) -> bool
        ensures { result ≡ is_recons self }
    {
        matches!(self, Opmode::Recons)
    }

    pub fn is_init(self) -> bool
        ensures { result ≡ is_init self }
    {
        matches!(self, Opmode::Init)
    }
}

impl Lmode {
    fn is_unl(self) -> bool
        ensures { result ≡ is_unl self }
    {
        matches!(self, Lmode::Unl)
    }

    pub(crate) fn is_exp(self) -> bool
        ensures { result ≡ is_exp self }
    {
        matches!(self, Lmode::Exp)
    }

    fn is_l1(self) -> bool
        ensures { result ≡ is_l1 self }
    {
        matches!(self, Lmode::L1)
    }

    fn is_locked(self) -> bool
        ensures { result ≡ (is_l0 self || is_l1 self) }
    {
        matches!(self, Lmode::L0 | Lmode::L1)
    }

    fn takes_add(self) -> bool
        ensures { result ≡ (is_unl self || is_l0 self) }
    {
        matches!(self, Lmode::Unl | Lmode::L0)
    }
}

impl NodeRecord {
    pub const EPOCHS: u32 = 1_000_000;

    pub fn fresh() -> Self
        ensures { node_of result ≡ fresh_node }
    {
        NodeRecord::empty(Opmode::Norm)
    }

    // What a failure leaves of any record.
    pub fn failed() -> Self
        ensures { node_of result ≡ failed_node }
    {
        NodeRecord::empty(Opmode::Init)
    }

    fn empty(opmode: Opmode) -> Self
        ensures { node_of result ≡ empty_node opmode }
    {
        NodeRecord {
            opmode,
            lmode: Lmode::Unl,
            holder: None,
            epoch: Epoch(0),
            rset: NodeSet::none(),
            entries: Entries::none(),
        }
    }

    pub fn is_free(self) -> bool
        ensures { result ≡ is_free (node_of self) }
    {
        self.opmode.is_norm() && self.lmode.is_unl()
    }

    pub fn takes_add(self) -> bool
        ensures { result ≡ takes_add (node_of self) }
    {
        self.opmode.is_norm() && self.lmode.takes_add()
    }

    fn has_holder(self, c: u8) -> bool
        ensures { result ≡ is_holder c self.holder }
    {
        self.holder == Some(c)
    }

    pub fn held_by(self, c: u8) -> bool
        ensures { result ≡ held_by c (node_of self) }
    {
        self.lmode.is_locked() && self.has_holder(c)
    }

    pub fn held_at_l1(self, c: u8) -> bool
        ensures { result ≡ held_at_l1 c (node_of self) }
    {
        self.lmode.is_l1() && self.has_holder(c)
    }

    // The client that holds it, 0 if none does. (No Option: client 0 is looked for as any other, and no table has it.)
    pub fn holder_number(self) -> u8
        ensures { result ≡ holder_of (node_of self) }
    {
        self.holder.unwrap_or(0)
    }

    pub fn is_due(self) -> bool
        requires { self.entries.count ≤ entry_limit }
        ensures { result ≡ is_due (node_of self) }
    {
        self.opmode.is_init() || self.entries.has_due()
    }

    // A holder at L0 and L1 alone, and it is one of the clients. (A match, since either arm is a test of its own.)
    fn is_holder_within(self, z: Sizes) -> bool
        ensures { result ≡ holder_within z self.lmode self.holder }
    {
        match self.holder {
            None => !self.lmode.is_locked(),
            Some(c) => self.lmode.is_locked() && z.is_client(c),
        }
    }

    pub fn is_within(self, z: Sizes) -> bool
        ensures { result ≡ node_within z (node_of self) }
    {
        self.is_holder_within(z)
            && (self.epoch.0 <= NodeRecord::EPOCHS
                && (self.rset.is_within(z.n) && self.entries.is_within(z.k, z.m)))
    }

    // ---- answers

    fn accepted(self) -> NodeStep
        ensures { result ≡ record { answer = Ok tt; node = self } }
    {
        NodeStep {
            answer: Ok(()),
            node: self,
        }
    }

    fn refused(self, why: Refusal) -> NodeStep
        ensures { result ≡ record { answer = Err why; node = self } }
    {
        NodeStep {
            answer: Err(why),
            node: self,
        }
    }

    fn wrong_mode(self) -> NodeStep
        ensures { result ≡ record { answer = Err (Refusal.WrongMode self.opmode self.lmode); node = self } }
    {
        self.refused(Refusal::WrongMode(self.opmode, self.lmode))
    }

    // ---- writing

    fn with_entries(self, entries: Entries) -> Self
        ensures { node_of result ≡ with_entries (node_of self) (entries_of entries) }
    {
        NodeRecord { entries, ..self }
    }

    // The id entered as recent, if there is room.
    fn enter(self, id: WriteId) -> NodeStep
        ensures { MeetsAtNode (enter_answer (node_of self)) (entered id (node_of self)) self result }
    {
        if Entries::LIMIT <= self.entries.count {
            return self.refused(Refusal::Full);
        }
        self.with_entries(self.entries.enter(id)).accepted()
    }

    pub fn swap(self, id: WriteId) -> NodeStep
        ensures { MeetsAtNode (swap_answer (node_of self)) (entered id (node_of self)) self result }
    {
        if self.is_free() {
            self.enter(id)
        } else {
            self.wrong_mode()
        }
    }

    // The id entered, if the previous one is listed. (A match, since either arm is a step of its own.)
    fn enter_after(self, previous: Option<WriteId>, id: WriteId) -> NodeStep
        requires { self.entries.count ≤ entry_limit }
        ensures { MeetsAtNode (after_previous previous (node_of self) (enter_answer (node_of self))) (entered id (node_of self)) self result }
    {
        match previous {
            None => self.enter(id),
            Some(before) => {
                if self.entries.has(before) {
                    self.enter(id)
                } else {
                    self.refused(Refusal::BeforePrevious(before))
                }
            }
        }
    }

    pub fn add(self, write: Write) -> NodeStep
        requires { self.entries.count ≤ entry_limit }
        ensures { MeetsAtNode (add_answer write (node_of self)) (entered write.id (node_of self)) self result }
    {
        if !self.takes_add() {
            return self.wrong_mode();
        }
        if write.epoch.0 < self.epoch.0 {
            return self.refused(Refusal::OldEpoch(self.epoch));
        }
        self.enter_after(write.previous, write.id)
    }

    // What the node tells of a write whose id it was sent.
    fn told(self, write: Write) -> CheckAnswer
        requires { self.entries.count ≤ entry_limit }
        ensures { result ≡ check_answer write (node_of self) }
    {
        if !self.entries.has_recent(write.id) {
            return CheckAnswer::Init;
        }
        if self.entries.has_recent_previous(write.previous) {
            CheckAnswer::NoChange
        } else {
            CheckAnswer::Gc
        }
    }

    pub fn check(self, write: Write) -> CheckStep
        requires { self.entries.count ≤ entry_limit }
        ensures { result ≡ record { answer = check_answer write (node_of self); node = self } }
    {
        CheckStep {
            answer: self.told(write),
            node: self,
        }
    }

    pub fn discard(self, moved: Ids) -> NodeStep
        requires { (self.entries.count ≤ entry_limit) × (moved.count ≤ finished_limit) }
        ensures { MeetsAtNode (sweep_answer (node_of self)) (with_entries (node_of self) (discard (ids_of moved) (node_of self).entries)) self result }
    {
        if !self.is_free() {
            return self.wrong_mode();
        }
        self.with_entries(self.entries.discard(moved)).accepted()
    }

    pub fn mark(self, finished: Ids) -> NodeStep
        requires { (self.entries.count ≤ entry_limit) × (finished.count ≤ finished_limit) }
        ensures { MeetsAtNode (sweep_answer (node_of self)) (with_entries (node_of self) (mark_old (ids_of finished) (node_of self).entries)) self result }
    {
        if !self.is_free() {
            return self.wrong_mode();
        }
        self.with_entries(self.entries.mark_old(finished))
            .accepted()
    }

    // ---- rebuild

    fn with_lmode(self, lmode: Lmode, holder: Option<u8>) -> Self
        ensures { node_of result ≡ with_lmode (node_of self) lmode holder }
    {
        NodeRecord {
            lmode,
            holder,
            ..self
        }
    }

    pub fn lock(self, c: u8) -> NodeStep
        ensures { MeetsAtNode (lock_answer (node_of self)) (locked_by c (node_of self)) self result }
    {
        if self.lmode.is_locked() {
            return self.refused(Refusal::Locked);
        }
        self.locked_by(c).accepted()
    }

    pub fn tighten(self, c: u8) -> NodeStep
        ensures { MeetsAtNode (held_answer c (node_of self)) (locked_by c (node_of self)) self result }
    {
        if !self.held_by(c) {
            return self.refused(Refusal::NotHeld);
        }
        self.locked_by(c).accepted()
    }

    pub fn weaken(self, c: u8) -> NodeStep
        ensures { MeetsAtNode (weaken_answer c (node_of self)) (weakened_by c (node_of self)) self result }
    {
        if self.opmode.is_recons() {
            return self.refused(Refusal::OutOfPhase);
        }
        if !self.held_by(c) {
            return self.refused(Refusal::NotHeld);
        }
        self.weakened_by(c).accepted()
    }

    pub fn unlock(self, c: u8) -> NodeStep
        ensures { MeetsAtNode (held_answer c (node_of self)) (unlocked (node_of self)) self result }
    {
        if !self.held_by(c) {
            return self.refused(Refusal::NotHeld);
        }
        self.unlocked().accepted()
    }

    // All that c held becomes EXP.
    pub fn expire(self, c: u8) -> NodeStep
        ensures { MeetsAtNode (Ok tt) (expired_for c (node_of self)) self result }
    {
        self.expired_for(c).accepted()
    }

    // The old lmode, if c still holds the node: what a lock that is refused leaves of those before it.
    pub fn give_back(self, c: u8, old: Lmode) -> NodeStep
        ensures { MeetsAtNode (Ok tt) (given_back c old (node_of self)) self result }
    {
        self.given_back(c, old).accepted()
    }

    pub fn write(self, c: u8, epoch: Epoch, set: NodeSet) -> NodeStep
        ensures { MeetsAtNode (held_answer c (node_of self)) (written epoch (node_set_of set) (node_of self)) self result }
    {
        if !self.held_by(c) {
            return self.refused(Refusal::NotHeld);
        }
        self.written(epoch, set).accepted()
    }

    pub fn settle(self, c: u8, epoch: Epoch) -> NodeStep
        requires { epoch.0 < epoch_limit }
        ensures { MeetsAtNode (held_answer c (node_of self)) (settled epoch (node_of self)) self result }
    {
        if !self.held_by(c) {
            return self.refused(Refusal::NotHeld);
        }
        self.settled(epoch).accepted()
    }

    // ---- failure

    pub fn fail(self) -> NodeStep
        ensures { MeetsAtNode (Ok tt) failed_node self result }
    {
        NodeRecord::failed().accepted()
    }

    // ---- aging

    // Each recent entry is one older.
    pub fn tick(self) -> NodeStep
        ensures { MeetsAtNode (tick_answer (node_of self)) (ticked (node_of self)) self result }
    {
        if Entries::LIMIT < self.entries.count {
            return self.refused(Refusal::OutOfLimits);
        }
        self.with_entries(self.entries.tick()).accepted()
    }

    // ---- the record after a call

    fn locked_by(self, c: u8) -> Self
        ensures { node_of result ≡ locked_by c (node_of self) }
    {
        self.with_lmode(Lmode::L1, Some(c))
    }

    fn weakened_by(self, c: u8) -> Self
        ensures { node_of result ≡ weakened_by c (node_of self) }
    {
        self.with_lmode(Lmode::L0, Some(c))
    }

    fn unlocked(self) -> Self
        ensures { node_of result ≡ unlocked (node_of self) }
    {
        self.with_lmode(Lmode::Unl, None)
    }

    fn given_back(self, c: u8, old: Lmode) -> Self
        ensures { node_of result ≡ given_back c old (node_of self) }
    {
        if self.held_by(c) {
            self.with_lmode(old, None)
        } else {
            self
        }
    }

    fn expired_for(self, c: u8) -> Self
        ensures { node_of result ≡ expired_for c (node_of self) }
    {
        self.given_back(c, Lmode::Exp)
    }

    fn written(self, epoch: Epoch, set: NodeSet) -> Self
        ensures { node_of result ≡ written epoch (node_set_of set) (node_of self) }
    {
        NodeRecord {
            opmode: Opmode::Recons,
            epoch,
            rset: set,
            ..self
        }
    }

    fn settled(self, epoch: Epoch) -> Self
        requires { epoch.0 < epoch_limit }
        ensures { node_of result ≡ settled epoch (node_of self) }
    {
        NodeRecord {
            opmode: Opmode::Norm,
            epoch: Epoch(epoch.0 + 1),
            rset: NodeSet::none(),
            entries: Entries::none(),
            ..self
        }
    }
}
