// Entries, and a node's list of them.
ghost use Rattle.std.specs.Prelude.{◌&&◌, not, [], ◌∷◌, ◌++◌, ◌≡◌, ◌<◌, ◌≤◌, leb, length};
ghost use Rattle.entries.specs.Entries.{entry_limit, finished_limit, age_limit, is_recent, is_in, is_listed, id_within, is_recent_in, is_old_in, last_recent, previous_recent, new_entry, aged_entry, aged, enter, discard, mark_old, marked_entry, some_due, entries_within};
ghost use Rattle.entries.specs.View.{ids_of, entry_of, entries_of};

use crate::{Age, Entries, Entry, Few, Ids, Mark, WriteId};

impl Entry {
    fn new(id: WriteId) -> Self
        ensures { entry_of result ≡ new_entry id }
    {
        Entry {
            number: id.number,
            client: id.client,
            position: id.position,
            mark: Mark::Recent,
            age: Age(0),
        }
    }

    pub fn id(self) -> WriteId
        ensures { result ≡ (entry_of self).id }
    {
        WriteId {
            client: self.client,
            position: self.position,
            number: self.number,
        }
    }

    pub fn is_recent(self) -> bool
        ensures { result ≡ is_recent (entry_of self) }
    {
        matches!(self.mark, Mark::Recent)
    }

    // An age is a byte, so it is within.
    fn is_within(self, k: usize, m: usize) -> bool
        ensures { result ≡ (id_within k m (entry_of self).id && leb (entry_of self).age.0 age_limit) }
    {
        self.id().is_within(k, m)
    }

    // Old if its id is in the list.
    fn marked(mut self, ids: Ids) -> Self
        requires { ids.count ≤ finished_limit }
        ensures { entry_of result ≡ marked_entry (ids_of ids) (entry_of self) }
    {
        if ids.has(self.id()) {
            self.mark = Mark::Old;
        }
        self
    }

    // Whether it stays when the ids are discarded.
    fn is_kept(self, ids: Ids) -> bool
        requires { ids.count ≤ finished_limit }
        ensures { result ≡ not (not (is_recent (entry_of self)) && is_in (entry_of self).id (ids_of ids)) }
    {
        self.is_recent() || !ids.has(self.id())
    }

    // One tick later: a recent entry is one older.
    fn tick(mut self) -> Self
        ensures { entry_of result ≡ aged_entry (entry_of self) }
    {
        if self.is_recent() && self.age.0 < Age::LAST {
            self.age.0 += 1;
        }
        self
    }
}

impl Entries {
    // (Not N for every list: a constant of an impl with a const parameter is a call, whose value the proofs do not have.)
    pub const LIMIT: usize = 16;

    pub fn none() -> Self
        ensures { entries_of result ≡ [] }
    {
        Few::empty(Entry::new(WriteId::blank()))
    }

    pub fn has(self, id: WriteId) -> bool
        requires { self.count ≤ entry_limit }
        ensures { result ≡ is_listed id (entries_of self) }
    {
        self.any(|e| e.id().same(id))
    }

    pub fn has_recent(self, id: WriteId) -> bool
        requires { self.count ≤ entry_limit }
        ensures { result ≡ is_recent_in id (entries_of self) }
    {
        self.any(|e| e.is_recent() && e.id().same(id))
    }

    pub fn has_recent_previous(self, p: Option<WriteId>) -> bool
        requires { self.count ≤ entry_limit }
        ensures { result ≡ previous_recent p (entries_of self) }
    {
        p.is_some_and(|id| self.has_recent(id))
    }

    pub fn has_old(self, id: WriteId) -> bool
        requires { self.count ≤ entry_limit }
        ensures { result ≡ is_old_in id (entries_of self) }
    {
        self.any(|e| !e.is_recent() && e.id().same(id))
    }

    pub fn has_due(self) -> bool
        requires { self.count ≤ entry_limit }
        ensures { result ≡ some_due (entries_of self) }
    {
        self.any(|e| e.is_recent() && Age::DUE <= e.age.0)
    }

    // Every call asks it.
    pub fn is_within(self, k: usize, m: usize) -> bool
        ensures { result ≡ (leb (length (entries_of self)) entry_limit && entries_within k m (entries_of self)) }
    {
        self.count <= Entries::LIMIT && self.all(|e| e.is_within(k, m))
    }

    // Searched from the end: the entry that came last is nearly always recent.
    pub fn last_recent(self) -> Option<WriteId>
        requires { self.count ≤ entry_limit }
        ensures { result ≡ last_recent (entries_of self) }
    {
        self.items[..self.count]
            .iter()
            .rev()
            .find(|e| e.is_recent())
            .map(|e| e.id())
    }

    // Every entry one tick later.
    pub fn tick(self) -> Self
        requires { self.count ≤ entry_limit }
        ensures { entries_of result ≡ aged (entries_of self) }
    {
        self.map(|e| e.tick())
    }

    // The id entered as recent.
    pub fn enter(self, id: WriteId) -> Self
        requires { self.count < entry_limit }
        ensures { entries_of result ≡ enter id (entries_of self) }
    {
        self.push(Entry::new(id))
    }

    pub fn mark_old(self, ids: Ids) -> Self
        requires { (self.count ≤ entry_limit) × (ids.count ≤ finished_limit) }
        ensures { entries_of result ≡ mark_old (ids_of ids) (entries_of self) }
    {
        self.map(|e| e.marked(ids))
    }

    pub fn discard(self, ids: Ids) -> Self
        requires { (self.count ≤ entry_limit) × (ids.count ≤ finished_limit) }
        ensures { entries_of result ≡ discard (ids_of ids) (entries_of self) }
    {
        let mut out = Entries::none();
        for e in &self.items[..self.count] {
            if e.is_kept(ids) {
                out = out.push(*e);
            }
        }
        out
    }
}
