// Write ids, and a client's list of them.
ghost use Rattle.std.specs.Prelude.{◌&&◌, [], ◌≡◌, ◌≤◌, leb, length};
ghost use Rattle.entries.specs.Entries.{finished_limit, same_id, is_in, id_within, ids_within};
ghost use Rattle.entries.specs.View.{ids_of};

use crate::{Few, Ids, WriteId, WriteNumber, is_up_to};

impl WriteId {
    pub(crate) fn blank() -> Self {
        WriteId {
            client: 0,
            position: 0,
            number: WriteNumber(0),
        }
    }

    #[tactic(auto, unfolding(crate::specs::Entries::same_id))]
    pub fn same(self, other: WriteId) -> bool
        ensures { result ≡ same_id self other }
    {
        self.client == other.client
            && (self.position == other.position && self.number.0 == other.number.0)
    }

    // Of one of m clients, at one of k positions.
    #[tactic(auto, unfolding(crate::specs::Entries::id_within))]
    pub fn is_within(self, k: usize, m: usize) -> bool
        ensures { result ≡ id_within k m self }
    {
        is_up_to(self.client, m)
            && (is_up_to(self.position, k) && self.number.0 < WriteNumber::LIMIT)
    }
}

// A list of ids: a client's, or a node's recent ones.
impl<const N: usize> Few<WriteId, N> {
    pub fn none() -> Self
        ensures { ids_of result ≡ [] }
    {
        Few::empty(WriteId::blank())
    }

    pub fn has(self, id: WriteId) -> bool
        requires { self.count ≤ N }
        ensures { result ≡ is_in id (ids_of self.entry) }
    {
        self.any(|other| other.same(id))
    }
}

impl Ids {
    pub const LIMIT: usize = 8;

    pub fn is_within(self, k: usize, m: usize) -> bool
        ensures { result ≡ (leb (length (ids_of self)) finished_limit && ids_within k m (ids_of self)) }
    {
        self.count <= Ids::LIMIT && self.all(|id| id.is_within(k, m))
    }
}
