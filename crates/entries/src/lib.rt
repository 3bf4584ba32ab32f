// What the lists of a stripe are made of: write ids, entries, a node's list of entries, a client's list of ids.
// The types are here; their methods, each with self by value, are in a file for each list.
#![tactic(auto)]

mod fixed; // fixed.rt: a list of up to N items
mod node_entries; // node_entries.rt: an entry, a node's list of entries
mod write_ids; // write_ids.rt: a write id, a client's list of ids

ghost use Rattle.std.specs.Prelude.{◌≡◌};
ghost use Rattle.entries.specs.Entries.{is_up_to};

// A client's count of its writes.
#[derive(Clone, Copy)]
pub struct WriteNumber(pub u32);

// A node's count of the rebuilds that it went through.
#[derive(Clone, Copy)]
pub struct Epoch(pub u32);

// How many ticks an entry has seen while it was recent, 255 at most.
#[derive(Clone, Copy)]
pub struct Age(pub u8);

impl WriteNumber {
    // Numbers are from 0, so the last is one less.
    pub const LIMIT: u32 = 1_000_000;
}

impl Age {
    pub const LAST: u8 = 255;

    pub const DUE: u8 = 64;
}

#[derive(Clone, Copy)]
pub struct WriteId {
    pub client: u8,
    pub position: u8,
    pub number: WriteNumber,
}

#[derive(Clone, Copy)]
pub enum Mark {
    Recent,
    Old,
}

// A write id, its mark and its age, in eight bytes.
#[derive(Clone, Copy)]
pub struct Entry {
    pub number: WriteNumber,
    pub client: u8,
    pub position: u8,
    pub mark: Mark,
    pub age: Age,
}

// A list: the first count items. A record from elsewhere may have any count, so a count within the array is asked where it is needed, and is no invariant.
#[derive(Clone, Copy)]
pub struct Few<T: Copy, const N: usize> {
    pub items: [T; N],
    pub count: usize,
}

// A node's entries in order of arrival.
pub type Entries = Few<Entry, 16>;

// A client's list of ids.
pub type Ids = Few<WriteId, 8>;

// Whether x is one of 1 to n.
pub fn is_up_to(x: u8, n: usize) -> bool
    ensures { result ≡ is_up_to n x }
{
    1 <= x && x as usize <= n
}
