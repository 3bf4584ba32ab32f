// Sets of nodes, write ids and entries as texts. An empty set or list is `-`.
use code::NodeSet;
use entries::{Entries, Entry, Ids, WriteId};
use std::cmp::min;
use std::fmt;
use std::fmt::Display;
use std::io::{Result, Write};
use streams::output::put_list;

// A write's id: `client.position.number`.
#[derive(Clone, Copy)]
pub struct Id(pub WriteId);

impl Display for Id {
    fn fmt<W: fmt::Write>(&self, f: &mut fmt::Formatter<W>) -> fmt::Result {
        let id = self.0;
        write!(f, "{}.{}.{}", id.client, id.position, id.number.0)
    }
}

// The members in rising order, joined by `.`.
pub fn put_set<W: Write>(out: &mut W, set: NodeSet) -> Result<()> {
    let members = set.members();
    put_list(
        out,
        &members[..set.size()],
        ".",
        |out, j| write!(out, "{j}"),
    )
}

// The ids joined by `;`.
pub fn put_ids<W: Write>(out: &mut W, ids: Ids) -> Result<()> {
    let count = min(ids.count, Ids::LIMIT);
    put_list(
        out,
        &ids.items[..count],
        ";",
        |out, id| write!(out, "{}", Id(*id)),
    )
}

// The id, `R` for recent or `O` for old, and the age, joined by `.`.
fn put_entry<W: Write>(out: &mut W, entry: Entry) -> Result<()> {
    let mark = if entry.is_recent() { 'R' } else { 'O' };
    write!(out, "{}.{mark}.{}", Id(entry.id()), entry.age.0)
}

// The entries in order of arrival, joined by `;`.
pub fn put_entries<W: Write>(out: &mut W, entries: Entries) -> Result<()> {
    let count = min(entries.count, Entries::LIMIT);
    put_list(
        out,
        &entries.items[..count],
        ";",
        |out, entry| put_entry(out, *entry),
    )
}
