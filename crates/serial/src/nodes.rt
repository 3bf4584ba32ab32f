// A node's record.
ghost use Rattle.std.specs.Prelude.{◌≡◌, ◌≤◌};
ghost use Rattle.entries.specs.Entries.{entry_limit, new_entry};
ghost use Rattle.entries.specs.View.{blank_id, entry_of, entries_of};
ghost use Rattle.records.specs.View.{node_of};
ghost use Rattle.image.specs.Records.{mark_byte, entry_bytes, opmode_byte, lmode_byte, holder_byte, entries_bytes, node_bytes};

use code::NodeSet;
use entries::{Age, Entries, Entry, Mark, WriteNumber};
use octets::{put, word_bytes};
use records::{Lmode, NodeRecord, Opmode};

fn mark_byte(mark: Mark) -> u8
    ensures { result ≡ mark_byte mark }
{
    mark as u8
}

fn opmode_byte(opmode: Opmode) -> u8
    ensures { result ≡ opmode_byte opmode }
{
    opmode as u8
}

fn lmode_byte(lmode: Lmode) -> u8
    ensures { result ≡ lmode_byte lmode }
{
    lmode as u8
}

fn holder_byte(holder: Option<u8>) -> u8
    ensures { result ≡ holder_byte holder }
{
    holder.unwrap_or(0)
}

fn entry_bytes(e: Entry) -> [u8; 8]
    ensures { result ≡ entry_bytes (entry_of e) }
{
    let n = word_bytes(e.number.0);
    [
        e.client,
        e.position,
        n[0],
        n[1],
        n[2],
        n[3],
        mark_byte(e.mark),
        e.age.0,
    ]
}

fn blank_entry() -> Entry
    ensures { entry_of result ≡ new_entry blank_id }
{
    Entry {
        number: WriteNumber(0),
        client: 0,
        position: 0,
        mark: Mark::Recent,
        age: Age(0),
    }
}

// The count, and the slots.
fn entries_bytes(s: Entries) -> [u8; 129]
    requires { s.count ≤ entry_limit }
    ensures { result ≡ entries_bytes (entries_of s) }
{
    let mut out = [0u8; 129];
    out[0] = s.count as u8;
    // (By the place, at which the bytes are put too.)
    for i in 0..Entries::LIMIT {
        let e = if i < s.count {
            s.items[i]
        } else {
            blank_entry()
        };
        put(&mut out, 1 + i * 8, &entry_bytes(e));
    }
    out
}

pub fn node_bytes(x: NodeRecord) -> [u8; 140]
    requires { x.entries.count ≤ entry_limit }
    ensures { result ≡ node_bytes (node_of x) }
{
    let e = word_bytes(x.epoch.0);
    let s = word_bytes(x.rset.first_bits(NodeSet::NODES));
    let head = [
        opmode_byte(x.opmode),
        lmode_byte(x.lmode),
        holder_byte(x.holder),
        e[0],
        e[1],
        e[2],
        e[3],
        s[0],
        s[1],
        s[2],
        s[3],
    ];
    let list = entries_bytes(x.entries);
    let mut out = [0u8; 140];
    put(&mut out, 0, &head);
    put(&mut out, 11, &list);
    out
}
