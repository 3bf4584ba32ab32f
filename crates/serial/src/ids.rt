// Write ids, and a client's list of them.
ghost use Rattle.std.specs.Prelude.{◌≡◌, ◌≤◌};
ghost use Rattle.entries.specs.Entries.{finished_limit};
ghost use Rattle.entries.specs.View.{blank_id, ids_of};
ghost use Rattle.image.specs.Records.{id_bytes, ids_bytes};

use entries::{Ids, WriteId, WriteNumber};
use octets::{put, word_bytes};

pub(crate) fn blank_id() -> WriteId
    ensures { result ≡ blank_id }
{
    WriteId {
        client: 0,
        position: 0,
        number: WriteNumber(0),
    }
}

pub(crate) fn id_bytes(x: WriteId) -> [u8; 6]
    ensures { result ≡ id_bytes x }
{
    let n = word_bytes(x.number.0);
    [x.client, x.position, n[0], n[1], n[2], n[3]]
}

// The count, and the slots.
pub(crate) fn ids_bytes(s: Ids) -> [u8; 49]
    requires { s.count ≤ finished_limit }
    ensures { result ≡ ids_bytes (ids_of s) }
{
    let mut out = [0u8; 49];
    out[0] = s.count as u8;
    // (By the place, at which the bytes are put too.)
    for i in 0..Ids::LIMIT {
        let x = if i < s.count { s.items[i] } else { blank_id() };
        put(&mut out, 1 + i * 6, &id_bytes(x));
    }
    out
}
