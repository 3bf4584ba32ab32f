// A client's record.
ghost use Rattle.std.specs.Prelude.{◌≡◌, ◌∷◌, ◌≤◌, length};
ghost use Rattle.entries.specs.Entries.{finished_limit};
ghost use Rattle.records.specs.Client.{remembered};
ghost use Rattle.records.specs.Sizes.{node_limit};
ghost use Rattle.records.specs.View.{write_of, hand_of, rebuild_of, client_of};
ghost use Rattle.image.specs.Records.{previous_tag, previous_id, write_bytes, hand_bytes, phase_bytes, rebuild_bytes, client_bytes};

use crate::ids::{blank_id, id_bytes, ids_bytes};
use code::NodeSet;
use entries::WriteId;
use octets::{put, word_bytes};
use records::{ClientRecord, Phase, Write};

fn previous_tag(p: Option<WriteId>) -> u8
    ensures { result ≡ previous_tag p }
{
    p.is_some() as u8
}

// Blank where there is none.
fn previous_id(p: Option<WriteId>) -> WriteId
    ensures { result ≡ previous_id p }
{
    p.unwrap_or(blank_id())
}

// A write in hand, with the tag before it.
fn write_bytes(w: Write) -> [u8; 22]
    ensures { result ≡ 1 ∷ write_bytes (write_of w) }
{
    let i = id_bytes(w.id);
    let p = id_bytes(previous_id(w.previous));
    let e = word_bytes(w.epoch.0);
    let d = word_bytes(w.done.first_bits(NodeSet::NODES));
    [
        1,
        i[0],
        i[1],
        i[2],
        i[3],
        i[4],
        i[5],
        previous_tag(w.previous),
        p[0],
        p[1],
        p[2],
        p[3],
        p[4],
        p[5],
        e[0],
        e[1],
        e[2],
        e[3],
        d[0],
        d[1],
        d[2],
        d[3],
    ]
}

fn hand_bytes(hand: Option<Write>) -> [u8; 22]
    ensures { result ≡ hand_bytes (hand_of hand) }
{
    match hand {
        None => [0u8; 22],
        Some(w) => write_bytes(w),
    }
}

// A phase, its node, its set and its epoch.
fn phase_bytes(phase: u8, node: u8, set: u32, epoch: u32) -> [u8; 10]
    ensures { result ≡ phase_bytes phase node set epoch }
{
    let s = word_bytes(set);
    let e = word_bytes(epoch);
    [phase, node, s[0], s[1], s[2], s[3], e[0], e[1], e[2], e[3]]
}

// While locking, the nodes that were EXP among those locked so far; a set may hold others, which mean nothing.
fn rebuild_bytes(phase: Phase) -> [u8; 10]
    requires { length (remembered (rebuild_of phase)) ≤ node_limit }
    ensures { result ≡ rebuild_bytes (rebuild_of phase) }
{
    match phase {
        Phase::NoRebuild => phase_bytes(0, 0, 0, 0),
        Phase::Locking(x, expired) => phase_bytes(1, x, expired.first_bits(x as usize), 0),
        Phase::Picking(j) => phase_bytes(2, j, 0, 0),
        Phase::Writing(j, set, e) => phase_bytes(3, j, set.first_bits(NodeSet::NODES), e.0),
        Phase::Settling(j, e) => phase_bytes(4, j, 0, e.0),
        Phase::Unlocking(j) => phase_bytes(5, j, 0, 0),
    }
}

pub fn client_bytes(x: ClientRecord) -> [u8; 135]
    requires { (x.finished.count ≤ finished_limit) × (x.moved.count ≤ finished_limit) × (length (remembered (rebuild_of x.phase)) ≤ node_limit) }
    ensures { result ≡ client_bytes (client_of x) }
{
    let h = hand_bytes(x.hand);
    let p = rebuild_bytes(x.phase);
    let n = word_bytes(x.next.0);
    let r = [x.round, n[0], n[1], n[2], n[3]];
    let f = ids_bytes(x.finished);
    let m = ids_bytes(x.moved);
    let mut out = [0u8; 135];
    put(&mut out, 0, &h);
    put(&mut out, 22, &p);
    put(&mut out, 32, &r);
    put(&mut out, 37, &f);
    put(&mut out, 86, &m);
    out
}
