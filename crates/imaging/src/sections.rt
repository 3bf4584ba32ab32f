// The tables of records.
ghost use Rattle.std.specs.Prelude.{List, ℕ, ◌≡◌, ◌+◌, ◌*◌, ◌≤◌, get_or, length};
ghost use Rattle.std.specs.List.{All};
ghost use Rattle.entries.specs.Entries.{entry_limit, finished_limit};
ghost use Rattle.octets.specs.Octets.{joined, Put};
ghost use Rattle.image.specs.Records.{client_bytes, node_bytes};
ghost use Rattle.records.specs.Client.{remembered};
ghost use Rattle.records.specs.Sizes.{node_limit};
ghost use Rattle.records.specs.View.{client_of, node_of, rebuild_of};

use image::{CLIENT, NODE};
use octets::put;
use records::{ClientRecord, NodeRecord};

// A record that stands in an image as W bytes.
pub(crate) trait Imaged<const W: usize>: Copy {
    ghost fits: { Self → Type 0 };

    ghost shown: { Self → List ℕ };

    fn bytes(self) -> [u8; W]
        requires { fits self }
        ensures { result ≡ shown self };
}

impl Imaged<NODE> for NodeRecord {
    ghost fits = { λ x. x.entries.count ≤ entry_limit };

    ghost shown = { λ x. node_bytes (node_of x) };

    fn bytes(self) -> [u8; NODE] {
        serial::node_bytes(self)
    }
}

impl Imaged<CLIENT> for ClientRecord {
    ghost fits = { λ x. (x.finished.count ≤ finished_limit) × (x.moved.count ≤ finished_limit) × (length (remembered (rebuild_of x.phase)) ≤ node_limit) };

    ghost shown = { λ x. client_bytes (client_of x) };

    fn bytes(self) -> [u8; CLIENT] {
        serial::client_bytes(self)
    }
}

// The bytes of each record, one after the other from place `at` on.
pub(crate) fn put_records<const W: usize, T: Imaged<W>>(out: &mut [u8], at: usize, records: &[T])
    requires fit { All T.fits records.now }
    requires room { at + length records.now * W ≤ length out.old }
    ensures { (d : T) → Put out.old at (joined (length records.now) (λ i. T.shown (get_or records.now i d))) out.new }
{
    for (i, record) in records.iter().enumerate() {
        put(out, at + i * W, &record.bytes());
    }
}
