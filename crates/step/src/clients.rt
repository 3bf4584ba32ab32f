// The records of all clients of a stripe, by value.
ghost use Rattle.std.specs.Prelude.{◌≡◌, ℕ, ◌≤◌, replicate};
ghost use Rattle.machine.specs.Stripe.{client_at};
ghost use Rattle.basics.specs.Lists.{set_at};
ghost use Rattle.records.specs.Client.{fresh_client};
ghost use Rattle.records.specs.View.{client_of};
ghost use Rattle.records.specs.Sizes.{client_limit};
ghost use Rattle.step.specs.View.{clients_of};

use crate::record_at;
use records::{ClientRecord, Sizes};

// Client c is item c - 1; a stripe of m clients has the first m items.
#[derive(Clone, Copy)]
pub struct Clients {
    pub items: [ClientRecord; Sizes::CLIENTS],
}

impl Clients {
    pub fn fresh() -> Self
        ensures { (m : ℕ) → m ≤ client_limit → clients_of m result ≡ replicate m fresh_client }
    {
        Clients {
            items: [ClientRecord::fresh(); Sizes::CLIENTS],
        }
    }

    // The record of client c, or a fresh one where there is no such client.
    pub fn get(self, m: usize, c: u8) -> ClientRecord
        requires { m ≤ client_limit }
        ensures { client_of result ≡ client_at (clients_of m self) c }
    {
        record_at(&self.items[..m], c as usize, ClientRecord::fresh())
    }

    // Not by put_at on a part of the array: that proof did not close, as it has no name for the array after a store through a part.
    pub fn set(mut self, m: usize, c: u8, client: ClientRecord) -> Self
        requires { m ≤ client_limit }
        ensures { clients_of m result ≡ set_at (clients_of m self) c (client_of client) }
    {
        let j = c as usize;
        if j < 1 {
            return self;
        }
        if m < j {
            return self;
        }
        self.items[j - 1] = client;
        self
    }
}
