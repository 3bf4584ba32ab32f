// Pick.
ghost use Rattle.std.specs.Prelude.{◌≡◌};
ghost use Rattle.machine.specs.Rebuild as Rebuild;
ghost use Rattle.machine.specs.Rebuild.{pick_now};
ghost use Rattle.stripe.specs.Seen.{keep};
ghost use Rattle.rebuild.specs.Tables.{Tables};
ghost use Rattle.picking.specs.Picking.{pick_held, seen_whole, Picks, PickAdmitted};

use crate::Picked;
use calls::Answer;
use coding::recover_table;
use entries::Epoch;
use rebuild::is_picking;
use rebuild::tables::tabled_entrance;
use records::{ClientRecord, NodeRecord, Refusal, Sizes};
use stripe::{Change, Nodes};

impl Picked {
    // The very record.
    fn refused(client: ClientRecord, why: Refusal) -> Self
        ensures { result ≡ record { answer = Answer.Refused why; client = client; change = keep } }
    {
        Picked {
            answer: Answer::Refused(why),
            client: client,
            change: Change::keep(),
        }
    }
}

// A pick with all nodes held, once the largest epoch is known.
fn pick_held(
    z: Sizes,
    nodes: Nodes,
    client: ClientRecord,
    epoch: Epoch,
    blocks: &[u8],
    spare: &mut [u8],
) -> Picked
    requires { PickAdmitted z nodes × Tables z blocks.now spare.old }
    ensures { Picks (pick_held z epoch.0 (seen_whole z nodes client blocks.now spare.old)) z nodes client blocks.now spare.new result }
{
    let set = nodes.picked_set(z);
    let size = set.size();
    if size < nodes.needed_size(z) {
        return Picked::refused(client, Refusal::TooFew(size as u8));
    }
    recover_table(z.k, z.n, z.b, set, blocks, spare);
    Picked {
        answer: Answer::Accepted,
        client: client.pick(set, epoch),
        change: Change::keep(),
    }
}

// A pick in its phase.
fn pick_now(
    z: Sizes,
    c: u8,
    nodes: Nodes,
    client: ClientRecord,
    blocks: &[u8],
    spare: &mut [u8],
) -> Picked
    requires { PickAdmitted z nodes × Tables z blocks.now spare.old }
    ensures { Picks (pick_now z c (seen_whole z nodes client blocks.now spare.old)) z nodes client blocks.now spare.new result }
{
    let epoch = nodes.largest_epoch(z.n);
    if NodeRecord::EPOCHS <= epoch.0 {
        return Picked::refused(client, Refusal::Exhausted);
    }
    if nodes.all_held_at_l1(z.n, c) {
        pick_held(z, nodes, client, epoch, blocks, spare)
    } else {
        Picked {
            answer: Answer::Refused(Refusal::NotHeld),
            client: client.end_rebuild(),
            change: Change::expire(c),
        }
    }
}

// "The spare becomes the codeword decoded from the set; E = largest epoch."
pub fn pick(
    z: Sizes,
    c: u8,
    nodes: Nodes,
    client: ClientRecord,
    blocks: &[u8],
    spare: &mut [u8],
) -> Picked
    ensures { Picks (Rebuild.pick z c (seen_whole z nodes client blocks.now spare.old)) z nodes client blocks.now spare.new result }
{
    let seen = nodes.see(z, c);
    match tabled_entrance(z, c, seen, client, blocks, spare) {
        Err(why) => Picked::refused(client, why),
        Ok(()) => {
            if is_picking(client) {
                pick_now(z, c, nodes, client, blocks, spare)
            } else {
                Picked::refused(client, Refusal::OutOfPhase)
            }
        }
    }
}
