// Any call on a stripe by value: the records taken out, the call made, the records put back.
ghost use Rattle.std.specs.Prelude.{true, List, ◌≡◌, ℕ, ◌≤◌};
ghost use Rattle.calls.specs.Calls.{caller, looks_at_all};
ghost use Rattle.basics.specs.Lists.{set_at};
ghost use Rattle.records.specs.Sizes.{client_limit, node_limit, sizes_within};
ghost use Rattle.records.specs.View.{client_of, node_of};
ghost use Rattle.stripe.specs.Seen.{Sees, applied};
ghost use Rattle.stripe.specs.View.{nodes_of};
ghost use Rattle.step.specs.View.{clients_of, stored};
ghost use Rattle.step.specs.Plays.{Plays};

use crate::{Played, Stripe, nodes, read_answer, step};
use calls::{Answer, Call, StepCall};
use picking::Picked;
use rebuild::Stepped;
use records::{Refusal, Sizes};
use stripe::{Nodes, Seen};

// What a call is told of all nodes, if it looks at them.
fn see(z: Sizes, call: StepCall, nodes: Nodes) -> Seen
    ensures { looks_at_all call ≡ true → sizes_within z ≡ true → Sees z (caller call) (nodes_of z.n nodes) result }
{
    if call.looks_at_all() {
        nodes.see(z, call.caller())
    } else {
        Seen::none()
    }
}

// The stripe with the records that a call at node j handed back.
fn put(z: Sizes, call: StepCall, j: usize, stripe: Stripe, r: Stepped) -> Stripe
    requires { (z.n ≤ node_limit) × (z.m ≤ client_limit) }
    ensures nodes { nodes_of z.n result.nodes ≡ applied r.change (set_at (nodes_of z.n stripe.nodes) j (node_of r.node)) }
    ensures clients { clients_of z.m result.clients ≡ set_at (clients_of z.m stripe.clients) (caller call) (client_of r.client) }
{
    Stripe {
        nodes: nodes::set(stripe.nodes, z.n, j, r.node).change(z.n, r.change),
        clients: stripe.clients.set(z.m, call.caller(), r.client),
    }
}

// A call that is neither a read nor a pick.
fn play_step(
    z: Sizes,
    call: StepCall,
    value: &[u8],
    stripe: Stripe,
    blocks: &mut [u8],
    spare: &[u8],
    differences: &mut [u8],
) -> Played
    requires { sizes_within z ≡ true }
    ensures { Plays z (Call.Step call) value.now (stored stripe blocks.old spare.now differences.old)
        result.answer (stored result.stripe blocks.new spare.now differences.new) }
{
    let client = stripe.clients.get(z.m, call.caller());
    let j = call.target(z, client);
    let node = nodes::get(stripe.nodes, z.n, j);
    let seen = see(z, call, stripe.nodes);
    let r = step(
        z,
        call,
        seen,
        node,
        client,
        value,
        blocks,
        spare,
        differences,
    );
    let answer = r.answer;
    if answer.is_unchanged() {
        return Played { answer, stripe };
    }
    Played {
        answer,
        stripe: put(z, call, j, stripe, r),
    }
}

// The stripe with what a pick of client c handed back.
fn put_picked(z: Sizes, c: u8, stripe: Stripe, r: Picked) -> Stripe
    requires { (z.n ≤ node_limit) × (z.m ≤ client_limit) }
    ensures nodes { nodes_of z.n result.nodes ≡ applied r.change (nodes_of z.n stripe.nodes) }
    ensures clients { clients_of z.m result.clients ≡ set_at (clients_of z.m stripe.clients) c (client_of r.client) }
{
    Stripe {
        nodes: stripe.nodes.change(z.n, r.change),
        clients: stripe.clients.set(z.m, c, r.client),
    }
}

fn pick(z: Sizes, c: u8, stripe: Stripe, blocks: &[u8], spare: &mut [u8]) -> Played
    requires { sizes_within z ≡ true }
    ensures { (value differences : List ℕ) →
        Plays z (Call.Pick c) value (stored stripe blocks.now spare.old differences)
        result.answer (stored result.stripe blocks.now spare.new differences) }
{
    let client = stripe.clients.get(z.m, c);
    let r = picking::pick(z, c, stripe.nodes, client, blocks, spare);
    if r.answer.is_unchanged() {
        return Played {
            answer: r.answer,
            stripe,
        };
    }
    Played {
        answer: r.answer,
        stripe: put_picked(z, c, stripe, r),
    }
}

// Plays one call on the stripe and its tables. The block that a read shows is the part that its answer names.
pub fn play(
    z: Sizes,
    call: Call,
    value: &[u8],
    stripe: Stripe,
    blocks: &mut [u8],
    spare: &mut [u8],
    differences: &mut [u8],
) -> Played
    ensures { Plays z call value.now (stored stripe blocks.old spare.old differences.old)
        result.answer (stored result.stripe blocks.new spare.new differences.new) }
{
    if !z.within() {
        return Played {
            answer: Answer::Refused(Refusal::OutOfLimits),
            stripe,
        };
    }
    match call {
        Call::Read(i) => Played {
            answer: read_answer(z, i, stripe, blocks.len(), spare.len()),
            stripe,
        },
        Call::Pick(c) => pick(z, c, stripe, blocks, spare),
        Call::Step(call) => play_step(z, call, value, stripe, blocks, spare, differences),
    }
}
