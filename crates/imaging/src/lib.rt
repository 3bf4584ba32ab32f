// Change request C-13: a stripe is written to an image (docs/IMAGE.md), by value.
#![tactic(auto)]

mod fits; // fits.rt: whether a stripe may be written
mod head; // head.rt: the header and the sizes
mod sections; // sections.rt: the tables of records

ghost use Rattle.std.specs.Prelude.{true, [], ◌≡◌, length};
ghost use Rattle.calls.specs.Answers.{Meets};
ghost use Rattle.image.specs.Image.{image, image_length, writable};
ghost use Rattle.step.specs.View.{stripe_of};
ghost use Rattle.imaging.specs.Imaging.{written};

use calls::Answer;
use fits::is_writable;
use head::{put_header, sizes_bytes};
use image::{HEADER, Places, SIZES};
use octets::put;
use records::{Refusal, Sizes};
use sections::put_records;
use step::Stripe;

// The sections, one after the other.
fn put_image(
    z: Sizes,
    stripe: Stripe,
    blocks: &[u8],
    differences: &[u8],
    spare: &[u8],
    out: &mut [u8],
)
    requires { (writable z (stripe_of z stripe blocks.now spare.now differences.now) ≡ true) × (length out.old ≡ image_length z) }
    ensures { out.new ≡ image z (stripe_of z stripe blocks.now spare.now differences.now) }
{
    let p = Places::of(z);
    put_header(out, z);
    put(out, HEADER, &sizes_bytes(z));
    put_records(out, HEADER + SIZES, &stripe.nodes.items[..z.n]);
    put_records(out, p.clients, &stripe.clients.items[..z.m]);
    put(out, p.blocks, blocks);
    put(out, p.differences, differences);
    put(out, p.spare, spare);
}

// The image of the stripe, into out, which must be exactly as long.
pub fn write(
    z: Sizes,
    stripe: Stripe,
    blocks: &[u8],
    differences: &[u8],
    spare: &[u8],
    out: &mut [u8],
) -> Answer
    ensures { Meets (written z (stripe_of z stripe blocks.now spare.now differences.now) out.old)
        result [] out.new (out.new ≡ out.old) }
{
    if !is_writable(z, stripe, blocks, differences, spare) || out.len() != image::length(z) {
        return Answer::Refused(Refusal::OutOfLimits);
    }
    put_image(z, stripe, blocks, differences, spare, out);
    Answer::Accepted
}
