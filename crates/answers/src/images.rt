// The image of a stripe as text.
ghost use Rattle.std.specs.Prelude.{◌≤◌};
ghost use Rattle.image.specs.Places.{image_most};

use calls::Answer;
use records::Sizes;
use std::io::{Result, Write};
use step::Stripe;
use streams::output::put_bytes;

fn image_length(z: Sizes) -> usize
    ensures { result ≤ image_most }
{
    image::length(z)
}

// `0 image=HEX`, or the number of a refusal and `-`.
pub fn put_image<W: Write>(
    out: &mut W,
    z: Sizes,
    stripe: Stripe,
    blocks: &[u8],
    spare: &[u8],
    differences: &[u8],
) -> Result<()> {
    let mut buffer = [0u8; image::MOST];
    let image = &mut buffer[..image_length(z)];
    let answer = imaging::write(z, stripe, blocks, differences, spare, image);
    write!(out, "{} ", answer.number())?;
    if let Answer::Accepted = answer {
        write!(out, "image=")?;
        put_bytes(out, image)
    } else {
        write!(out, "-")
    }
}
