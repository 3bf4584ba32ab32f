// Whether the lengths of the tables that a call is lent fit the sizes, which are within the limits.
ghost use Rattle.std.specs.Prelude.{true, ◌&&◌, ◌≡◌, ◌*◌, eqb};
ghost use Rattle.records.specs.Sizes.{sizes_within};

use records::Sizes;

// A block for each node.
pub fn are_blocks(length: usize, z: Sizes) -> bool
    requires { sizes_within z ≡ true }
    ensures { result ≡ eqb length (z.n * z.b) }
{
    length == z.n * z.b
}

// A difference for each client.
fn are_differences(length: usize, z: Sizes) -> bool
    requires { sizes_within z ≡ true }
    ensures { result ≡ eqb length (z.m * z.b) }
{
    length == z.m * z.b
}

pub fn are_tables(blocks: usize, differences: usize, z: Sizes) -> bool
    requires { sizes_within z ≡ true }
    ensures { result ≡ (eqb blocks (z.n * z.b) && eqb differences (z.m * z.b)) }
{
    are_blocks(blocks, z) && are_differences(differences, z)
}
