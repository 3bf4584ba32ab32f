// The image of a stripe (docs/IMAGE.md). What it is, and what is proved of it, are in specs and proofs; here is where its sections begin, and its length.
#![tactic(auto)]

ghost use Rattle.std.specs.Prelude.{true, ◌≡◌, ◌*◌, ◌≤◌};
ghost use Rattle.records.specs.Sizes.{node_limit, block_limit, sizes_within};
ghost use Rattle.image.specs.Places.{length_by, places_of};

use records::Sizes;

// The widths of the header, of the sizes, of a node's and of a client's record, in bytes.
pub const HEADER: usize = 52;

pub const SIZES: usize = 8;

pub const NODE: usize = 140;

pub const CLIENT: usize = 135;

// The longest image: of 18 nodes and 8 clients, with blocks of 4,096 bytes.
pub const MOST: usize = 183_884;

// Where the sections after the node records begin, and where the image ends. The node records follow the header and the sizes.
#[derive(Clone, Copy)]
pub struct Places {
    pub clients: usize,
    pub blocks: usize,
    pub differences: usize,
    pub spare: usize,
    pub end: usize,
}

// So many items of one width.
fn times(count: usize, width: usize) -> usize
    requires { (count ≤ node_limit) × (width ≤ block_limit) }
    ensures { (result ≡ count * width) × (result ≤ 73728) }
{
    count * width
}

impl Places {
    // Of sizes that are within the limits.
    pub fn of(z: Sizes) -> Self
        requires { sizes_within z ≡ true }
        ensures { result ≡ places_of z }
    {
        let table = times(z.n, z.b);
        let clients = HEADER + SIZES + times(z.n, NODE);
        let blocks = clients + times(z.m, CLIENT);
        let differences = blocks + table;
        let spare = differences + times(z.m, z.b);
        Places {
            clients,
            blocks,
            differences,
            spare,
            end: spare + table,
        }
    }
}

// The length of the image; 0 for sizes outside the limits, which have none. (No Option: C has it as a number, mezgaudre_image_length.)
pub fn length(z: Sizes) -> usize
    ensures { result ≡ length_by z }
{
    if z.within() { Places::of(z).end } else { 0 }
}
