// Calls on lent tables, one after another, for the benchmark to time: by the entry points of one stripe, and by that of a volume. And images and reads
// of a stripe by value.
#![tactic(auto)]

mod images; // images.rt: images of a stripe by value
mod reads; // reads.rt: reads of a stripe by value
mod runs; // runs.rt: the calls
mod starts; // starts.rt: what each kind of work begins with
mod turns; // turns.rt: which call is next

use records::Sizes;

// Writes are those of client 1 at position 1, with their adds, and swept after each eight. Card is a card's failure, and then a rebuild of each stripe.
// Ticks and locks are on nodes with 16 entries each.
#[derive(Clone, Copy)]
enum Work {
    Dues,
    Swaps,
    Adds,
    Rebuild,
    Writes,
    Card,
    Ticks,
    Locks,
}

// Calls, one after another: `left` are left. They go round and round: the next is at place `at` of the places 0 to `last` of a round, and at place `pick` it
// is a pick. The number is that of the first refusal, or 0. The stripe is that of a volume.
#[derive(Clone, Copy)]
struct Run {
    pub z: Sizes,
    pub stripes: usize,
    pub stripe: usize,
    pub left: usize,
    pub work: Work,
    pub at: u8,
    pub last: u8,
    pub pick: u8,
    pub number: u8,
}
