// Where a volume's blocks are: the stripe and the position of a block, the card of a node, the node on a card.
#![tactic(auto)]

ghost use Rattle.std.specs.Prelude.{◌≡◌};
ghost use Rattle.layout.specs.Layout.{home_of, is_one_of, card_for, node_for};

use code::{Limits, NodeSet};

// A position of a stripe; stripes are counted from 0, positions from 1.
#[derive(Clone, Copy, PartialEq, Eq, Debug)]
pub struct Home {
    pub stripe: usize,
    pub position: u8,
}

// Block b's, counted from 0; position 0 if k is not 1 to 12. (0 and no Option, here and below: C has these as numbers, mezgaudre_block_position,
// mezgaudre_card, mezgaudre_node_on.)
pub fn block_home(k: usize, b: usize) -> Home
    ensures { result ≡ home_of k b }
{
    if k == 0 || Limits::DATA_MOST < k {
        return Home {
            stripe: 0,
            position: 0,
        };
    }
    Home {
        stripe: b / k,
        position: (b % k) as u8 + 1,
    }
}

// Whether j is one of 1 to n, and n one of 0 to 18.
fn is_one_of(n: usize, j: u8) -> bool
    ensures { result ≡ is_one_of n j }
{
    n <= NodeSet::NODES && (1 <= j && j as usize <= n)
}

// The card of node j of stripe s; 0 if j is not 1 to n.
pub fn card(n: usize, s: usize, j: u8) -> u8
    ensures { result ≡ card_for n s j }
{
    if !is_one_of(n, j) {
        return 0;
    }
    let turned = j as usize - 1 + s % n;
    (turned % n) as u8 + 1
}

// The node of stripe s on the card; 0 if the card is not 1 to n.
pub fn node_on(n: usize, s: usize, card: u8) -> u8
    ensures { result ≡ node_for n s card }
{
    if !is_one_of(n, card) {
        return 0;
    }
    let turned = card as usize - 1 + (n - s % n);
    (turned % n) as u8 + 1
}
