// A set of nodes 1 to n as a number: node j is in it where bit n - j is set. So, of the sets of one size, those with larger numbers
// come first in the lexicographic order of their members.
ghost use Rattle.std.specs.Prelude.{◌≤◌};
ghost use Rattle.code.specs.Code.{node_limit};

use code::NodeSet;

pub fn contains(set: u32, n: usize, j: usize) -> bool
    requires { (j ≤ n) × (n ≤ node_limit) }
{
    (set >> (n - j)) % 2 == 1
}

// The members, rising, and zeros past the last.
pub fn members(set: u32, n: usize) -> [u8; NodeSet::NODES]
    requires { n ≤ node_limit }
{
    let mut members = [0u8; NodeSet::NODES];
    let mut size = 0;
    for i in 0..n {
        if contains(set, n, i + 1) {
            members[size] = i as u8 + 1;
            size += 1;
        }
    }
    members
}
