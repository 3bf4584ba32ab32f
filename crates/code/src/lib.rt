// The code: its sizes, its coefficients, sets of nodes, and the refusals of encoding and decoding (which are in crate coding).
#![tactic(auto)]

ghost use Rattle.std.specs.Prelude.{◌≡◌, ◌≤◌};
ghost use Rattle.code.specs.Calls.{answer_number, code_number};
ghost use Rattle.code.specs.Code;

pub mod nodes; // nodes.rt: sets of nodes
pub mod ranges; // ranges.rt: the limits of the sizes

pub use nodes::NodeSet;
pub use ranges::Limits;

// Why encoding or decoding is refused.
#[derive(Clone, Copy, PartialEq, Eq, Debug)]
pub enum CodeRefusal {
    OutOfLimits,
    OutOfRange,
    TooFew(u8),
    NoInverse,
}

impl CodeRefusal {
    // The number of the refusal in document 01's table.
    pub fn number(self) -> u8
        ensures { result ≡ code_number self }
    {
        match self {
            CodeRefusal::OutOfLimits => 1,
            CodeRefusal::OutOfRange => 2,
            CodeRefusal::TooFew(_) => 11,
            CodeRefusal::NoInverse => 12,
        }
    }
}

// The number of an answer: 0 if the call is accepted.
pub fn number(answer: Result<(), CodeRefusal>) -> u8
    ensures { result ≡ answer_number answer }
{
    match answer {
        Ok(()) => 0,
        Err(refusal) => refusal.number(),
    }
}

// c(j,i).
pub fn coefficient(j: usize, i: usize) -> u8
    requires { (1 ≤ j) × (j ≤ 256) × (1 ≤ i) × (i ≤ 256) }
    ensures { result ≡ Code.coefficient j i }
{
    gf256::inverse((j - 1) as u8 ^ (i - 1) as u8)
}
