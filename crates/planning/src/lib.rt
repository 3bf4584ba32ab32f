// The planning call (change request C-16): how large groups of redundant nodes may be, for so many stopped clients.
#![tactic(auto)]

ghost use Rattle.std.specs.Prelude.{◌≡◌, ◌≤◌, ◌<◌};
ghost use Rattle.std.proofs.Math.IntN.{sub_ℕ};
ghost use Rattle.planning.specs.Planning.{redundant_limit, stop_limit, serial_limit, every_at_most, plan_of, plan_number, refusal_number};

use groups::Groups;

// The serial limit, and whether every group is at most that.
#[derive(Clone, Copy, PartialEq, Eq, Debug)]
pub struct Planned {
    pub limit: i64,
    pub kept: bool,
}

// Why there is no plan.
#[derive(Clone, Copy, PartialEq, Eq, Debug)]
pub enum PlanRefusal {
    // The sizes or the number of stopped clients are outside the limits.
    OutOfLimits,
}

impl PlanRefusal {
    // The number of the refusal.
    pub fn number(self) -> u8
        ensures { result ≡ refusal_number self }
    {
        match self {
            PlanRefusal::OutOfLimits => 1,
        }
    }
}

// The number of an answer: 0 if there is a plan.
pub fn number(answer: Result<Planned, PlanRefusal>) -> u8
    ensures { result ≡ plan_number answer }
{
    match answer {
        Ok(_) => 0,
        Err(refusal) => refusal.number(),
    }
}

// The most redundant nodes that a stripe has.
const REDUNDANT_MOST: usize = 6;

// The most stopped clients that are planned for.
const STOPS_MOST: usize = 6;

// The most that t_p / 2 takes off: with this added no limit is negative.
const RAISE: usize = 3;

// The serial limit and RAISE: the fractions over 2 * (stops + 1), rounded up.
fn raised_limit(redundant: usize, stops: usize) -> usize
    requires { (redundant ≤ redundant_limit) × (stops ≤ stop_limit) }
    ensures { (sub_ℕ result 3 ≡ serial_limit redundant stops) × (result < 10) }
{
    let denominator = 2 * (stops + 1);
    let numerator = 2 * redundant + (stops + 1) * (2 * RAISE - stops);
    (numerator + denominator - 1) / denominator
}

// A limit without RAISE.
fn lowered(raised: usize) -> i64
    requires { raised < 10 }
    ensures { result ≡ sub_ℕ raised 3 }
{
    raised as i64 - RAISE as i64
}

// Whether every group is at most the limit.
fn every_at_most(limit: i64, sizes: &[u8]) -> bool
    ensures { result ≡ every_at_most limit sizes.now }
{
    sizes.iter().all(|size| *size as i64 <= limit)
}

// The plan for groups of these sizes, of so many redundant nodes, and for so many stopped clients.
pub fn plan(redundant: usize, sizes: &[u8], stops: usize) -> Result<Planned, PlanRefusal>
    ensures { result ≡ plan_of redundant sizes.now stops }
{
    if redundant == 0 || REDUNDANT_MOST < redundant {
        return Err(PlanRefusal::OutOfLimits);
    }
    if !Groups::of(sizes).fit(redundant) || STOPS_MOST < stops {
        return Err(PlanRefusal::OutOfLimits);
    }
    let limit = lowered(raised_limit(redundant, stops));
    Ok(Planned {
        limit,
        kept: every_at_most(limit, sizes),
    })
}
