// GF(256), polynomial 0x11D: products and inverses by the tables of powers and logarithms. There is no test in them: what becomes of 0, which has
// no logarithm, is arithmetic.
#![tactic(auto)]

ghost use Rattle.std.specs.Prelude.{◌≡◌, ◌≤◌, ◌<◌};
ghost use Rattle.gf256.specs.Field;
ghost use Rattle.gf256.specs.Field.{IsPowers, IsLogarithms};

pub mod logarithms; // logarithms.rt: the logarithm table
pub mod powers; // powers.rt: the power table

// ---- 0

// 0 where a is 0, and else 1. (Numbers and no test or Option, here and below: a product has no branch.)
fn nonzero(a: u8) -> usize
    ensures { (result ≤ 1) × (a ≡ 0 → result ≡ 0) × (0 < a → result ≡ 1) }
{
    (a as usize + 255) / 256
}

// 0 where a is 0, and else r.
fn unless_zero(a: u8, r: u8) -> u8
    ensures { (a ≡ 0 → result ≡ 0) × (0 < a → result ≡ r) }
{
    nonzero(a) as u8 * r
}

// Where the logarithm of a stands; that of 1 where a is 0.
fn index(a: u8) -> usize
    ensures { (1 ≤ result) × (result < 256) × (a ≡ 0 → result ≡ 1) × (0 < a → result ≡ a) }
{
    a as usize + 1 - nonzero(a)
}

// ---- by tables that are lent: so a table is copied once for a call, and not for each product

// x^i, for any i.
pub fn power(powers: &[u8; 255], i: usize) -> u8
    requires { IsPowers powers.now }
    ensures { result ≡ Field.power i }
{
    powers[i % 255]
}

// The r below 255 with x^r = i. "Entry 0 is never used": i is at least 1.
pub fn logarithm(logarithms: &[u8; 256], i: usize) -> usize
    requires { IsLogarithms logarithms.now × (1 ≤ i) × (i < 256) }
    ensures { (result < 255) × (Field.power result ≡ i) }
{
    logarithms[i] as usize
}

// ---- by tables of their own, each on the stack for one function alone (docs/DECISIONS.md, "The field multiplication", says why)

fn own_power(i: usize) -> u8
    ensures { result ≡ Field.power i }
{
    let powers = powers::table();
    power(&powers, i)
}

fn own_logarithm(i: usize) -> usize
    requires { (1 ≤ i) × (i < 256) }
    ensures { (result < 255) × (Field.power result ≡ i) }
{
    let logarithms = logarithms::table();
    logarithm(&logarithms, i)
}

pub fn product(a: u8, b: u8) -> u8
    ensures { result ≡ Field.product a b }
{
    let logarithms = logarithms::table();
    let i = logarithm(&logarithms, index(a));
    let j = logarithm(&logarithms, index(b));
    unless_zero(a, unless_zero(b, own_power(i + j)))
}

// The inverse of a; 0 of 0.
pub fn inverse(a: u8) -> u8
    ensures { result ≡ Field.inverse a }
{
    let r = own_power(255 - own_logarithm(index(a)));
    unless_zero(a, r)
}

// x times a.
pub fn double(a: u8) -> u8
    ensures { result ≡ Field.double a }
{
    (a % 128 * 2) ^ (a / 128 * 29)
}
