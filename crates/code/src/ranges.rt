// "k is 2 to 12; n-k is 1 to 6 and at most k; block length B is 1 to 4,096".
ghost use Rattle.std.specs.Prelude.{◌≡◌};
ghost use Rattle.code.specs.Code.{code_sizes};

// The limits of the code's sizes.
#[derive(Clone, Copy)]
pub struct Limits {}

impl Limits {
    pub const DATA_LEAST: usize = 2;

    pub const DATA_MOST: usize = 12;

    pub const REDUNDANT_MOST: usize = 6;

    pub const BLOCK_MOST: usize = 4096;

    // Whether the code has k data blocks of n, each of b bytes. (In one &&, or with (a..=b).contains(&k), the proof did not close.)
    pub fn hold(k: usize, n: usize, b: usize) -> bool
        ensures { result ≡ code_sizes k n b }
    {
        if k < Limits::DATA_LEAST || Limits::DATA_MOST < k {
            return false;
        }
        if n <= k || Limits::REDUNDANT_MOST < n - k || k < n - k {
            return false;
        }
        1 <= b && b <= Limits::BLOCK_MOST
    }
}
