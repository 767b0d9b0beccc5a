//! Domains: the values that a variable may have. Boxes are lists of them.
ghost use Rattle.std.specs.Prelude.{◌≡◌, ◌<◌, ◌≤◌, ◌^◌, pos, ◌+ℤ◌};
ghost use Rattle.domains.specs.Values.{size_of};

/// The whole numbers from `lo` up to and including `hi`. If `lo` is above `hi`, there are none.
#[derive(Clone, Copy, Debug, PartialEq, Eq)]
pub struct Dom {
    /// The least value.
    pub lo: i32,
    /// The greatest value.
    pub hi: i32,
}

impl Dom {
    /// How many values it has. If `lo` is above `hi`, there are 0.
    pub fn count(&self) -> u64
        ensures size { result ≡ size_of self.now }
        ensures small { result ≤ 2 ^ 32 }
    {
        if self.lo <= self.hi {
            u64::from(self.hi.abs_diff(self.lo)) + 1
        } else {
            0
        }
    }

    /// The value at an index, from 0.
    #[tactic(auto, using(crate::proofs::Values::value_below))]
    pub fn value(&self, k: u64) -> i32
        requires { k < size_of self.now }
        ensures { result ≡ self.now.lo +ℤ pos k }
    {
        let _hi = self.hi;
        (i64::from(self.lo) + k as i64) as i32
    }
}
