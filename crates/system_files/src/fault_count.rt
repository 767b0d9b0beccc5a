//! Counts of faults, for the shelf, the source and the sinks.
ghost use Rattle.std.specs.Prelude.{◌≡◌, ◌+◌, ◌-◌, ◌^◌, min};
ghost use Rattle.source_io.specs.Told.{Rose};

/// A count of faults after one more fault. It ends at `u64::MAX`.
pub fn one_more(faults: u64) -> u64
    ensures value { result ≡ min (faults + 1) (2 ^ 64 - 1) }
    ensures rose { Rose faults result }
{
    faults.saturating_add(1)
}
