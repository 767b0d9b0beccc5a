//! Records: a summary of some cells.
//! Used by `cell_fold`, `plain_enum`, `chunk_store` and `search_run`.
ghost use Rattle.std.specs.Prelude.{◌≡◌, ◌≤◌, ◌+◌, ◌*◌, ◌^◌, ◌+ℤ◌, ◌==◌, ◌++◌, if◌then◌else◌, List, ℤ, FitsSigned};
ghost use Rattle.std.specs.Int.{w64};
ghost use Rattle.lists.specs.Numbers.{least_of, greatest_of, IsWithin, HaveSameItems};
ghost use Rattle.cells.specs.Records.{record_of, merged};

/// The least, the greatest, the sum and the number of the present cells among some cells. If there are none, all four
/// are 0.
#[derive(Clone, Copy, Debug, PartialEq, Eq)]
pub struct Record {
    /// The least number.
    pub least: i32,
    /// The greatest number.
    pub greatest: i32,
    /// The sum of the numbers.
    pub sum: i64,
    /// How many numbers there are.
    pub count: u32,
}

impl Record {
    /// The least number, or `None` exactly if there are no numbers.
    pub fn least_number(&self) -> Option<i32>
        ensures value { result ≡ (if self.now.count == 0 then None else Some self.now.least) }
        ensures meant { (numbers : List ℤ) → self.now ≡ record_of numbers → result ≡ least_of numbers }
    {
        if self.count == 0 {
            None
        } else {
            Some(self.least)
        }
    }

    /// The greatest number, or `None` exactly if there are no numbers.
    pub fn greatest_number(&self) -> Option<i32>
        ensures value { result ≡ (if self.now.count == 0 then None else Some self.now.greatest) }
        ensures meant { (numbers : List ℤ) → self.now ≡ record_of numbers → result ≡ greatest_of numbers }
    {
        if self.count == 0 {
            None
        } else {
            Some(self.greatest)
        }
    }
}

/// The record of no cells.
pub const NOTHING: Record = Record {
    least: 0,
    greatest: 0,
    sum: 0,
    count: 0,
};

/// The record of all cells of two records, if no cell is in both. They have at most 2^26 present cells, whose sum fits
/// in an `i64`.
pub fn merge(a: Record, b: Record) -> Record
    requires few { a.count + b.count ≤ 2 ^ 26 }
    requires sum { FitsSigned w64 (a.sum +ℤ b.sum) }
    ensures record { result ≡ merged a b }
    ensures meant { (xs ys all : List ℤ) → a ≡ record_of xs → b ≡ record_of ys → HaveSameItems all (xs ++ ys) → result ≡ record_of all }
    ensures count { result.count ≡ a.count + b.count }
    ensures each { IsWithin a.sum (2 ^ 31 * a.count) → IsWithin b.sum (2 ^ 31 * b.count) →
        IsWithin result.sum (2 ^ 31 * result.count) }
{
    if a.count == 0 {
        b
    } else if b.count == 0 {
        a
    } else {
        Record {
            least: a.least.min(b.least),
            greatest: a.greatest.max(b.greatest),
            sum: a.sum + b.sum,
            count: a.count + b.count,
        }
    }
}
