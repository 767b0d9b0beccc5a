//! The record of some cells, one cell after the other, for cells that are too few for lanes.
ghost use Rattle.std.specs.Prelude.{◌≡◌, ◌≤◌, ◌*◌, ◌^◌, length, filter_map};
ghost use Rattle.lists.specs.Numbers.{IsWithin};
ghost use Rattle.cells.specs.Cells.{cell_value};
ghost use Rattle.cells.specs.Records.{record_of};

use cells::{Cell, NOTHING, Record};

/// The record of these cells, at most 2^26, in one pass.
pub fn fold(cells: &[Cell]) -> Record
    requires { length cells.now ≤ 2 ^ 26 }
    ensures record { result ≡ record_of (filter_map cell_value cells.now) }
    ensures few { result.count ≤ length cells.now }
    ensures each { IsWithin result.sum (2 ^ 31 * result.count) }
    ensures within { IsWithin result.sum (2 ^ 57) }
{
    let mut least = i32::MAX;
    let mut greatest = i32::MIN;
    let mut sum = 0;
    let mut count = 0;
    for c in cells {
        let value = c.value();
        least = least.min(value.unwrap_or(i32::MAX));
        greatest = greatest.max(value.unwrap_or(i32::MIN));
        sum += value.unwrap_or(0) as i64;
        count += value.is_some() as u32;
    }
    if count == 0 {
        NOTHING
    } else {
        Record {
            least,
            greatest,
            sum,
            count,
        }
    }
}
