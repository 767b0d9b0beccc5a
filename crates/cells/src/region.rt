//! Regions of arrays, given by a side in each dimension.
//! Used by `plain_enum`. No crate uses `rect_of` yet.
ghost use Rattle.std.specs.Prelude.{◌≡◌};
ghost use Rattle.cells.specs.Array as array;
ghost use Rattle.cells.specs.Rects as rects;

use crate::{Rect, Shape, Side};

/// Whether a region, given by its side in each dimension, has a cell and lies within an array of this shape.
pub fn is_proper(shape: &Shape, sides: &[Side; 3]) -> bool
    ensures { result ≡ array.is_proper shape.now.extents sides.now }
{
    let [n, n_2, n_3] = &shape.extents;
    let [s, s_2, s_3] = sides;
    fits(*n, s) && fits(*n_2, s_2) && fits(*n_3, s_3)
}

/// The cells of an array of this shape that lie in a region, given by its side in each dimension. The region may reach
/// out of the array, or have no cell.
pub fn rect_of(shape: &Shape, sides: &[Side; 3]) -> Rect
    ensures rect { result ≡ rects.rect_of shape.now.extents sides.now }
    ensures cut { rects.IsCutTo shape.now.extents result }
{
    let [n, n_2, n_3] = &shape.extents;
    let [s, s_2, s_3] = sides;
    Rect {
        from: [
            nearest(*n, &s.from),
            nearest(*n_2, &s_2.from),
            nearest(*n_3, &s_3.from),
        ],
        to: [
            nearest(*n, &s.to),
            nearest(*n_2, &s_2.to),
            nearest(*n_3, &s_3.to),
        ],
    }
}

/// The nearest coordinate from 0 to `n`.
fn nearest(n: u32, coordinate: &i64) -> u32
    ensures { result ≡ rects.nearest n coordinate.now }
{
    if *coordinate < 0 {
        0
    } else if *coordinate < n as i64 {
        *coordinate as u32
    } else {
        n
    }
}

/// Whether a side has a coordinate, and all its coordinates are within an extent of n.
fn fits(n: u32, s: &Side) -> bool
    ensures { result ≡ array.fits n s.now }
{
    0 <= s.from && s.from < s.to && s.to <= n as i64
}
