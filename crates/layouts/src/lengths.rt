//! Three lengths from 1 to 2^20, of an array, a chunk or a block.
//! Used in this crate by `layout` and `numbers`.
ghost use Rattle.std.specs.Prelude.{◌≡◌, ◌≤◌};
ghost use Rattle.lists.specs.Numbers.{product};
ghost use Rattle.layouts.specs.Rules.{AreLengths};
ghost use Rattle.grids.specs.Tiles.{tile_count};

use crate::tiles::grid_of;

/// Their product.
pub(crate) fn product(lengths: &[u32; 3]) -> u64
    requires { AreLengths lengths.now }
    ensures product { result ≡ product lengths.now }
    ensures some { 1 ≤ result }
    ensures few { result ≤ 1152921504606846976 }
{
    let [n, n_2, n_3] = *lengths;
    u64::from(n) * u64::from(n_2) * u64::from(n_3)
}

/// How many tiles of these lengths cover these extents.
pub(crate) fn tile_count(extents: &[u32; 3], lengths: &[u32; 3]) -> u64
    requires extents { AreLengths extents.now }
    requires lengths { AreLengths lengths.now }
    ensures count { result ≡ tile_count extents.now lengths.now }
    ensures some { 1 ≤ result }
    ensures few { result ≤ 1152921504606846976 }
    ensures fewer { result ≤ product extents.now }
{
    product(&grid_of(extents, lengths))
}
