//! Tiles: rectangles of one size that cover an array and are cut to it.
//! Used in this crate by `layout` and `lengths`.
ghost use Rattle.std.specs.Prelude.{◌≡◌, ◌+◌, ◌*◌, ◌≤◌, ◌<◌, ◌^◌, min, [], ◌∷◌, All, true};
ghost use Rattle.grids.specs.Tiles.{pieces_of, tile_after, grid_of, tile_count, tile_of, index_in_tile, tile_coordinates};
ghost use Rattle.lists.specs.Numbers.{product};
ghost use Rattle.grids.specs.Coordinates.{in_bounds};
ghost use Rattle.layouts.specs.Chunks.{tile_rect};
ghost use Rattle.layouts.specs.Meeting.{tiles_meeting};

use cells::{Rect, Shape};

/// How many tiles of these lengths cover these extents, in each dimension.
pub(crate) fn grid_of(extents: &[u32; 3], lengths: &[u32; 3]) -> [u32; 3]
    requires { All (λ m. 1 ≤ m) lengths.now }
    ensures { result ≡ grid_of extents.now lengths.now }
{
    let [n, n_2, n_3] = *extents;
    let [m, m_2, m_3] = *lengths;
    [n.div_ceil(m), n_2.div_ceil(m_2), n_3.div_ceil(m_3)]
}

/// The number of the tile in which a cell lies, row-major.
pub(crate) fn tile_of(extents: &[u32; 3], lengths: &[u32; 3], at: [u32; 3]) -> u32
    requires lengths { All (λ m. 1 ≤ m) lengths.now }
    requires in_bounds { in_bounds extents.now at ≡ true }
    requires few { tile_count extents.now lengths.now ≤ 2 ^ 32 }
    ensures tile { result ≡ tile_of extents.now lengths.now at }
    ensures below { result < tile_count extents.now lengths.now }
{
    let [m, m_2, m_3] = *lengths;
    let [c, c_2, c_3] = at;
    let extents = grid_of(extents, lengths);
    let grid = Shape { extents };
    grid.index_of([c / m, c_2 / m_2, c_3 / m_3]) as u32
}

/// The index of a cell within its tile, as if the tile were not cut.
pub(crate) fn index_in_tile(lengths: &[u32; 3], at: [u32; 3]) -> u32
    requires lengths { All (λ m. 1 ≤ m) lengths.now }
    requires few { product lengths.now ≤ 2 ^ 32 }
    ensures index { result ≡ index_in_tile lengths.now at }
    ensures below { result < product lengths.now }
{
    let [m, m_2, m_3] = *lengths;
    let [c, c_2, c_3] = at;
    let tile = Shape { extents: *lengths };
    tile.index_of([c % m, c_2 % m_2, c_3 % m_3]) as u32
}

/// The cells of a tile, cut to the extents.
pub(crate) fn tile_rect(extents: &[u32; 3], lengths: &[u32; 3], t: u32) -> Rect
    requires lengths { All (λ m. 1 ≤ m) lengths.now }
    requires tile { t < tile_count extents.now lengths.now }
    ensures { result ≡ tile_rect extents.now lengths.now t }
{
    let [n, n_2, n_3] = *extents;
    let [m, m_2, m_3] = *lengths;
    let [q, q_2, q_3] = tile_coordinates(extents, lengths, t);
    let [f, t] = piece(n, m, q);
    let [f_2, t_2] = piece(n_2, m_2, q_2);
    let [f_3, t_3] = piece(n_3, m_3, q_3);
    Rect {
        from: [f, f_2, f_3],
        to: [t, t_2, t_3],
    }
}

/// The tiles of these lengths that meet a rectangle, as a rectangle of the grid.
pub(crate) fn tiles_meeting(lengths: &[u32; 3], r: &Rect) -> Rect
    requires { All (λ m. 1 ≤ m) lengths.now }
    ensures { result ≡ tiles_meeting lengths.now r.now }
{
    let [m, m_2, m_3] = *lengths;
    let [f, f_2, f_3] = r.from;
    let [t, t_2, t_3] = r.to;
    Rect {
        from: [f / m, f_2 / m_2, f_3 / m_3],
        to: [
            tile_after(f, t, m),
            tile_after(f_2, t_2, m_2),
            tile_after(f_3, t_3, m_3),
        ],
    }
}

/// In one dimension, the tile after the last one that has a coordinate from `from` up to `to`.
fn tile_after(from: u32, to: u32, length: u32) -> u32
    requires { 1 ≤ length }
    ensures { result ≡ tile_after from to length }
{
    if from < to {
        to.div_ceil(length)
    } else {
        from / length
    }
}

/// The coordinates of a tile in the grid.
fn tile_coordinates(extents: &[u32; 3], lengths: &[u32; 3], t: u32) -> [u32; 3]
    requires lengths { All (λ m. 1 ≤ m) lengths.now }
    requires tile { t < tile_count extents.now lengths.now }
    ensures tile { result ≡ tile_coordinates extents.now lengths.now t }
    ensures in_bounds { in_bounds (grid_of extents.now lengths.now) result ≡ true }
{
    let [_, g_2, g_3] = grid_of(extents, lengths);
    let row = t / g_3;
    [row / g_2, row % g_2, t % g_3]
}

/// The first coordinate of one of the pieces of this length that cover an extent, and the one past its last.
fn piece(extent: u32, length: u32, q: u32) -> [u32; 2]
    requires length { 1 ≤ length }
    requires piece { q < pieces_of extent length }
    ensures { result ≡ q * length ∷ min extent (q * length + length) ∷ [] }
{
    let from = q * length;
    [from, from + length.min(extent - from)]
}
