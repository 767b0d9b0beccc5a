//! Chunks that are put among the cells of an array. Used when all cells are read.
ghost use Rattle.std.specs.Prelude.{◌≡◌, ◌+◌, ◌*◌, ◌≤◌, ◌<◌, ◌-◌, ◌++◌, length, replicate, pos, vec_capacity};
ghost use Rattle.lists.specs.Numbers.{product};
ghost use Rattle.chunk_copies.specs.Placing.{PlacesChunk};
ghost use Rattle.layouts.specs.Chunks as chunks;

use crate::boxes::{Stretch, copy_to_first};
use cells::Cell;
use layouts::{Cut, Layout};

/// Puts the cells of chunk `n` in their places among the cells of the array. The cells of the chunk are row-major, with
/// padding. Padding is not copied. `cells` has the first cells of the array, row-major, without padding. If they end
/// before the last cell of the chunk, zeros are appended first. There has to be room for all cells of the array.
pub fn place_chunk(layout: &Layout, n: u32, chunk: &[Cell], cells: &mut Vec<Cell>)
    requires chunk { n < chunks.chunk_count layout.now }
    requires long { length chunk.now ≡ chunks.chunk_cells layout.now }
    requires few { length cells.old.items ≤ product layout.now.extents }
    requires room { product layout.now.extents ≤ vec_capacity cells.old }
    ensures placed { PlacesChunk layout.now n chunk.now cells.old.items cells.new.items }
    ensures room { vec_capacity cells.old ≤ vec_capacity cells.new }
{
    let _cells = layout.cells();
    let [a, b, c] = &layout.cuts(n);
    let end = a.to as usize * (b.extent as usize * c.extent as usize);
    reach(cells, end);
    let first = Cut { extent: a.to, ..*a };
    let ways = [to_array(&first), to_array(b), to_array(c)];
    copy_to_first(&ways, chunk, end, cells.as_mut_slice());
}

/// Appends zeros until there are `end` cells, if there are fewer. There has to be room for them.
fn reach(cells: &mut Vec<Cell>, end: usize)
    requires { end ≤ vec_capacity cells.old }
    ensures cells { cells.new.items ≡ cells.old.items ++ replicate (end - length cells.old.items) (record { 0 = pos 0 }) }
    ensures room { vec_capacity cells.old ≤ vec_capacity cells.new }
{
    if cells.len() < end {
        cells.resize(end, Cell(0)).unwrap();
    }
}

/// From the chunk to the array, in one dimension.
fn to_array(cut: &Cut) -> Stretch
    requires { cut.now.from ≤ cut.now.to }
    ensures { result ≡ record { count = cut.now.to - cut.now.from; source = cut.now.length; from = 0; target = cut.now.extent; to = cut.now.from } }
{
    Stretch {
        count: cut.to - cut.from,
        source: cut.length,
        from: 0,
        target: cut.extent,
        to: cut.from,
    }
}
