//! Chunks that are taken from the cells of an array. Used when array files are written.
ghost use Rattle.std.specs.Prelude.{◌≡◌, ◌≤◌, ◌<◌, ◌-◌, length};
ghost use Rattle.lists.specs.Numbers.{product};
ghost use Rattle.chunk_copies.specs.Placing.{chunk_of_cells};
ghost use Rattle.layouts.specs.Chunks as chunks;

use crate::boxes::{Stretch, copy_box};
use cells::{Cell, EMPTY};
use layouts::{Cut, Layout};

/// Takes the cells of chunk `n` from the cells of the array, which are row-major. The chunk then has its cells in
/// row-major order, with empty cells as padding. What it held before is lost.
pub fn take_chunk(layout: &Layout, n: u32, cells: &[Cell], chunk: &mut [Cell])
    requires chunk { n < chunks.chunk_count layout.now }
    requires all { length cells.now ≡ product layout.now.extents }
    requires long { length chunk.old ≡ chunks.chunk_cells layout.now }
    ensures taken { chunk.new ≡ chunk_of_cells layout.now cells.now n }
    ensures long { length chunk.new ≡ length chunk.old }
{
    let [a, b, c] = &layout.cuts(n);
    chunk.fill(EMPTY);
    copy_box(&[from_array(a), from_array(b), from_array(c)], cells, chunk);
}

/// From the array to the chunk, in one dimension.
fn from_array(cut: &Cut) -> Stretch
    requires { cut.now.from ≤ cut.now.to }
    ensures { result ≡ record { count = cut.now.to - cut.now.from; source = cut.now.extent; from = cut.now.from; target = cut.now.length; to = 0 } }
{
    Stretch {
        count: cut.to - cut.from,
        source: cut.extent,
        from: cut.from,
        target: cut.length,
        to: 0,
    }
}
