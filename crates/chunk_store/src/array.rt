//! All cells of an array file.
//! Used in this crate by `summary`, and by `search_run`.
ghost use Rattle.std.specs.Prelude.{◌≡◌, ◌+◌, ◌<◌, ◌≤◌, ◌⊎◌, length, vec_capacity, IfOk, OnOk, OnErr, IsErrOf};
ghost use Rattle.source_io.specs.Told.{Rose};
ghost use Rattle.lists.specs.Numbers.{product};
ghost use Rattle.layouts.specs.Chunks.{chunk_cells, chunk_count};
ghost use Rattle.layouts.specs.Rules.{IsLayout};
ghost use Rattle.layouts.specs.declared.layout.TheConstants.{MOST_CELLS};
ghost use Rattle.array_file.specs.Header.{file_size};
ghost use Rattle.array_file.specs.Stored.{chunk_start, HoldsCells, MakesArray};
ghost use Rattle.chunk_store.specs.Loaded.{HoldsFirstChunks};
ghost use Rattle.chunk_store.specs.Pieces.{AsksPieces, chunk_end};

use crate::{Frame, load};
use cells::Cell;
use chunk_copies::place_chunk;
use layouts::Layout;
use source_io::{ByteSource, Failed};
use std::alloc::Global;

/// Why no cells were read.
#[derive(Clone, Copy, Debug, PartialEq, Eq)]
pub enum CellsFault {
    /// The source counted a fault.
    Read,
    /// Memory ran out.
    NoMemory,
}

/// Loads chunk `n` into the frame and puts its cells in their places, if the cells of the chunks before it are in
/// theirs. `cells` has room for all cells.
fn add_chunk<S: ByteSource>(
    layout: &Layout,
    n: u32,
    src: &mut S,
    frame: &mut Frame,
    cells: &mut Vec<Cell>,
) -> Result<(), Failed>
    requires rules { IsLayout layout.now }
    requires chunk { n < chunk_count layout.now }
    requires whole { file_size layout.now ≤ (S.file src.old).len }
    requires frame { length frame.old.cells ≡ chunk_cells layout.now }
    requires cells { HoldsFirstChunks (S.file src.old).bytes layout.now n cells.old.items }
    requires room { product layout.now.extents ≤ vec_capacity cells.old }
    ensures cells { OnOk result (HoldsFirstChunks (S.file src.old).bytes layout.now (n + 1) cells.new.items) }
    ensures room { product layout.now.extents ≤ vec_capacity cells.new }
    ensures frame { length frame.new.cells ≡ chunk_cells layout.now }
    ensures cause { OnErr result (Rose (S.faults src.old) (S.faults src.new)) }
    ensures faults { S.faults src.old ≤ S.faults src.new }
    ensures no_fault { OnOk result (S.faults src.new ≡ S.faults src.old) }
    ensures asked { AsksPieces (S.asked src.old) (S.asked src.new) (chunk_start layout.now n) (chunk_end layout.now n) }
    ensures same_file { S.file src.new ≡ S.file src.old }
{
    load(layout, n, src, frame)?;
    place_chunk(layout, n, frame.cells(), cells);
    Ok(())
}

/// Loads each chunk once, in order, and puts its cells in their places. `cells` has room for all of them.
fn add_chunks<S: ByteSource>(
    layout: &Layout,
    src: &mut S,
    frame: &mut Frame,
    cells: &mut Vec<Cell>,
) -> Result<(), Failed>
    requires whole { file_size layout.now ≤ (S.file src.old).len }
    requires frame { length frame.old.cells ≡ chunk_cells layout.now }
    requires cells { length cells.old.items ≤ product layout.now.extents }
    requires room { product layout.now.extents ≤ vec_capacity cells.old }
    ensures cells { OnOk result (HoldsCells (S.file src.old).bytes layout.now cells.new.items) }
    ensures count { OnOk result (length cells.new.items ≡ product layout.now.extents) }
    ensures cause { OnErr result (Rose (S.faults src.old) (S.faults src.new)) }
    ensures faults { S.faults src.old ≤ S.faults src.new }
    ensures no_fault { OnOk result (S.faults src.new ≡ S.faults src.old) }
    ensures asked { AsksPieces (S.asked src.old) (S.asked src.new) 96 (file_size layout.now) }
    ensures same_file { S.file src.new ≡ S.file src.old }
{
    for n in 0..layout.chunks() {
        add_chunk(layout, n, src, frame, cells)?;
    }
    Ok(())
}

/// Reads the cells of a file of this layout, in row-major order. Each chunk is loaded once, in order, into one frame.
/// All memory is taken before the source is read. `Read` only if the source counted a fault. `NoMemory` if memory ran
/// out.
pub fn read_cells<S: ByteSource>(
    alloc: Global,
    layout: &Layout,
    src: &mut S,
) -> Result<Vec<Cell>, CellsFault>
    requires { file_size layout.now ≤ (S.file src.old).len }
    ensures cells { IfOk result (λ cells. HoldsCells (S.file src.old).bytes layout.now cells.items) }
    ensures array { IfOk result (λ cells. MakesArray (S.file src.old).bytes layout.now cells.items) }
    ensures count { IfOk result (λ cells. length cells.items ≡ product layout.now.extents) }
    ensures few { IfOk result (λ cells. length cells.items ≤ MOST_CELLS) }
    ensures cause { IsErrOf result CellsFault.Read → Rose (S.faults src.old) (S.faults src.new) }
    ensures faults { S.faults src.old ≤ S.faults src.new }
    ensures no_fault { (S.faults src.new ≡ S.faults src.old) ⊎ IsErrOf result CellsFault.Read }
    ensures asked { AsksPieces (S.asked src.old) (S.asked src.new) 96 (file_size layout.now) }
    ensures same_file { S.file src.new ≡ S.file src.old }
{
    let Ok(mut frame) = Frame::new(alloc, layout) else {
        return Err(CellsFault::NoMemory);
    };
    let Ok(mut cells) = Vec::with_capacity(alloc, layout.cells() as usize) else {
        return Err(CellsFault::NoMemory);
    };
    match add_chunks(layout, src, &mut frame, &mut cells) {
        Ok(()) => Ok(cells),
        Err(_) => Err(CellsFault::Read),
    }
}
