//! What copies of chunks are, in the words of the subject. Each law is the contract of a function that does nothing.
//! Used by `array_file`.
ghost use Rattle.std.specs.Prelude.{◌≡◌, ◌<◌, ℕ, List, length, slice_index_or};
ghost use Rattle.lists.specs.Numbers.{product};
ghost use Rattle.cells.specs.declared.cell.Cell.{Cell};
ghost use Rattle.layouts.specs.Chunks.{cell_chunk, cell_index};
ghost use Rattle.layouts.specs.Rules.{IsLayout};
ghost use Rattle.layouts.specs.declared.numbers.LayoutNumbers.{LayoutNumbers};
ghost use Rattle.chunk_copies.specs.Placing.{chunk_of_cells};

/// Taking a chunk from an array undoes placing it: at the index of each cell in its chunk, the chunk that is taken has
/// that cell.
pub fn taken_chunks_have_each_cell()
    ensures { (l : LayoutNumbers) (cells : List Cell) (k : ℕ) (d : Cell) → IsLayout l → length cells ≡ product l.extents → k < product l.extents →
        slice_index_or (chunk_of_cells l cells (cell_chunk l k)) (cell_index l k) d ≡ slice_index_or cells k d }
{}
