//! Headers and whole files are read as they were written, and headers are written as they were read.
//! No code calls them.
ghost use Rattle.std.specs.Prelude.{◌≡◌, ℕ, ◌<◌, List, All, None, length, FitsSigned};
ghost use Rattle.std.specs.Int.{w32};
ghost use Rattle.cells.specs.Cells.{array_of};
ghost use Rattle.layouts.specs.declared.numbers.LayoutNumbers.{LayoutNumbers};
ghost use Rattle.lists.specs.Numbers.{product};
ghost use Rattle.layouts.specs.Rules.{IsLayout};
ghost use Rattle.cells.specs.declared.cell.Cell.{Cell};
ghost use Rattle.array_file.specs.Header.{header_of, stored_layout, layout_refusal, file_size};
ghost use Rattle.array_file.specs.Stored.{refusal_of, stored_array};
ghost use Rattle.array_file.specs.Written.{array_bytes};

use chunk_copies::laws::taken_chunks_have_each_cell;

/// The header of a layout has 96 bytes.
pub fn header_has_96_bytes()
    ensures { (l : LayoutNumbers) → IsLayout l → length (header_of l) ≡ 96 }
{}

/// The header of a layout states that layout.
pub fn written_layout_is_read()
    ensures { (l : LayoutNumbers) → IsLayout l → stored_layout (header_of l) ≡ l }
{}

/// A file with the header of a layout and its size is accepted.
pub fn written_layout_is_accepted()
    ensures { (l : LayoutNumbers) → IsLayout l → layout_refusal (header_of l) (file_size l) ≡ None }
{}

/// An accepted file has the header of its layout, so that each layout has one header.
pub fn read_layout_is_written_the_same()
    ensures { (header : List ℕ) (size : ℕ) → length header ≡ 96 → All (λ b. b < 256) header
        → layout_refusal header size ≡ None → header_of (stored_layout header) ≡ header }
{}

/// The file of a layout has the size of its layout, whatever the cells are.
pub fn written_array_has_its_size()
    ensures { (l : LayoutNumbers) (cells : List Cell) → IsLayout l → length (array_bytes l cells) ≡ file_size l }
{}

/// The file of a layout is accepted, whatever the cells are.
pub fn written_array_is_accepted()
    ensures { (l : LayoutNumbers) (cells : List Cell) → IsLayout l → refusal_of (array_bytes l cells) ≡ None }
{}

/// The file of a layout and its cells, each a number of 32 bits, holds the array of these cells.
pub fn written_array_is_stored()
    ensures { (l : LayoutNumbers) (cells : List Cell) → IsLayout l → length cells ≡ product l.extents → All (λ c. FitsSigned w32 c.0) cells
        → stored_array (array_bytes l cells) ≡ array_of l.rank l.extents cells }
{
    taken_chunks_have_each_cell();
}
