//! Cells as they are stored.
//! Used by `cell_fold`, `chunk_copies`, `plain_enum`, `array_text`, `array_file`, `chunk_store` and `search_run`.
ghost use Rattle.std.specs.Prelude.{◌≡◌, ◌↔◌, IsTrue, negsuc};
ghost use Rattle.cells.specs.Cells.{cell_value};

/// A cell: a number from -2^31 + 1 to 2^31 - 1, or empty, which is stored as -2^31.
#[derive(Clone, Copy, Debug, PartialEq, Eq)]
pub struct Cell(pub i32);

/// The empty cell.
pub const EMPTY: Cell = Cell(i32::MIN);

impl Cell {
    /// Whether the cell is empty.
    pub fn is_empty(self) -> bool
        ensures { IsTrue result ↔ (self.0 ≡ negsuc 2147483647) }
    {
        self.0 == i32::MIN
    }

    /// The number, or `None` exactly if the cell is empty.
    pub fn value(self) -> Option<i32>
        ensures { result ≡ cell_value self }
    {
        if self.0 == i32::MIN {
            None
        } else {
            Some(self.0)
        }
    }
}
