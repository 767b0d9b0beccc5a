//! Chunks that are cut to the array, dimension by dimension. Used to place, take and sum up chunks.
ghost use Rattle.std.specs.Prelude.{◌≡◌};

/// One dimension of a chunk that is cut to the array. The array's cells from `from` up to but not including `to` are
/// the first cells of the chunk.
#[derive(Clone, Copy, Debug, PartialEq, Eq)]
pub struct Cut {
    /// The extent of the array, in cells.
    pub extent: u32,
    /// The extent of a chunk, in cells.
    pub length: u32,
    /// The first coordinate.
    pub from: u32,
    /// The coordinate past the last one.
    pub to: u32,
}

impl Cut {
    /// The cut with these numbers.
    pub(crate) fn new(extent: u32, length: u32, from: u32, to: u32) -> Cut
        ensures { result ≡ record { extent = extent; length = length; from = from; to = to } }
    {
        Cut {
            extent,
            length,
            from,
            to,
        }
    }
}
