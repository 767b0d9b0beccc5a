//! Why the numbers of a layout are refused.
//! Used in this crate by `layout` and `numbers`, and by `array_text`, `array_file` and `search_run`.

/// The first rule that the numbers of a layout break, in the order of the variants; `docs/ARRAY-FILE.md` states
/// each. Dimensions and levels count from 0.
#[derive(Clone, Copy, Debug, PartialEq, Eq)]
pub enum LayoutRefusal {
    /// The rank is not 1, 2 or 3.
    Rank { n: u32 },
    /// An extent is out of its range.
    Extent { dim: u8 },
    /// The array has too many cells.
    TooManyCells,
    /// A chunk's extent is out of its range.
    ChunkExtent { dim: u8 },
    /// A chunk has too many cells.
    ChunkTooLarge,
    /// The number of levels is not 1 to 4.
    Levels { n: u32 },
    /// A block's extent breaks a rule of its level.
    LevelExtent { level: u8, dim: u8 },
    /// The coarsest level has too many blocks.
    CoarseGridTooLarge { blocks: u64 },
    /// All levels together have too many blocks.
    TooManyBlocks,
}
