//! Layouts of arrays in chunks and blocks.
//! Used in this crate by `numbers`, and by `chunk_copies`, `array_text`, `array_file`, `chunk_store` and `search_run`.
ghost use Rattle.std.specs.Prelude.{◌≡◌, ◌≤◌, ◌<◌, true, Some, None, MatchResult, All, length};
ghost use Rattle.layouts.specs.Chunks as chunks;
ghost use Rattle.layouts.specs.Meeting as meeting;
ghost use Rattle.layouts.specs.Cuts.{AreCuts};
ghost use Rattle.lists.specs.Numbers.{product};
ghost use Rattle.grids.specs.Coordinates.{in_bounds};
ghost use Rattle.lists.specs.Rules.{first_broken};
ghost use Rattle.layouts.specs.Rules.{layout_rules, IsLayout};

use crate::lengths::{product, tile_count};
use crate::{Cut, LayoutNumbers, LayoutRefusal, tiles};
use cells::{Rect, Shape};
use std::marker::Model;

/// The greatest number of cells of an array, and so of its chunks.
pub const MOST_CELLS: u32 = 67108864;

/// The greatest number of cells of a chunk.
pub const MOST_CHUNK_CELLS: u32 = 65536;

/// How an array is divided into chunks, and into the blocks of its levels. Contracts see it as its numbers. Its type
/// keeps every rule of a layout (`IsLayout`).
#[derive(Clone, Copy, Debug, PartialEq, Eq)]
pub struct Layout {
    numbers: LayoutNumbers,
}

impl Model for Layout {
    ghost use Rattle.layouts.specs.declared.numbers.LayoutNumbers.{LayoutNumbers};
    ghost use Rattle.layouts.specs.Rules.{IsLayout};

    ghost Value = { LayoutNumbers };

    ghost view = { λ l. l.numbers };

    ghost invariant = { λ l. IsLayout l.numbers };

    ghost inverse = { λ numbers. record { numbers = numbers } };
}

impl Layout {
    /// The layout with these numbers, or the refusal of the first rule that they break.
    pub fn new(numbers: LayoutNumbers) -> Result<Layout, LayoutRefusal>
        ensures { MatchResult result
            (λ l. (first_broken (layout_rules numbers) ≡ None) × (l ≡ numbers))
            (λ r. first_broken (layout_rules numbers) ≡ Some r) }
    {
        numbers.check()?;
        let _blocks = three_each(numbers.blocks);
        Ok(Layout { numbers })
    }

    /// Its numbers.
    pub fn numbers(&self) -> LayoutNumbers
        ensures { result ≡ self.now }
    {
        self.numbers
    }

    /// How many dimensions the array uses.
    pub fn rank(&self) -> u8
        ensures rank { result ≡ self.now.rank }
        ensures known { (1 ≤ result) × (result ≤ 3) }
        ensures rules { IsLayout self.now }
    {
        self.numbers.rank as u8
    }

    /// The extents of the array, in cells; 1 in a dimension that it does not use.
    pub fn shape(&self) -> Shape
        ensures extents { result.extents ≡ self.now.extents }
        ensures few { product result.extents ≤ MOST_CELLS }
        ensures rules { IsLayout self.now }
    {
        Shape {
            extents: self.numbers.extents,
        }
    }

    /// The extents of a chunk, in cells; 1 in a dimension that the array does not use.
    pub fn chunk(&self) -> [u32; 3]
        ensures { result ≡ self.now.chunk }
    {
        self.numbers.chunk
    }

    /// The shape of a chunk, as if it were an array.
    pub fn chunk_shape(&self) -> Shape
        ensures extents { result.extents ≡ self.now.chunk }
        ensures few { product result.extents ≤ MOST_CHUNK_CELLS }
        ensures rules { IsLayout self.now }
    {
        Shape {
            extents: self.numbers.chunk,
        }
    }

    /// How many levels of blocks there are.
    pub fn levels(&self) -> u8
        ensures { result ≡ self.now.levels }
    {
        self.numbers.levels as u8
    }

    /// The extents of a block of a level, in cells, with 1 in a dimension that the array does not use. Levels count
    /// from 0, which is the finest. In an unused level the extents are 0.
    pub fn block(&self, level: u8) -> [u32; 3]
        requires { level < 4 }
        ensures { result ≡ chunks.block_extents self.now level }
    {
        self.numbers.blocks[level as usize]
    }

    /// How many cells the array has.
    pub fn cells(&self) -> u32
        ensures count { result ≡ product self.now.extents }
        ensures some { 1 ≤ result }
        ensures few { result ≤ MOST_CELLS }
    {
        product(&self.numbers.extents) as u32
    }

    /// How many chunks there are.
    pub fn chunks(&self) -> u32
        ensures count { result ≡ chunks.chunk_count self.now }
        ensures some { 1 ≤ result }
        ensures few { result ≤ MOST_CELLS }
        ensures rules { IsLayout self.now }
    {
        tile_count(&self.numbers.extents, &self.numbers.chunk) as u32
    }

    /// How many cells a chunk has, padding included.
    pub fn chunk_cells(&self) -> u32
        ensures count { result ≡ chunks.chunk_cells self.now }
        ensures some { 1 ≤ result }
        ensures few { result ≤ MOST_CHUNK_CELLS }
    {
        product(&self.numbers.chunk) as u32
    }

    /// The cells of chunk `n`, cut to the array. Chunks are numbered row-major over their grid.
    pub fn chunk_rect(&self, n: u32) -> Rect
        requires { n < chunks.chunk_count self.now }
        ensures { result ≡ chunks.chunk_rect self.now n }
    {
        tiles::tile_rect(&self.numbers.extents, &self.numbers.chunk, n)
    }

    /// The chunks that share a cell with a rectangle, as a rectangle of the chunks' grid. The rectangle has to lie within
    /// the array.
    pub fn chunks_meeting(&self, r: &Rect) -> Rect
        ensures { result ≡ meeting.tiles_meeting self.now.chunk r.now }
    {
        tiles::tiles_meeting(&self.numbers.chunk, r)
    }

    /// The blocks of a level that share a cell with a rectangle, as a rectangle of the level's grid. The rectangle has
    /// to lie within the array.
    pub fn blocks_meeting(&self, level: u8, r: &Rect) -> Rect
        requires { level < self.now.levels }
        ensures { result ≡ meeting.tiles_meeting (chunks.block_extents self.now level) r.now }
    {
        tiles::tiles_meeting(&self.numbers.blocks[level as usize], r)
    }

    /// How chunk `n` is cut to the array, dimension by dimension.
    pub fn cuts(&self, n: u32) -> [Cut; 3]
        requires { n < chunks.chunk_count self.now }
        ensures cuts { AreCuts self.now n result }
        ensures rules { IsLayout self.now }
    {
        let [n_1, n_2, n_3] = self.numbers.extents;
        let [m_1, m_2, m_3] = self.numbers.chunk;
        let rect = self.chunk_rect(n);
        let [f_1, f_2, f_3] = rect.from;
        let [t_1, t_2, t_3] = rect.to;
        [
            Cut::new(n_1, m_1, f_1, t_1),
            Cut::new(n_2, m_2, f_2, t_2),
            Cut::new(n_3, m_3, f_3, t_3),
        ]
    }

    /// The chunk in which the cell with these coordinates lies, and the cell's index in it, row-major and padding
    /// included.
    pub fn chunk_of(&self, at: [u32; 3]) -> (u32, u32)
        requires { in_bounds self.now.extents at ≡ true }
        ensures chunk { result.0 ≡ chunks.chunk_of self.now at }
        ensures index { result.1 ≡ chunks.index_in_chunk self.now at }
        ensures chunk_exists { result.0 < chunks.chunk_count self.now }
        ensures index_exists { result.1 < chunks.chunk_cells self.now }
    {
        let chunk = tiles::tile_of(&self.numbers.extents, &self.numbers.chunk, at);
        (chunk, tiles::index_in_tile(&self.numbers.chunk, at))
    }

    /// How many blocks a level has in each dimension.
    pub fn grid(&self, level: u8) -> [u32; 3]
        requires { level < self.now.levels }
        ensures { result ≡ chunks.level_grid self.now level }
    {
        tiles::grid_of(&self.numbers.extents, &self.numbers.blocks[level as usize])
    }

    /// The cells of a block of a level, cut to the array. Blocks are numbered row-major over the level's
    /// grid.
    pub fn block_rect(&self, level: u8, block: u32) -> Rect
        requires level { level < self.now.levels }
        requires block { block < chunks.block_count self.now level }
        ensures { result ≡ chunks.block_rect self.now level block }
    {
        tiles::tile_rect(
            &self.numbers.extents,
            &self.numbers.blocks[level as usize],
            block,
        )
    }
}

/// The extents of a block of each level: three for each of four levels.
fn three_each(blocks: [[u32; 3]; 4]) -> [[u32; 3]; 4]
    ensures same { result ≡ blocks }
    ensures three { All (λ b. length b ≡ 3) blocks }
{
    blocks
}
