//! The numbers of a layout, and the first rule that they break.
//! Used in this crate by `layout`, and by `array_text` and `array_file`.
ghost use Rattle.std.specs.Prelude.{◌≡◌, ◌≤◌, ◌<◌, nat_lt};
ghost use Rattle.layouts.specs.Chunks as chunks;
ghost use Rattle.layouts.specs.Rules.{rank_rules, extent_rules, cell_rules, chunk_rules, chunk_cell_rules, level_rules, block_rules, block_rules_of, coarse_rules, all_block_rules, layout_rules, AreLengths, HasBlocks};
ghost use Rattle.lists.specs.Rules.{Judges};
ghost use Rattle.layouts.specs.Rules as rules;

use crate::LayoutRefusal;
use crate::layout::{MOST_CELLS, MOST_CHUNK_CELLS};
use crate::lengths::{product, tile_count};

/// The greatest extent of an array or a block.
const MOST_EXTENT: u32 = 1048576;

/// The greatest number of blocks of the coarsest level.
const MOST_COARSE_BLOCKS: u64 = 4096;

/// The greatest number of blocks of all levels together.
const MOST_BLOCKS: u64 = 2097152;

/// The numbers of a layout, which may break its rules.
#[derive(Clone, Copy, Debug, PartialEq, Eq)]
pub struct LayoutNumbers {
    /// How many dimensions the array uses.
    pub rank: u32,
    /// The extents of the array, in cells; 1 in a dimension that it does not use.
    pub extents: [u32; 3],
    /// The extents of a chunk, in cells; 1 in a dimension that the array does not use.
    pub chunk: [u32; 3],
    /// How many levels of blocks there are.
    pub levels: u32,
    /// The extents of a block of each level, in cells, the finest level first; 1 in a dimension that the array does
    /// not use, and 0 in a level that is not used.
    pub blocks: [[u32; 3]; 4],
}

impl LayoutNumbers {
    /// Whether they make a layout, or else the refusal of the first rule that they break.
    pub(crate) fn check(&self) -> Result<(), LayoutRefusal>
        ensures { Judges (layout_rules self.now) result }
    {
        self.check_rank()?;
        self.check_extents()?;
        self.check_cells()?;
        self.check_chunk()?;
        self.check_chunk_cells()?;
        self.check_levels()?;
        self.check_blocks()?;
        self.check_coarse_blocks()?;
        self.check_all_blocks()
    }

    fn check_rank(&self) -> Result<(), LayoutRefusal>
        ensures { Judges (rank_rules self.now) result }
    {
        if self.rank < 1 || 3 < self.rank {
            return Err(LayoutRefusal::Rank { n: self.rank });
        }
        Ok(())
    }

    fn check_extents(&self) -> Result<(), LayoutRefusal>
        ensures { Judges (extent_rules self.now) result }
    {
        for dim in 0..3 {
            if !self.is_length(dim, MOST_EXTENT, self.extents[dim as usize]) {
                return Err(LayoutRefusal::Extent { dim });
            }
        }
        Ok(())
    }

    fn check_cells(&self) -> Result<(), LayoutRefusal>
        requires { AreLengths self.now.extents }
        ensures { Judges (cell_rules self.now) result }
    {
        if product(&self.extents) > u64::from(MOST_CELLS) {
            return Err(LayoutRefusal::TooManyCells);
        }
        Ok(())
    }

    fn check_chunk(&self) -> Result<(), LayoutRefusal>
        ensures { Judges (chunk_rules self.now) result }
    {
        for dim in 0..3 {
            let most = self.extents[dim as usize];
            if !self.is_length(dim, most, self.chunk[dim as usize]) {
                return Err(LayoutRefusal::ChunkExtent { dim });
            }
        }
        Ok(())
    }

    fn check_chunk_cells(&self) -> Result<(), LayoutRefusal>
        requires { AreLengths self.now.chunk }
        ensures { Judges (chunk_cell_rules self.now) result }
    {
        if product(&self.chunk) > u64::from(MOST_CHUNK_CELLS) {
            return Err(LayoutRefusal::ChunkTooLarge);
        }
        Ok(())
    }

    fn check_levels(&self) -> Result<(), LayoutRefusal>
        ensures { Judges (level_rules self.now) result }
    {
        if self.levels < 1 || 4 < self.levels {
            return Err(LayoutRefusal::Levels { n: self.levels });
        }
        Ok(())
    }

    fn check_blocks(&self) -> Result<(), LayoutRefusal>
        ensures { Judges (block_rules self.now) result }
    {
        for level in 0..4 {
            self.check_blocks_of(level)?;
        }
        Ok(())
    }

    /// The rules of the blocks of one level.
    fn check_blocks_of(&self, level: u8) -> Result<(), LayoutRefusal>
        requires { level < 4 }
        ensures { Judges (block_rules_of self.now level) result }
    {
        for dim in 0..3 {
            if !self.is_block_length(level, dim) {
                return Err(LayoutRefusal::LevelExtent { level, dim });
            }
        }
        Ok(())
    }

    fn check_coarse_blocks(&self) -> Result<(), LayoutRefusal>
        requires extents { AreLengths self.now.extents }
        requires some { 1 ≤ self.now.levels }
        requires few { self.now.levels ≤ 4 }
        requires blocks { HasBlocks self.now }
        ensures { Judges (coarse_rules self.now) result }
    {
        let blocks = self.block_count(self.levels as usize - 1);
        if blocks > MOST_COARSE_BLOCKS {
            return Err(LayoutRefusal::CoarseGridTooLarge { blocks });
        }
        Ok(())
    }

    fn check_all_blocks(&self) -> Result<(), LayoutRefusal>
        requires extents { AreLengths self.now.extents }
        requires few { self.now.levels ≤ 4 }
        requires blocks { HasBlocks self.now }
        ensures { Judges (all_block_rules self.now) result }
    {
        let mut all = 0;
        for level in 0..self.levels as usize {
            all += self.block_count(level);
        }
        if all > MOST_BLOCKS {
            return Err(LayoutRefusal::TooManyBlocks);
        }
        Ok(())
    }

    /// Whether a length is from 1 to the most in a dimension that is used, and 1 in a dimension that is not.
    fn is_length(&self, dim: u8, most: u32, n: u32) -> bool
        ensures { result ≡ rules.is_length (nat_lt dim self.now.rank) most n }
    {
        if u32::from(dim) < self.rank {
            1 <= n && n <= most
        } else {
            n == 1
        }
    }

    /// Whether a block's extent keeps the rules of its level.
    fn is_block_length(&self, level: u8, dim: u8) -> bool
        requires level { level < 4 }
        requires dim { dim < 3 }
        ensures { result ≡ rules.block_is_good self.now level dim }
    {
        let n = self.blocks[level as usize][dim as usize];
        if u32::from(level) >= self.levels {
            n == 0
        } else if u32::from(dim) < self.rank {
            1 <= n && n <= MOST_EXTENT && self.nests(level, dim)
        } else {
            n == 1
        }
    }

    /// At level 0, whether a block's extent divides the chunk's. At a higher level, whether it is a multiple of the
    /// extent one level below.
    fn nests(&self, level: u8, dim: u8) -> bool
        requires level { level < 4 }
        requires dim { dim < 3 }
        ensures { result ≡ rules.nests self.now level dim }
    {
        let (level, dim) = (level as usize, dim as usize);
        let n = self.blocks[level][dim];
        if level == 0 {
            self.chunk[dim].is_multiple_of(n)
        } else {
            n.is_multiple_of(self.blocks[level - 1][dim])
        }
    }

    /// How many blocks a level has.
    fn block_count(&self, level: usize) -> u64
        requires extents { AreLengths self.now.extents }
        requires few { self.now.levels ≤ 4 }
        requires blocks { HasBlocks self.now }
        requires level { level < self.now.levels }
        ensures count { result ≡ chunks.block_count self.now level }
        ensures few { result ≤ 1152921504606846976 }
    {
        tile_count(&self.extents, &self.blocks[level])
    }
}
