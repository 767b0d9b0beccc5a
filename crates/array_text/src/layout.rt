//! The layout of a text.
//! Used in this crate by `read`.
ghost use Rattle.std.specs.Prelude.{◌≡◌, ◌≤◌, ◌<◌, codes, IfOk};
ghost use Rattle.array_text.specs.Reads.{Shows, rest_of};
ghost use Rattle.array_text.specs.Walk as walk;
ghost use Rattle.array_text.specs.Walk.{no_blocks};

use crate::TextRefusal;
use crate::text::{Text, read_level_or_cells, read_number, read_word};
use layouts::{LayoutNumbers, LayoutRefusal};

/// The number of levels, and the block extents of each.
#[derive(Clone, Copy)]
pub(crate) struct Levels {
    /// How many there are.
    pub count: u32,
    /// The block extents of each level, 0 in a level that is not used.
    pub blocks: [[u32; 3]; 4],
}

/// Reads the number of a dimension, which is 1 in one that is not used.
fn read_dimension(text: Text<'_>, rank: u32, d: u32) -> Result<(u32, Text<'_>), TextRefusal>
    ensures { Shows (λ r. (r.0, rest_of r.1.next r.1.bytes.now)) (walk.dimension rank d (rest_of text.entry.next text.entry.bytes.now)) result }
{
    if d < rank {
        read_number(text)
    } else {
        Ok((1, text))
    }
}

/// Reads the numbers of the dimensions.
#[tactic(auto, unfolding(crate::specs::Walk::dimensions))]
fn read_dimensions(text: Text<'_>, rank: u32) -> Result<([u32; 3], Text<'_>), TextRefusal>
    ensures { Shows (λ r. (r.0, rest_of r.1.next r.1.bytes.now)) (walk.dimensions rank (rest_of text.entry.next text.entry.bytes.now)) result }
{
    let (n, text) = read_dimension(text, rank, 0)?;
    let (m, text) = read_dimension(text, rank, 1)?;
    let (k, text) = read_dimension(text, rank, 2)?;
    Ok(([n, m, k], text))
}

/// Reads a word, and the numbers of the dimensions after it.
#[tactic(auto, unfolding(crate::specs::Walk::lengths))]
fn read_lengths<'a>(
    text: Text<'a>,
    name: &[u8],
    rank: u32,
) -> Result<([u32; 3], Text<'a>), TextRefusal>
    ensures { Shows (λ r. (r.0, rest_of r.1.next r.1.bytes.now)) (walk.lengths name.now rank (rest_of text.entry.next text.entry.bytes.now)) result }
{
    let text = read_word(text, name)?;
    read_dimensions(text, rank)
}

/// Reads the blocks of the level that follows. `None` if the word `cells` follows.
#[tactic(auto, unfolding(crate::specs::Walk::next_level))]
fn read_level(text: Text<'_>, rank: u32) -> Result<(Option<[u32; 3]>, Text<'_>), TextRefusal>
    ensures { Shows (λ r. (r.0, rest_of r.1.next r.1.bytes.now)) (walk.next_level rank (rest_of text.entry.next text.entry.bytes.now)) result }
{
    let (is_level, text) = read_level_or_cells(text)?;
    if !is_level {
        return Ok((None, text));
    }
    let (block, text) = read_dimensions(text, rank)?;
    Ok((Some(block), text))
}

/// Reads the levels and the word `cells`.
fn read_levels(text: Text<'_>, rank: u32) -> Result<(Levels, Text<'_>), TextRefusal>
    ensures { Shows (λ r. ((r.0.count, r.0.blocks), rest_of r.1.next r.1.bytes.now))
        (walk.levels_from rank 4 0 no_blocks (rest_of text.entry.next text.entry.bytes.now)) result }
{
    let mut blocks = [[0; 3]; 4];
    let mut text = text;
    for count in 0..4 {
        match read_level(text, rank) {
            Err(refusal) => return Err(refusal),
            Ok((None, after)) => return Ok((Levels { count, blocks }, after)),
            Ok((Some(block), after)) => {
                blocks[count as usize] = block;
                text = after;
            }
        }
    }
    match read_word(text, b"cells") {
        Err(refusal) => Err(refusal),
        Ok(after) => Ok((Levels { count: 4, blocks }, after)),
    }
}

/// Reads the rank.
#[tactic(auto, unfolding(crate::specs::Walk::rank_from))]
fn read_rank(text: Text<'_>) -> Result<(u32, Text<'_>), TextRefusal>
    ensures { Shows (λ r. (r.0, rest_of r.1.next r.1.bytes.now)) (walk.rank_from (rest_of text.entry.next text.entry.bytes.now)) result }
{
    let text = read_word(text, b"rank")?;
    let (rank, text) = read_number(text)?;
    if rank < 1 || 3 < rank {
        return Err(TextRefusal::Layout(LayoutRefusal::Rank { n: rank }));
    }
    Ok((rank, text))
}

/// Reads the numbers of a layout, up to the word `cells`.
#[tactic(auto, unfolding(crate::specs::Walk::layout_from))]
pub(crate) fn read_layout(text: Text<'_>) -> Result<(LayoutNumbers, Text<'_>), TextRefusal>
    ensures { Shows (λ r. (r.0, rest_of r.1.next r.1.bytes.now)) (walk.layout_from (rest_of text.entry.next text.entry.bytes.now)) result }
{
    let (rank, text) = read_rank(text)?;
    let (extents, text) = read_lengths(text, b"extent", rank)?;
    let (chunk, text) = read_lengths(text, b"chunk", rank)?;
    let (levels, text) = read_levels(text, rank)?;
    let blocks = levels.blocks;
    let numbers = LayoutNumbers {
        rank,
        extents,
        chunk,
        levels: levels.count,
        blocks,
    };
    Ok((numbers, text))
}
