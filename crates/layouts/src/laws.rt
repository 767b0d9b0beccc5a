//! What tiles, blocks and chunks are, in the words of the subject. Each law is the contract of a function that only
//! calls other laws.
//! No code calls them.
ghost use Rattle.std.specs.Prelude.{◌≡◌, ◌<◌, ◌≤◌, ◌+◌, ◌↔◌, ◌==◌, ℕ, List, [], length, true, All, None, filter, flat_map, fold};
ghost use Rattle.std.specs.List.{range_with_len};
ghost use Rattle.lists.specs.Numbers.{product, HaveSameItems};
ghost use Rattle.lists.specs.Rules.{first_broken};
ghost use Rattle.grids.specs.Coordinates.{in_bounds};
ghost use Rattle.grids.specs.Tiles.{IsTiling, AreMultiples, tile_count, tile_of, tile_from, index_in_tile};
ghost use Rattle.cells.specs.Array.{Array, present_cells};
ghost use Rattle.cells.specs.Records.{record_of, merged};
ghost use Rattle.cells.specs.Rects.{rect_contains, area_of, meet_of, sides_of, HasDimensions, IsCutTo, LiesInside};
ghost use Rattle.cells.specs.declared.rect.Rect.{Rect};
ghost use Rattle.layouts.specs.Chunks.{tile_rect, chunk_count, chunk_rect, chunk_around, block_count, block_rect, block_above};
ghost use Rattle.layouts.specs.Meeting.{is_meeting, meeting_tiles, shared_numbers, tile_record, block_record, blocks_inside, blocks_in_chunk, IsArrayOf};
ghost use Rattle.layouts.specs.Rules.{layout_rules, IsLayout};
ghost use Rattle.layouts.specs.declared.numbers.LayoutNumbers.{LayoutNumbers};

use cells::laws::{
    record_of_by_weighings, record_of_parts_is_merged, rectangles_are_regions, rectangles_meet,
};

/// Three dimensions, four levels and every rule kept make a layout. All else that `IsLayout` says follows.
pub fn rules_make_a_layout()
    ensures { (l : LayoutNumbers) → length l.extents ≡ 3 → length l.chunk ≡ 3 → length l.blocks ≡ 4 → All (λ b. length b ≡ 3) l.blocks →
        first_broken (layout_rules l) ≡ None → IsLayout l }
{}

/// Tiles cover an array: each cell is in a tile.
pub fn tiles_cover()
    ensures tile { (extents lengths at : List ℕ) → IsTiling extents lengths → in_bounds extents at ≡ true →
        tile_of extents lengths at < tile_count extents lengths }
    ensures holds { (extents lengths at : List ℕ) → IsTiling extents lengths → in_bounds extents at ≡ true →
        rect_contains (tile_rect extents lengths (tile_of extents lengths at)) at ≡ true }
{}

/// Tiles are cut to the array and share no cell: a cell of a tile is a cell of the array, and of no other tile.
pub fn tiles_share_nothing()
    ensures cut { (extents lengths : List ℕ) (t : ℕ) (at : List ℕ) → IsTiling extents lengths → t < tile_count extents lengths →
        rect_contains (tile_rect extents lengths t) at ≡ true → in_bounds extents at ≡ true }
    ensures alone { (extents lengths : List ℕ) (t : ℕ) (at : List ℕ) → IsTiling extents lengths → t < tile_count extents lengths →
        rect_contains (tile_rect extents lengths t) at ≡ true → tile_of extents lengths at ≡ t }
{}

/// Each tile has a cell, its first one.
pub fn tiles_have_cells()
    ensures { (extents lengths : List ℕ) (t : ℕ) → IsTiling extents lengths → t < tile_count extents lengths →
        rect_contains (tile_rect extents lengths t) (tile_from extents lengths t) ≡ true }
{}

/// A tile has each of its cells once, at an index of the cell's own. Indices are below the number of cells of a tile
/// that is not cut.
pub fn cells_in_tiles_are_apart()
    ensures below { (extents lengths at : List ℕ) → IsTiling extents lengths → in_bounds extents at ≡ true →
        index_in_tile lengths at < product lengths }
    ensures once { (extents lengths at other : List ℕ) → IsTiling extents lengths → in_bounds extents at ≡ true → in_bounds extents other ≡ true →
        tile_of extents lengths at ≡ tile_of extents lengths other → index_in_tile lengths at ≡ index_in_tile lengths other → at ≡ other }
{}

/// Tiles nest. If the longer lengths are multiples of the shorter ones, each shorter tile lies inside the longer tile
/// that has its first cell, and no other longer tile has a cell of it.
pub fn tiles_nest()
    ensures tile { (extents shorter longer : List ℕ) (t : ℕ) → IsTiling extents shorter → IsTiling extents longer →
        t < tile_count extents shorter → tile_of extents longer (tile_from extents shorter t) < tile_count extents longer }
    ensures inside { (extents shorter longer : List ℕ) (t : ℕ) → IsTiling extents shorter → IsTiling extents longer →
        AreMultiples longer shorter → t < tile_count extents shorter →
        LiesInside (tile_rect extents shorter t) (tile_rect extents longer (tile_of extents longer (tile_from extents shorter t))) }
    ensures alone { (extents shorter longer : List ℕ) (t u : ℕ) (at : List ℕ) → IsTiling extents shorter → IsTiling extents longer →
        AreMultiples longer shorter → t < tile_count extents shorter → u < tile_count extents longer →
        rect_contains (tile_rect extents shorter t) at ≡ true → rect_contains (tile_rect extents longer u) at ≡ true →
        u ≡ tile_of extents longer (tile_from extents shorter t) }
{}

/// Blocks nest. Each block of a used level lies inside one block of the next level, and no other block of that level
/// has a cell of it.
pub fn blocks_nest()
    ensures block { (l : LayoutNumbers) (level b : ℕ) → IsLayout l → level + 1 < l.levels → b < block_count l level →
        block_above l level b < block_count l (level + 1) }
    ensures inside { (l : LayoutNumbers) (level b : ℕ) → IsLayout l → level + 1 < l.levels → b < block_count l level →
        LiesInside (block_rect l level b) (block_rect l (level + 1) (block_above l level b)) }
    ensures alone { (l : LayoutNumbers) (level b other : ℕ) (at : List ℕ) → IsLayout l → level + 1 < l.levels →
        b < block_count l level → other < block_count l (level + 1) →
        rect_contains (block_rect l level b) at ≡ true → rect_contains (block_rect l (level + 1) other) at ≡ true →
        other ≡ block_above l level b }
{}

/// Each block of level 0 lies inside one chunk, and no other chunk has a cell of it.
pub fn blocks_lie_in_chunks()
    ensures chunk { (l : LayoutNumbers) (b : ℕ) → IsLayout l → b < block_count l 0 → chunk_around l b < chunk_count l }
    ensures inside { (l : LayoutNumbers) (b : ℕ) → IsLayout l → b < block_count l 0 →
        LiesInside (block_rect l 0 b) (chunk_rect l (chunk_around l b)) }
    ensures alone { (l : LayoutNumbers) (b n : ℕ) (at : List ℕ) → IsLayout l → b < block_count l 0 → n < chunk_count l →
        rect_contains (block_rect l 0 b) at ≡ true → rect_contains (chunk_rect l n) at ≡ true → n ≡ chunk_around l b }
{}

/// A tile shares a cell with a rectangle that lies within the array exactly if the tile's coordinates in the grid lie in
/// `tiles_meeting`.
pub fn tiles_meet_rectangles()
    ensures { (extents lengths : List ℕ) (r : Rect) (t : ℕ) → IsTiling extents lengths → HasDimensions (length extents) r → IsCutTo extents r →
        t < tile_count extents lengths →
        (0 < area_of (meet_of r (tile_rect extents lengths t))) ↔ (is_meeting extents lengths r t ≡ true) }
{}

/// The numbers of a rectangle that lies within an array are, up to order, those that it shares with each tile that it
/// meets. So its record is merged from the records of these parts.
pub fn tiles_share_out_rectangles()
    ensures numbers { (a : Array) (lengths : List ℕ) (r : Rect) → IsTiling a.extents lengths → length a.cells ≡ product a.extents →
        HasDimensions (length a.extents) r → IsCutTo a.extents r →
        HaveSameItems (present_cells a (sides_of r)) (flat_map (shared_numbers a lengths r) (meeting_tiles a.extents lengths r)) }
    ensures record { (a : Array) (lengths : List ℕ) (r : Rect) → IsTiling a.extents lengths → length a.cells ≡ product a.extents →
        HasDimensions (length a.extents) r → IsCutTo a.extents r →
        record_of (present_cells a (sides_of r)) ≡ fold (λ all t. merged all (record_of (shared_numbers a lengths r t))) (record_of []) (meeting_tiles a.extents lengths r) }
{
    rectangles_are_regions();
    rectangles_meet();
    record_of_parts_is_merged();
    record_of_by_weighings();
}

/// If longer lengths are multiples of shorter ones, the record of a longer tile is merged from the records of the
/// shorter tiles inside it.
pub fn tile_records_merge()
    ensures { (a : Array) (shorter longer : List ℕ) (u : ℕ) → IsTiling a.extents shorter → IsTiling a.extents longer →
        AreMultiples longer shorter → length a.cells ≡ product a.extents → u < tile_count a.extents longer →
        tile_record a longer u ≡ fold (λ all t. merged all (tile_record a shorter t)) (record_of [])
        (filter (λ t. tile_of a.extents longer (tile_from a.extents shorter t) == u) (range_with_len 0 (tile_count a.extents shorter))) }
{
    rectangles_are_regions();
    record_of_parts_is_merged();
    record_of_by_weighings();
}

/// The record of a block is merged from the records of the blocks inside it, one level below. The record of a chunk is
/// merged from the records of the blocks of level 0 inside it.
pub fn block_records_merge()
    ensures blocks { (a : Array) (l : LayoutNumbers) (level c : ℕ) → IsLayout l → IsArrayOf l a → level + 1 < l.levels →
        c < block_count l (level + 1) →
        block_record a l (level + 1) c ≡ fold (λ all b. merged all (block_record a l level b)) (record_of []) (blocks_inside l level c) }
    ensures chunks { (a : Array) (l : LayoutNumbers) (n : ℕ) → IsLayout l → IsArrayOf l a → n < chunk_count l →
        tile_record a l.chunk n ≡ fold (λ all b. merged all (block_record a l 0 b)) (record_of []) (blocks_in_chunk l n) }
{
    tile_records_merge();
}
