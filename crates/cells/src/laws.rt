//! What records, coordinates and rectangles are, in the words of the subject. Each law is the contract of a function
//! that does nothing.
//! Used by `chunk_store`.
ghost use Rattle.std.specs.Prelude.{◌≡◌, ℕ, ℤ, ◌≤ℤ◌, Some, All, Contains, List, [], ◌++◌, flat_map, fold, ◌<◌, ◌↔◌, true, ◌&&◌, length, filter, IsPermutation};
ghost use Rattle.std.specs.Cmp.Lexicographic.{slice_cmp};
ghost use Rattle.std.specs.List.{range_with_len};
ghost use Rattle.std.specs.Ordering.{nat_cmp};
ghost use Rattle.std.specs.declared.cmp.Ordering.TheVariants.{Less};
ghost use Rattle.lists.specs.Numbers.{product, least_of, greatest_of, HaveSameItems};
ghost use Rattle.grids.specs.Coordinates.{coordinates_of, index_of, in_bounds};
ghost use Rattle.cells.specs.Array.{Array, lies_in, present_cells};
ghost use Rattle.cells.specs.Records.{record_of, merged};
ghost use Rattle.cells.specs.Rects.{rect_contains, area_of, meet_of, whole_of, sides_of, rect_of, IsCutTo, HasDimensions};
ghost use Rattle.cells.specs.declared.rect.Rect.{Rect};
ghost use Rattle.cells.specs.declared.side.Side.{Side};

/// The least of some numbers is the one among them that is at most each of them, and the greatest is the one that is at
/// least each of them.
pub fn least_and_greatest_bound_the_numbers()
    ensures least { (numbers : List ℤ) (m : ℤ) → (least_of numbers ≡ Some m) ↔ (Contains numbers m × All (λ x. m ≤ℤ x) numbers) }
    ensures greatest { (numbers : List ℤ) (m : ℤ) → (greatest_of numbers ≡ Some m) ↔ (Contains numbers m × All (λ x. x ≤ℤ m) numbers) }
{}

/// The record of the numbers of two lists is merged from their records.
pub fn record_of_both_is_merged()
    ensures { (xs ys : List ℤ) → record_of (xs ++ ys) ≡ merged (record_of xs) (record_of ys) }
{}

/// The record of the numbers of several lists, one after the other, is merged from their records.
pub fn record_of_parts_is_merged()
    ensures { (part : ℕ → List ℤ) (parts : List ℕ) →
        record_of (flat_map part parts) ≡ fold (λ all n. merged all (record_of (part n))) (record_of []) parts }
{}

/// The order of the numbers does not matter for their record.
pub fn record_of_is_free_of_order()
    ensures { (xs ys : List ℤ) → IsPermutation xs ys → record_of xs ≡ record_of ys }
{}

/// Numbers that every weighing gives the same weight have one record.
pub fn record_of_by_weighings()
    ensures { (xs ys : List ℤ) → HaveSameItems xs ys → record_of xs ≡ record_of ys }
{}

/// Coordinates in bounds have an index of their own, below the number of cells.
pub fn coordinates_have_indices()
    ensures below { (extents at : List ℕ) → in_bounds extents at ≡ true → index_of extents at < product extents }
    ensures back { (extents at : List ℕ) → in_bounds extents at ≡ true → coordinates_of extents (index_of extents at) ≡ at }
{}

/// Each index below the number of cells is the index of coordinates in bounds.
pub fn indices_have_coordinates()
    ensures in_bounds { (extents : List ℕ) (k : ℕ) → k < product extents → in_bounds extents (coordinates_of extents k) ≡ true }
    ensures back { (extents : List ℕ) (k : ℕ) → k < product extents → index_of extents (coordinates_of extents k) ≡ k }
{}

/// Indices are row-major. The coordinates with the smaller index are the ones that come first: in the first dimension
/// in which they differ, they are smaller.
pub fn indices_are_row_major()
    ensures { (extents at other : List ℕ) → in_bounds extents at ≡ true → in_bounds extents other ≡ true →
        (index_of extents at < index_of extents other) ↔ (slice_cmp nat_cmp at other ≡ Less) }
{}

/// A cell lies in the intersection of two rectangles exactly if it lies in both.
pub fn rectangles_meet()
    ensures cells { (dimensions : ℕ) (r s : Rect) (at : List ℕ) → HasDimensions dimensions r → HasDimensions dimensions s →
        rect_contains (meet_of r s) at ≡ (rect_contains r at && rect_contains s at) }
    ensures dimensions { (dimensions : ℕ) (r s : Rect) → HasDimensions dimensions r → HasDimensions dimensions s →
        HasDimensions dimensions (meet_of r s) }
{}

/// A rectangle has the cells of the region with its sides.
pub fn rectangles_are_regions()
    ensures { (dimensions : ℕ) (r : Rect) (at : List ℕ) → HasDimensions dimensions r → lies_in (sides_of r) at ≡ rect_contains r at }
{}

/// A region that is cut to an array has the region's cells of the array, and so their numbers.
pub fn regions_are_cut_to_the_array()
    ensures cells { (extents at : List ℕ) (sides : List Side) → length sides ≡ length extents → in_bounds extents at ≡ true →
        lies_in sides at ≡ rect_contains (rect_of extents sides) at }
    ensures within { (extents : List ℕ) (sides : List Side) → length sides ≡ length extents → IsCutTo extents (rect_of extents sides) }
    ensures numbers { (a : Array) (sides : List Side) → length a.cells ≡ product a.extents → length sides ≡ length a.extents →
        present_cells a sides ≡ present_cells a (sides_of (rect_of a.extents sides)) }
{}

/// The area of a rectangle, cut to an array, is how many cells of the array lie in it.
pub fn area_counts_cells()
    ensures { (extents : List ℕ) (r : Rect) → HasDimensions (length extents) r → area_of (meet_of r (whole_of extents))
        ≡ length (filter (λ k. rect_contains r (coordinates_of extents k)) (range_with_len 0 (product extents))) }
{}
