//! The records of regions: of their present cells. Used by `plain_enum`, and by `chunk_store` for chunks.
ghost use Rattle.std.specs.Prelude.{◌≡◌, ◌≤◌, ◌<◌, ◌+◌, ◌-◌, ◌*◌, ◌^◌, ℕ, pos, ◌≤ℤ◌, unsigned_abs, length, ◌∷◌, [], take, drop, filter_map, true, IsTrue, ◌↔◌};
ghost use Rattle.std.specs.List.{flat_map, range_with_len};
ghost use Rattle.cells.specs.Array as array;
ghost use Rattle.cells.specs.Array.{present_cells};
ghost use Rattle.cells.specs.Cells.{array_of, cell_value};
ghost use Rattle.lists.specs.Numbers.{product, IsWithin};
ghost use Rattle.cells.specs.Records.{record_of};

use crate::fold_lanes;
use cells::{Cell, NOTHING, Record, Shape, Side, merge};

/// The record of the present cells of a proper region of an array of this shape. The region is given by its side in
/// each dimension. The cells are in row-major order. It works for every rank. Rows or planes that are whole in the
/// region are read in one run.
pub fn region_record(shape: &Shape, cells: &[Cell], sides: &[Side; 3]) -> Record
    requires few { length cells.now ≤ 2 ^ 26 }
    requires cells { length cells.now ≡ product shape.now.extents }
    requires proper { array.is_proper shape.now.extents sides.now ≡ true }
    ensures record { (rank : ℕ) →
        result ≡ record_of (present_cells (array_of rank shape.now.extents cells.now) sides.now) }
    ensures few { result.count ≤ length cells.now }
    ensures each { IsWithin result.sum (2 ^ 31 * result.count) }
    ensures within { IsWithin result.sum (2 ^ 57) }
{
    let [_, rows, columns] = &shape.extents;
    let [along, across, across_2] = sides;
    if has_all(*rows, across) && has_all(*columns, across_2) {
        run_record(cells, *rows as usize * *columns as usize, along)
    } else {
        planes_record(&[*rows, *columns], cells, along, &[*across, *across_2])
    }
}

/// Whether a side has every place of an extent of n.
fn has_all(n: u32, s: &Side) -> bool
    ensures { IsTrue result ↔ (s.now.from ≤ℤ pos 0) × (pos n ≤ℤ s.now.to) }
{
    s.from <= 0 && n as i64 <= s.to
}

/// The record of the present cells in the planes of `along`, within `across` in each plane.
fn planes_record(plane: &[u32; 2], cells: &[Cell], along: &Side, across: &[Side; 2]) -> Record
    requires few { length cells.now ≤ 2 ^ 26 }
    requires from { pos 0 ≤ℤ along.now.from }
    requires ordered { along.now.from ≤ℤ along.now.to }
    requires planes { unsigned_abs along.now.to * product plane.now ≤ length cells.now }
    requires across { array.is_proper plane.now across.now ≡ true }
    ensures record { let from = unsigned_abs along.now.from in let to = unsigned_abs along.now.to in
        let size = product plane.now in
        result ≡ record_of (flat_map
        (λ p. present_cells (array_of 2 plane.now (take size (drop (p * size) cells.now))) across.now)
        (range_with_len from (to - from))) }
    ensures few { result.count ≤ length cells.now }
    ensures each { IsWithin result.sum (2 ^ 31 * result.count) }
{
    let [rows, columns] = plane;
    let size = *rows as usize * *columns as usize;
    let mut all = NOTHING;
    for p in along.from as usize..along.to as usize {
        let part = &cells[p * size..p * size + size];
        all = merge(all, plane_record(plane, part, across));
    }
    all
}

/// The record of the present cells of a proper region of a plane.
fn plane_record(extents: &[u32; 2], cells: &[Cell], sides: &[Side; 2]) -> Record
    requires few { length cells.now ≤ 2 ^ 26 }
    requires cells { length cells.now ≡ product extents.now }
    requires proper { array.is_proper extents.now sides.now ≡ true }
    ensures record { result ≡ record_of (present_cells (array_of 2 extents.now cells.now) sides.now) }
    ensures few { result.count ≤ length cells.now }
    ensures each { IsWithin result.sum (2 ^ 31 * result.count) }
{
    let [_, columns] = extents;
    let [along, across] = sides;
    if has_all(*columns, across) {
        run_record(cells, *columns as usize, along)
    } else {
        rows_record(*columns as usize, cells, along, across)
    }
}

/// The record of the present cells in the rows of `along`, within `across` in each row. A row has `columns` cells.
fn rows_record(columns: usize, cells: &[Cell], along: &Side, across: &Side) -> Record
    requires few { length cells.now ≤ 2 ^ 26 }
    requires from { pos 0 ≤ℤ along.now.from }
    requires ordered { along.now.from ≤ℤ along.now.to }
    requires rows { unsigned_abs along.now.to * columns ≤ length cells.now }
    requires across { array.fits columns across.now ≡ true }
    ensures record { let from = unsigned_abs along.now.from in let to = unsigned_abs along.now.to in
        result ≡ record_of (flat_map
        (λ r. present_cells (array_of 1 (columns ∷ []) (take columns (drop (r * columns) cells.now))) (across.now ∷ []))
        (range_with_len from (to - from))) }
    ensures few { result.count ≤ length cells.now }
    ensures each { IsWithin result.sum (2 ^ 31 * result.count) }
{
    let mut all = NOTHING;
    for r in along.from as usize..along.to as usize {
        let row = &cells[r * columns..r * columns + columns];
        all = merge(all, run_record(row, 1, across));
    }
    all
}

/// The record of those parts of the cells that `side` has. Each part has `size` cells.
fn run_record(cells: &[Cell], size: usize, side: &Side) -> Record
    requires few { length cells.now ≤ 2 ^ 26 }
    requires from { pos 0 ≤ℤ side.now.from }
    requires ordered { side.now.from ≤ℤ side.now.to }
    requires within { unsigned_abs side.now.to * size ≤ length cells.now }
    ensures record { let from = unsigned_abs side.now.from in let to = unsigned_abs side.now.to in
        result ≡ record_of (filter_map cell_value (take ((to - from) * size) (drop (from * size) cells.now))) }
    ensures few { result.count ≤ length cells.now }
    ensures each { IsWithin result.sum (2 ^ 31 * result.count) }
{
    fold_lanes(&cells[side.from as usize * size..side.to as usize * size])
}
