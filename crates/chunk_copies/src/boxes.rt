//! Boxes of cells that are copied from one list to another, row by row.
//! Used in this crate by `placing` and `taking`.
ghost use Rattle.std.specs.Prelude.{◌≡◌, ◌+◌, ◌*◌, ◌-◌, ◌<◌, ◌≤◌, [], ◌∷◌, ◌++◌, length, take, drop, All, IsTrue};
ghost use Rattle.chunk_copies.specs.Boxes.{source_size, target_size, IsWithinBoth, CopiesBox};

use cells::Cell;

/// One dimension of a box that is copied: how many cells, and for each of the two lists its extent and the first cell.
#[derive(Clone, Copy)]
pub(crate) struct Stretch {
    /// How many cells are copied.
    pub count: u32,
    /// The extent of the list from which they are copied.
    pub source: u32,
    /// The first of them in that list.
    pub from: u32,
    /// The extent of the list to which they are copied.
    pub target: u32,
    /// The first of them in that list.
    pub to: u32,
}

impl Stretch {
    /// Whether it is all of both extents.
    fn is_whole(&self) -> bool
        ensures count { IsTrue result → self.now.count ≡ self.now.target }
        ensures same { IsTrue result → self.now.source ≡ self.now.target }
    {
        self.count == self.target && self.source == self.target
    }
}

/// Copies a box of three dimensions.
pub(crate) fn copy_box(box_of: &[Stretch; 3], source: &[Cell], target: &mut [Cell])
    requires within { All IsWithinBoth box_of.now }
    requires source { source_size box_of.now ≤ length source.now }
    requires target { target_size box_of.now ≡ length target.old }
    ensures { CopiesBox box_of.now source.now target.old target.new }
{
    let [planes, rows, columns] = box_of;
    if rows.is_whole() && columns.is_whole() {
        copy_run(
            planes,
            rows.target as usize * columns.target as usize,
            source,
            target,
        )
    } else {
        copy_planes(planes, &[*rows, *columns], source, target)
    }
}

/// Copies a box of three dimensions to the first `end` cells of a list. The cells after them stay.
pub(crate) fn copy_to_first(box_of: &[Stretch; 3], source: &[Cell], end: usize, target: &mut [Cell])
    requires within { All IsWithinBoth box_of.now }
    requires source { source_size box_of.now ≤ length source.now }
    requires target { target_size box_of.now ≡ end }
    requires end { end ≤ length target.old }
    ensures first { CopiesBox box_of.now source.now (take end target.old) (take end target.new) }
    ensures rest { drop end target.new ≡ drop end target.old }
    ensures long { length target.new ≡ length target.old }
{
    copy_box(box_of, source, &mut target[..end]);
}

/// Copies one box of two dimensions for each step of a stretch.
fn copy_planes(planes: &Stretch, plane: &[Stretch; 2], source: &[Cell], target: &mut [Cell])
    requires planes { IsWithinBoth planes.now }
    requires plane { All IsWithinBoth plane.now }
    requires source { source_size (planes.now ∷ plane.now) ≤ length source.now }
    requires target { target_size (planes.now ∷ plane.now) ≡ length target.old }
    ensures { CopiesBox (planes.now ∷ plane.now) source.now target.old target.new }
{
    let [rows, columns] = plane;
    let source_size = rows.source as usize * columns.source as usize;
    let size = rows.target as usize * columns.target as usize;
    for p in 0..planes.count as usize {
        let from = (planes.from as usize + p) * source_size;
        let to = (planes.to as usize + p) * size;
        copy_plane(plane, &source[from..], &mut target[to..to + size]);
    }
}

/// Copies a box of two dimensions.
fn copy_plane(plane: &[Stretch; 2], source: &[Cell], target: &mut [Cell])
    requires within { All IsWithinBoth plane.now }
    requires source { source_size plane.now ≤ length source.now }
    requires target { target_size plane.now ≡ length target.old }
    ensures { CopiesBox plane.now source.now target.old target.new }
{
    let [rows, columns] = plane;
    if columns.is_whole() {
        copy_run(rows, columns.target as usize, source, target)
    } else {
        copy_rows(rows, columns, source, target)
    }
}

/// Copies one run of cells for each step of a stretch.
fn copy_rows(rows: &Stretch, columns: &Stretch, source: &[Cell], target: &mut [Cell])
    requires rows { IsWithinBoth rows.now }
    requires columns { IsWithinBoth columns.now }
    requires source { source_size (rows.now ∷ columns.now ∷ []) ≤ length source.now }
    requires target { target_size (rows.now ∷ columns.now ∷ []) ≡ length target.old }
    ensures { CopiesBox (rows.now ∷ columns.now ∷ []) source.now target.old target.new }
{
    let source_size = columns.source as usize;
    let size = columns.target as usize;
    for r in 0..rows.count as usize {
        let from = (rows.from as usize + r) * source_size;
        let to = (rows.to as usize + r) * size;
        copy_run(columns, 1, &source[from..], &mut target[to..to + size]);
    }
}

/// Copies those parts of the cells that a stretch has. Each part has `size` cells.
fn copy_run(parts: &Stretch, size: usize, source: &[Cell], target: &mut [Cell])
    requires parts { IsWithinBoth parts.now }
    requires source { parts.now.source * size ≤ length source.now }
    requires target { parts.now.target * size ≡ length target.old }
    ensures { target.new ≡ take (parts.now.to * size) target.old
        ++ take (parts.now.count * size) (drop (parts.now.from * size) source.now)
        ++ drop (parts.now.to * size + parts.now.count * size) target.old }
{
    let from = parts.from as usize * size;
    let to = parts.to as usize * size;
    let count = parts.count as usize * size;
    target[to..to + count].copy_from_slice(&source[from..from + count]);
}
