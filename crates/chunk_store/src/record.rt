//! Records of chunks and of parts of them, without their padding. Used by `summary`.
ghost use Rattle.std.specs.Prelude.{◌≡◌, ◌≤◌, ◌<◌, ◌-◌, ◌*◌, ◌^◌, pos, length};
ghost use Rattle.lists.specs.Numbers.{IsWithin};
ghost use Rattle.cells.specs.Array.{Array};
ghost use Rattle.cells.specs.Records.{record_of};
ghost use Rattle.cells.specs.Rects.{area_of, meet_of};
ghost use Rattle.layouts.specs.Chunks as chunks;
ghost use Rattle.layouts.specs.Cuts.{AreCuts, cut_froms, cut_tos};
ghost use Rattle.layouts.specs.Meeting.{shared_numbers, IsArrayOf};
ghost use Rattle.chunk_store.specs.FirstChunks.{chunk_numbers, rect_numbers, places_of_chunk, IsChunkOf};

use cell_fold::region_record;
use cells::laws::{rectangles_are_regions, rectangles_meet};
use cells::{Cell, NOTHING, Record, Rect, Side};
use layouts::{Cut, Layout};

/// The record of those cells of chunk `n` that lie in the array. The cells are row-major with the chunk's padding,
/// which is never counted.
pub fn chunk_record(layout: &Layout, n: u32, chunk: &[Cell]) -> Record
    requires chunk { n < chunks.chunk_count layout.now }
    requires long { length chunk.now ≡ chunks.chunk_cells layout.now }
    ensures record { result ≡ record_of (chunk_numbers layout.now n chunk.now) }
    ensures few { result.count ≤ length (places_of_chunk layout.now n) }
    ensures each { IsWithin result.sum (2 ^ 31 * result.count) }
{
    let cuts = layout.cuts(n);
    let whole = rect_of(&cuts);
    part_record(layout, n, chunk, &cuts, &whole)
}

/// The record of those cells of chunk `n` that lie in a rectangle of the array. The cells are the chunk's, row-major
/// with its padding, which is never counted. The rectangle may reach out of the chunk, or lie beside it.
/// The records of a rectangle in all chunks that it meets merge into its own, by the law `tiles_share_out_rectangles`
/// of `layouts`.
pub fn shared_record(layout: &Layout, n: u32, chunk: &[Cell], r: &Rect) -> Record
    requires chunk { n < chunks.chunk_count layout.now }
    requires long { length chunk.now ≡ chunks.chunk_cells layout.now }
    ensures record { result ≡ record_of (rect_numbers layout.now n chunk.now r.now) }
    ensures array { (a : Array) → IsArrayOf layout.now a → IsChunkOf layout.now n a chunk.now →
        result ≡ record_of (shared_numbers a layout.now.chunk r.now n) }
    ensures few { result.count ≤ chunks.chunk_cells layout.now }
    ensures each { IsWithin result.sum (2 ^ 31 * result.count) }
{
    rectangles_are_regions();
    rectangles_meet();
    let cuts = layout.cuts(n);
    // Its two arrays by themselves: so the proof sees that they have three numbers each.
    let Rect { from, to } = *r;
    let shared = Rect { from, to }.meet(&rect_of(&cuts));
    if shared.is_empty() {
        NOTHING
    } else {
        part_record(layout, n, chunk, &cuts, &shared)
    }
}

/// The rectangle of a chunk with these cuts.
fn rect_of(cuts: &[Cut; 3]) -> Rect
    ensures { result ≡ record { from = cut_froms cuts.now; to = cut_tos cuts.now } }
{
    let [a, b, c] = cuts;
    Rect {
        from: [a.from, b.from, c.from],
        to: [a.to, b.to, c.to],
    }
}

/// The record of a part of chunk `n`: of a rectangle that has a cell and lies in the chunk, cut to the array.
fn part_record(layout: &Layout, n: u32, chunk: &[Cell], cuts: &[Cut; 3], part: &Rect) -> Record
    requires chunk { n < chunks.chunk_count layout.now }
    requires long { length chunk.now ≡ chunks.chunk_cells layout.now }
    requires cuts { AreCuts layout.now n cuts.now }
    requires some { 0 < area_of part.now }
    requires inside { meet_of part.now (chunks.chunk_rect layout.now n) ≡ part.now }
    ensures record { result ≡ record_of (rect_numbers layout.now n chunk.now part.now) }
    ensures few { result.count ≤ chunks.chunk_cells layout.now }
    ensures each { IsWithin result.sum (2 ^ 31 * result.count) }
{
    rectangles_meet();
    let [a, b, c] = cuts;
    let [f, f_2, f_3] = part.from;
    let [t, t_2, t_3] = part.to;
    let sides = [
        in_chunk(a, f, t),
        in_chunk(b, f_2, t_2),
        in_chunk(c, f_3, t_3),
    ];
    region_record(&layout.chunk_shape(), chunk, &sides)
}

/// The coordinates from `from` up to `to` as coordinates of a chunk's own, in one dimension.
fn in_chunk(cut: &Cut, from: u32, to: u32) -> Side
    requires from { cut.now.from ≤ from }
    requires ordered { from ≤ to }
    ensures { result ≡ record { from = pos (from - cut.now.from); to = pos (to - cut.now.from) } }
{
    Side {
        from: i64::from(from - cut.from),
        to: i64::from(to - cut.from),
    }
}
