//! The lines that `info` prints: a layout and the record of an array's cells.
//! Used by the command `info` of `search_run`.
ghost use Rattle.std.specs.Prelude.{◌≡◌, ◌+◌, ◌*◌, ◌<◌, ◌≤◌, ◌++◌, length, OnOk, OnErr};
ghost use Rattle.std.specs.Fmt.{signed_decimal};
ghost use Rattle.source_io.specs.Told.{Rose};
ghost use Rattle.source_io.specs.Written.{Writes};
ghost use Rattle.report.specs.InfoText as info;
ghost use Rattle.report.specs.InfoText.{item, items, extreme_items, level_lines};

use crate::line::Line;
use cells::Record;
use layouts::Layout;
use source_io::{Failed, Sink, write_whole};

/// Appends a space and a number to a line.
fn push_item(line: &mut Line, n: u64)
    requires { length line.old ≤ 355 }
    ensures text { line.new ≡ line.old ++ item n }
    ensures short { length line.new ≤ length line.old + 41 }
{
    line.push(b" ");
    line.push_number(n);
}

/// Appends a space and a number to a line for each dimension of the array. Of the three numbers, the first `rank`
/// are of its dimensions.
fn push_items(line: &mut Line, rank: u8, numbers: [u32; 3])
    requires rank { rank ≤ 3 }
    requires room { length line.old ≤ 273 }
    ensures text { line.new ≡ line.old ++ items rank numbers }
    ensures short { length line.new ≤ length line.old + 123 }
{
    for n in &numbers[..rank as usize] {
        push_item(line, *n as u64);
    }
}

/// The lines of the rank, the extents of the array, the extents of a chunk and the number of chunks.
fn shape_lines(layout: &Layout) -> Line
    ensures { result ≡ info.shape_lines layout.now }
{
    let rank = layout.rank();
    let mut lines = Line::from_text(b"rank");
    push_item(&mut lines, rank as u64);
    lines.push(b"\n");
    lines.push(b"extent");
    push_items(&mut lines, rank, layout.shape().extents);
    lines.push(b"\n");
    lines.push(b"chunk");
    push_items(&mut lines, rank, layout.chunk());
    lines.push(b"\n");
    lines.push(b"chunks");
    push_item(&mut lines, layout.chunks() as u64);
    lines.push(b"\n");
    lines
}

/// The line of a level: the extents of a block, and the number of blocks in each dimension. Levels count from 0,
/// which is the finest.
fn level_line(layout: &Layout, level: u8) -> Line
    requires { level < layout.now.levels }
    ensures { result ≡ info.level_line layout.now level }
{
    let rank = layout.rank();
    let mut line = Line::from_text(b"level");
    push_item(&mut line, level as u64);
    line.push(b" block");
    push_items(&mut line, rank, layout.block(level));
    line.push(b" grid");
    push_items(&mut line, rank, layout.grid(level));
    line.push(b"\n");
    line
}

/// Appends a word and a number to a line. The word brings its own spaces.
fn push_named(line: &mut Line, name: &[u8], n: i64)
    requires { length line.old + length name.now ≤ 360 }
    ensures text { line.new ≡ line.old ++ name.now ++ signed_decimal n }
    ensures short { length line.new ≤ length line.old + length name.now + 40 }
{
    line.push(name);
    line.push_signed(n);
}

/// Appends the least, the greatest and the sum of a record to a line.
fn push_extremes(line: &mut Line, cells: Record)
    requires { length line.old ≤ 240 }
    ensures text { line.new ≡ line.old ++ extreme_items cells }
    ensures short { length line.new ≤ length line.old + 150 }
{
    push_named(line, b" least ", cells.least as i64);
    push_named(line, b" greatest ", cells.greatest as i64);
    push_named(line, b" sum ", cells.sum);
}

/// The line of the cells: how many there are, how many are not empty, and, if there is one, the least, the greatest
/// and the sum.
fn cells_line(layout: &Layout, cells: Record) -> Line
    ensures { result ≡ info.cells_line layout.now cells }
{
    let mut line = Line::from_text(b"cells");
    push_item(&mut line, layout.cells() as u64);
    line.push(b" present");
    push_item(&mut line, cells.count as u64);
    if cells.count != 0 {
        push_extremes(&mut line, cells);
    }
    line.push(b"\n");
    line
}

/// Prints the line of each level, the finest first. `Failed` if a write failed, which the sink counts. Then a prefix of
/// the lines was written.
fn print_levels<K: Sink>(layout: &Layout, sink: &mut K) -> Result<(), Failed>
    ensures written { Writes result (level_lines layout.now) (K.written sink.old) (K.written sink.new) }
    ensures cause { OnErr result (Rose (K.faults sink.old) (K.faults sink.new)) }
    ensures faults { K.faults sink.old ≤ K.faults sink.new }
    ensures no_fault { OnOk result (K.faults sink.new ≡ K.faults sink.old) }
{
    for level in 0..layout.levels() {
        let line = level_line(layout, level);
        write_whole(sink, line.as_bytes())?;
    }
    Ok(())
}

/// Prints the lines of a layout and of the record of its array's cells. `Failed` if a write failed, which the sink
/// counts. Then a prefix of the lines was written.
pub fn print_info<K: Sink>(layout: &Layout, cells: Record, sink: &mut K) -> Result<(), Failed>
    ensures written { Writes result (info.info_text layout.now cells) (K.written sink.old) (K.written sink.new) }
    ensures cause { OnErr result (Rose (K.faults sink.old) (K.faults sink.new)) }
    ensures faults { K.faults sink.old ≤ K.faults sink.new }
    ensures no_fault { OnOk result (K.faults sink.new ≡ K.faults sink.old) }
{
    write_whole(sink, shape_lines(layout).as_bytes())?;
    print_levels(layout, sink)?;
    write_whole(sink, cells_line(layout, cells).as_bytes())
}
