//! Writing whole array files, for the command `pack`.
//! Used by `search_run`.
ghost use Rattle.std.specs.Prelude.{◌≡◌, ◌+◌, ◌*◌, ◌≤◌, length, OnOk, OnErr};
ghost use Rattle.source_io.specs.Told.{Rose};
ghost use Rattle.source_io.specs.Written.{Writes};
ghost use Rattle.lists.specs.Numbers.{product};
ghost use Rattle.layouts.specs.Chunks.{chunk_count};
ghost use Rattle.array_file.specs.Written.{bytes_of_cells, bytes_of_chunks, array_bytes};

use crate::{HEADER_BYTES, write_layout};
use byteorder::{ByteOrder, LittleEndian};
use cells::Cell;
use chunk_copies::take_chunk;
use layouts::{Layout, MOST_CHUNK_CELLS};
use source_io::{Failed, Sink, write_whole};

/// How many cells are written at a time.
const PIECE_CELLS: usize = 16384;

/// The size of these cells, in bytes.
const PIECE_BYTES: usize = 65536;

/// How many cells a chunk has at most.
const CHUNK_ROOM: usize = MOST_CHUNK_CELLS as usize;

/// Replaces `bytes` by the bytes of the cells: four for each cell, the lowest first.
fn put_bytes(cells: &[Cell], bytes: &mut [u8])
    requires { length bytes.old ≡ 4 * length cells.now }
    ensures { bytes.new ≡ bytes_of_cells cells.now }
{
    for k in 0..cells.len() {
        LittleEndian::write_i32(&mut bytes[4 * k..4 * k + 4], cells[k].0);
    }
}

/// Writes at most `PIECE_CELLS` cells.
fn write_piece<K: Sink>(
    cells: &[Cell],
    bytes: &mut [u8; PIECE_BYTES],
    sink: &mut K,
) -> Result<(), Failed>
    requires { length cells.now ≤ PIECE_CELLS }
    ensures written { Writes result (bytes_of_cells cells.now) (K.written sink.old) (K.written sink.new) }
    ensures cause { OnErr result (Rose (K.faults sink.old) (K.faults sink.new)) }
    ensures faults { K.faults sink.old ≤ K.faults sink.new }
    ensures no_fault { OnOk result (K.faults sink.new ≡ K.faults sink.old) }
{
    let piece = &mut bytes[..4 * cells.len()];
    put_bytes(cells, piece);
    write_whole(sink, piece)
}

/// Writes cells, piece by piece.
fn write_cells<K: Sink>(
    cells: &[Cell],
    bytes: &mut [u8; PIECE_BYTES],
    sink: &mut K,
) -> Result<(), Failed>
    ensures written { Writes result (bytes_of_cells cells.now) (K.written sink.old) (K.written sink.new) }
    ensures cause { OnErr result (Rose (K.faults sink.old) (K.faults sink.new)) }
    ensures faults { K.faults sink.old ≤ K.faults sink.new }
    ensures no_fault { OnOk result (K.faults sink.new ≡ K.faults sink.old) }
{
    let mut done = 0;
    while done < cells.len() {
        let n = PIECE_CELLS.min(cells.len() - done);
        write_piece(&cells[done..done + n], bytes, sink)?;
        done += n;
    }
    Ok(())
}

/// Writes the chunks of an array with these cells, in order. `room` holds the cells of one chunk, and `bytes` the bytes
/// of one piece.
fn write_each<K: Sink>(
    layout: &Layout,
    cells: &[Cell],
    room: &mut [Cell; CHUNK_ROOM],
    bytes: &mut [u8; PIECE_BYTES],
    sink: &mut K,
) -> Result<(), Failed>
    requires { length cells.now ≡ product layout.now.extents }
    ensures written { Writes result (bytes_of_chunks layout.now cells.now (chunk_count layout.now)) (K.written sink.old) (K.written sink.new) }
    ensures cause { OnErr result (Rose (K.faults sink.old) (K.faults sink.new)) }
    ensures faults { K.faults sink.old ≤ K.faults sink.new }
    ensures no_fault { OnOk result (K.faults sink.new ≡ K.faults sink.old) }
{
    let chunk = &mut room[..layout.chunk_cells() as usize];
    for n in 0..layout.chunks() {
        take_chunk(layout, n, cells, chunk);
        write_cells(chunk, bytes, sink)?;
    }
    Ok(())
}

/// Writes the chunks of an array with these cells, in order.
fn write_chunks<K: Sink>(layout: &Layout, cells: &[Cell], sink: &mut K) -> Result<(), Failed>
    requires { length cells.now ≡ product layout.now.extents }
    ensures written { Writes result (bytes_of_chunks layout.now cells.now (chunk_count layout.now)) (K.written sink.old) (K.written sink.new) }
    ensures cause { OnErr result (Rose (K.faults sink.old) (K.faults sink.new)) }
    ensures faults { K.faults sink.old ≤ K.faults sink.new }
    ensures no_fault { OnOk result (K.faults sink.new ≡ K.faults sink.old) }
{
    let mut room = [Cell(0); CHUNK_ROOM];
    let mut bytes = [0; PIECE_BYTES];
    write_each(layout, cells, &mut room, &mut bytes, sink)
}

/// Writes the array file of a layout and its cells, which are in row-major order. A chunk that extends past the edge of
/// the array has empty cells there. It takes no memory. `Failed` only if the sink counted a fault. Then a prefix of the
/// file was written.
pub fn write_array<K: Sink>(layout: &Layout, cells: &[Cell], sink: &mut K) -> Result<(), Failed>
    requires { length cells.now ≡ product layout.now.extents }
    ensures written { Writes result (array_bytes layout.now cells.now) (K.written sink.old) (K.written sink.new) }
    ensures cause { OnErr result (Rose (K.faults sink.old) (K.faults sink.new)) }
    ensures faults { K.faults sink.old ≤ K.faults sink.new }
    ensures no_fault { OnOk result (K.faults sink.new ≡ K.faults sink.old) }
{
    let mut header = [0; HEADER_BYTES];
    write_layout(layout, &mut header);
    write_whole(sink, &header)?;
    write_chunks(layout, cells, sink)
}
