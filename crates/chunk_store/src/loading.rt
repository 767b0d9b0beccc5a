//! Loading a chunk of an array file.
//! Used in this crate by `array` and `summary`.
ghost use Rattle.std.specs.Prelude.{◌≡◌, ◌+◌, ◌*◌, ◌<◌, ◌≤◌, Some, None, length, OnOk, OnErr};
ghost use Rattle.source_io.specs.Told.{Rose};
ghost use Rattle.layouts.specs.Chunks.{chunk_cells, chunk_count};
ghost use Rattle.array_file.specs.Header.{file_size};
ghost use Rattle.array_file.specs.Stored.{cell_at, chunk_start};
ghost use Rattle.chunk_store.specs.Loaded.{cells_from, HoldsFrom, HoldsChunk};
ghost use Rattle.chunk_store.specs.Pieces.{AsksPieces, chunk_end};

use crate::Frame;
use crate::frame::{PIECE_BYTES, PIECE_CELLS};
use array_file::chunk_offset;
use byteorder::{ByteOrder, LittleEndian};
use cells::Cell;
use layouts::Layout;
use source_io::{ByteSource, Failed, read_whole};

/// The cell in the four bytes from offset `at` on.
fn cell(bytes: &[u8], at: usize) -> Cell
    requires { at + 4 ≤ length bytes.now }
    ensures { result ≡ cell_at bytes.now at }
{
    Cell(LittleEndian::read_i32(&bytes[at..]))
}

/// Puts the cells in these bytes in place of the cells that were there. Each is written once, straight from its bytes.
/// The reader of whole slices of `byteorder` would fill a slice of numbers, which would have to be copied into cells.
fn put_cells(cells: &mut [Cell], bytes: &[u8])
    requires { length bytes.now ≡ 4 * length cells.old }
    ensures { cells.new ≡ cells_from bytes.now 0 (length cells.old) }
{
    for k in 0..cells.len() {
        cells[k] = cell(bytes, 4 * k);
    }
}

/// Reads so many cells as there are from offset `at` on, at most a piece. `bytes` has room for the bytes of a piece.
fn read_piece<S: ByteSource>(
    src: &mut S,
    at: u64,
    cells: &mut [Cell],
    bytes: &mut [u8],
) -> Result<(), Failed>
    requires few { length cells.old ≤ PIECE_CELLS }
    requires room { length bytes.old ≡ PIECE_BYTES }
    requires within { at + 4 * length cells.old ≤ (S.file src.old).len }
    ensures cells { OnOk result (HoldsFrom (S.file src.old).bytes at cells.new) }
    ensures cause { OnErr result (Rose (S.faults src.old) (S.faults src.new)) }
    ensures faults { S.faults src.old ≤ S.faults src.new }
    ensures no_fault { OnOk result (S.faults src.new ≡ S.faults src.old) }
    ensures asked { AsksPieces (S.asked src.old) (S.asked src.new) at (at + 4 * length cells.old) }
    ensures same_file { S.file src.new ≡ S.file src.old }
{
    let piece = &mut bytes[..4 * cells.len()];
    read_whole(src, at, piece)?;
    put_cells(cells, piece);
    Ok(())
}

/// Reads so many cells as there are from offset `at` on, piece by piece. `bytes` has room for the bytes of a piece.
fn read_pieces<S: ByteSource>(
    src: &mut S,
    at: u64,
    cells: &mut [Cell],
    bytes: &mut [u8],
) -> Result<(), Failed>
    requires within { at + 4 * length cells.old ≤ (S.file src.old).len }
    requires room { length bytes.old ≡ PIECE_BYTES }
    ensures cells { OnOk result (HoldsFrom (S.file src.old).bytes at cells.new) }
    ensures cause { OnErr result (Rose (S.faults src.old) (S.faults src.new)) }
    ensures faults { S.faults src.old ≤ S.faults src.new }
    ensures no_fault { OnOk result (S.faults src.new ≡ S.faults src.old) }
    ensures asked { AsksPieces (S.asked src.old) (S.asked src.new) at (at + 4 * length cells.old) }
    ensures same_file { S.file src.new ≡ S.file src.old }
{
    let _size = src.size();
    let mut done = 0;
    while done < cells.len() {
        let n = PIECE_CELLS.min(cells.len() - done);
        let piece = &mut cells[done..done + n];
        read_piece(src, at + 4 * done as u64, piece, bytes)?;
        done += n;
    }
    Ok(())
}

/// Loads chunk `n` into a frame of this layout. It reads only the bytes of that chunk, piece by piece, each piece whole
/// before the next. It takes no memory. `Failed` only if the source counted a fault. The frame then holds no chunk.
pub fn load<S: ByteSource>(
    layout: &Layout,
    n: u32,
    src: &mut S,
    into: &mut Frame,
) -> Result<(), Failed>
    requires chunk { n < chunk_count layout.now }
    requires whole { file_size layout.now ≤ (S.file src.old).len }
    requires frame { length into.old.cells ≡ chunk_cells layout.now }
    ensures chunk { OnOk result (into.new.chunk ≡ Some n) }
    ensures no_chunk { OnErr result (into.new.chunk ≡ None) }
    ensures cells { OnOk result (HoldsChunk (S.file src.old).bytes layout.now n into.new.cells) }
    ensures frame { length into.new.cells ≡ length into.old.cells }
    ensures cause { OnErr result (Rose (S.faults src.old) (S.faults src.new)) }
    ensures faults { S.faults src.old ≤ S.faults src.new }
    ensures no_fault { OnOk result (S.faults src.new ≡ S.faults src.old) }
    ensures asked { AsksPieces (S.asked src.old) (S.asked src.new) (chunk_start layout.now n) (chunk_end layout.now n) }
    ensures same_file { S.file src.new ≡ S.file src.old }
{
    into.chunk = None;
    let at = chunk_offset(layout, n);
    let cells = into.cells.as_mut_slice();
    let bytes = into.bytes.as_mut_slice();
    read_pieces(src, at, cells, bytes)?;
    into.chunk = Some(n);
    Ok(())
}
