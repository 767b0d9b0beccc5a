//! The record of all cells of an array file.
//! Used by `search_run`.
ghost use Rattle.std.specs.Prelude.{◌≡◌, ◌+◌, ◌<◌, ◌≤◌, ◌⊎◌, length, IfOk, OnOk, OnErr, IsErrOf};
ghost use Rattle.source_io.specs.Told.{Rose};
ghost use Rattle.lists.specs.Numbers.{product};
ghost use Rattle.layouts.specs.Chunks.{chunk_cells, chunk_count};
ghost use Rattle.layouts.specs.Rules.{IsLayout};
ghost use Rattle.array_file.specs.Header.{file_size};
ghost use Rattle.array_file.specs.Stored.{chunk_start};
ghost use Rattle.chunk_store.specs.Pieces.{AsksPieces, chunk_end};
ghost use Rattle.chunk_store.specs.Summaries.{IsRecordOfCells, IsRecordOfArray, SumsFirst};

use crate::array::CellsFault;
use crate::{Frame, chunk_record, load};
use cells::{NOTHING, Record, merge};
use layouts::Layout;
use source_io::{ByteSource, Failed};
use std::alloc::Global;

/// Loads chunk `n` into the frame, and adds its record to the record of the first `n` chunks.
fn add_record<S: ByteSource>(
    layout: &Layout,
    n: u32,
    src: &mut S,
    frame: &mut Frame,
    all: Record,
) -> Result<Record, Failed>
    requires rules { IsLayout layout.now }
    requires chunk { n < chunk_count layout.now }
    requires whole { file_size layout.now ≤ (S.file src.old).len }
    requires frame { length frame.old.cells ≡ chunk_cells layout.now }
    requires all { SumsFirst (S.file src.old).bytes layout.now n all }
    ensures all { IfOk result (λ r. SumsFirst (S.file src.old).bytes layout.now (n + 1) r) }
    ensures frame { length frame.new.cells ≡ chunk_cells layout.now }
    ensures cause { OnErr result (Rose (S.faults src.old) (S.faults src.new)) }
    ensures faults { S.faults src.old ≤ S.faults src.new }
    ensures no_fault { OnOk result (S.faults src.new ≡ S.faults src.old) }
    ensures asked { AsksPieces (S.asked src.old) (S.asked src.new) (chunk_start layout.now n) (chunk_end layout.now n) }
    ensures same_file { S.file src.new ≡ S.file src.old }
{
    load(layout, n, src, frame)?;
    let one = chunk_record(layout, n, frame.cells());
    Ok(merge(all, one))
}

/// Loads each chunk once, in order, and gives the record of all chunks.
fn add_records<S: ByteSource>(
    layout: &Layout,
    src: &mut S,
    frame: &mut Frame,
) -> Result<Record, Failed>
    requires whole { file_size layout.now ≤ (S.file src.old).len }
    requires frame { length frame.old.cells ≡ chunk_cells layout.now }
    ensures record { IfOk result (λ r. IsRecordOfCells (S.file src.old).bytes layout.now r) }
    ensures array { IfOk result (λ r. IsRecordOfArray (S.file src.old).bytes layout.now r) }
    ensures count { IfOk result (λ r. r.count ≤ product layout.now.extents) }
    ensures cause { OnErr result (Rose (S.faults src.old) (S.faults src.new)) }
    ensures faults { S.faults src.old ≤ S.faults src.new }
    ensures no_fault { OnOk result (S.faults src.new ≡ S.faults src.old) }
    ensures asked { AsksPieces (S.asked src.old) (S.asked src.new) 96 (file_size layout.now) }
    ensures same_file { S.file src.new ≡ S.file src.old }
{
    let mut all = NOTHING;
    for n in 0..layout.chunks() {
        all = add_record(layout, n, src, frame, all)?;
    }
    Ok(all)
}

/// The record of all cells of a file of this layout. Each chunk is loaded once, in order, into one frame, so at most
/// one chunk is in memory. Padding is not counted. All memory is taken before the source is read. `Read` only if the
/// source counted a fault. `NoMemory` if memory ran out.
pub fn array_record<S: ByteSource>(
    alloc: Global,
    layout: &Layout,
    src: &mut S,
) -> Result<Record, CellsFault>
    requires { file_size layout.now ≤ (S.file src.old).len }
    ensures record { IfOk result (λ r. IsRecordOfCells (S.file src.old).bytes layout.now r) }
    ensures array { IfOk result (λ r. IsRecordOfArray (S.file src.old).bytes layout.now r) }
    ensures count { IfOk result (λ r. r.count ≤ product layout.now.extents) }
    ensures cause { IsErrOf result CellsFault.Read → Rose (S.faults src.old) (S.faults src.new) }
    ensures faults { S.faults src.old ≤ S.faults src.new }
    ensures no_fault { (S.faults src.new ≡ S.faults src.old) ⊎ IsErrOf result CellsFault.Read }
    ensures asked { AsksPieces (S.asked src.old) (S.asked src.new) 96 (file_size layout.now) }
    ensures same_file { S.file src.new ≡ S.file src.old }
{
    let Ok(mut frame) = Frame::new(alloc, layout) else {
        return Err(CellsFault::NoMemory);
    };
    match add_records(layout, src, &mut frame) {
        Ok(all) => Ok(all),
        Err(_) => Err(CellsFault::Read),
    }
}
