//! The command `info`: prints what an array file holds.
ghost use Rattle.std.specs.Prelude.{◌≡◌, ◌<◌, ◌^◌, ◌≢◌};
ghost use Rattle.source_io.specs.Told.{Rose};
ghost use Rattle.source_io.specs.Shelf.{SameWriteFaults};
ghost use Rattle.report.specs.Status.{status_of};
ghost use Rattle.search_run.specs.Info.{LoadsInfo, describing};
ghost use Rattle.array_file.specs.Stored.{refusal_of};
ghost use Rattle.search_run.specs.Meaning.{told_output_of};
ghost use Rattle.search_run.specs.Reads.{array_parts};
ghost use Rattle.search_run.specs.Ends.{Prints, RunsAs};

use crate::load::{Load, load_file};
use crate::stop::Stop;
use array_file::read_header;
use cells::Record;
use chunk_store::array_record;
use layouts::Layout;
use report::{Ending, Failure, print_info};
use source_io::{ByteSource, Shelf, Sink};
use std::alloc::Global;

/// What `info` prints of an array file.
#[derive(Drop)]
pub struct ArrayInfo {
    pub layout: Layout,
    /// The record of its present cells.
    pub cells: Record,
}

/// An array file, of which the layout and the record are loaded.
#[derive(Drop)]
pub struct DescribedFile;

impl Load for DescribedFile {
    type Value = ArrayInfo;

    ghost loads = { λ what bytes result. LoadsInfo bytes result };

    ghost parts = { λ what bytes. array_parts (refusal_of bytes) bytes };

    ghost may_fail = { λ what bytes failure. tt };

    /// No more than one chunk is in memory at a time.
    fn load<S: ByteSource>(&self, alloc: Global, source: &mut S) -> Result<ArrayInfo, Stop> {
        // Nothing uses the number. The clauses of `size` say that a source that tells its bytes has as many.
        let _size = source.size();
        let layout = read_header(source)?;
        let cells = array_record(alloc, &layout, source)?;
        Ok(ArrayInfo { layout, cells })
    }
}

/// Prints the layout of the array in a file and the record of its cells, and answers how that ended.
pub fn info<F: Shelf, O: Sink>(alloc: Global, array: &str, shelf: &mut F, out: &mut O) -> Ending
    requires { (F.state shelf.old).lent < 2 ^ 16 }
    ensures runs { RunsAs (describing array.now) result (F.state shelf.old) (F.state shelf.new) }
    ensures output { Prints result (told_output_of (F.state shelf.old).holds (describing array.now))
        (O.written out.old) (O.written out.new) }
    ensures write_fault { status_of result ≡ 6 → Rose (O.faults out.old) (O.faults out.new) }
    ensures no_write_fault { status_of result ≢ 6 → O.faults out.new ≡ O.faults out.old }
    ensures no_file_fault { SameWriteFaults (F.state shelf.old) (F.state shelf.new) }
    ensures not_usage { status_of result ≢ 2 }
{
    let info = match load_file(alloc, &DescribedFile, array, shelf) {
        Ok(info) => info,
        Err(stop) => return Ending::from(stop),
    };
    match print_info(&info.layout, info.cells, out) {
        Ok(()) => Ending::Done,
        Err(_) => Ending::Failed(Failure::Write),
    }
}
