//! The command `pack`: makes the array file of an array text.
ghost use Rattle.std.specs.Prelude.{◌≡◌, ◌≢◌, ◌<◌, ◌≤◌, ◌^◌, None, [], ◌∷◌, length};
ghost use Rattle.source_io.specs.Told.{Rose};
ghost use Rattle.source_io.specs.Files.{with_file, HasPrefix};
ghost use Rattle.source_io.specs.Shelf.{TakesNothingBack, WritesFailed, SameWriteFaults};
ghost use Rattle.lists.specs.Appending.{appended, AppendsPrefix};
ghost use Rattle.lists.specs.Numbers.{product};
ghost use Rattle.array_file.specs.Written.{array_bytes};
ghost use Rattle.report.specs.Status.{status_of};
ghost use Rattle.search_run.specs.Texts.{LoadsText, packing};
ghost use Rattle.search_run.specs.Reads.{whole_up_to};
ghost use Rattle.search_run.specs.Ends.{IsFailed, RunsAs};

use crate::load::{Load, load_file};
use crate::read_all::read_all;
use crate::stop::Stop;
use array_file::write_array;
use array_text::{ArrayText, check_size, read_array_text};
use cells::Cell;
use layouts::Layout;
use report::{Ending, Failure};
use source_io::{ByteSource, Shelf};
use std::alloc::Global;

/// A file that holds an array text.
#[derive(Drop)]
pub struct TextFile;

impl Load for TextFile {
    type Value = ArrayText;

    ghost loads = { λ what bytes result. LoadsText bytes result };

    ghost parts = { λ what bytes. whole_up_to (2 ^ 30) bytes };

    ghost may_fail = { λ what bytes failure. tt };

    /// A text that is too long is refused and not read.
    fn load<S: ByteSource>(&self, alloc: Global, source: &mut S) -> Result<ArrayText, Stop> {
        check_size(source.size())?;
        let bytes = read_all(alloc, source)?;
        let read = read_array_text(alloc, bytes.as_slice())?;
        Ok(read)
    }
}

/// Makes the array file of a layout and its cells. If a file has the name, it is replaced.
#[tactic(auto, using(lists::proofs::Appending::prefix_whole, lists::proofs::Appending::prefix_nothing))]
fn make_array<F: Shelf>(name: &str, layout: &Layout, cells: &[Cell], shelf: &mut F) -> Ending
    requires count { length cells.now ≡ product layout.now.extents }
    requires making { (F.state shelf.old).making ≡ None }
    ensures kinds { result ≢ Ending.Done → IsFailed result }
    ensures whole { result ≡ Ending.Done →
        (F.state shelf.new).holds ≡ with_file (F.state shelf.old).holds name.now (array_bytes layout.now cells.now) }
    ensures prefix { status_of result ≡ 6 →
        HasPrefix (F.state shelf.old).holds name.now (array_bytes layout.now cells.now) (F.state shelf.new).holds }
    ensures nothing { result ≢ Ending.Done → status_of result ≢ 6 → (F.state shelf.new).holds ≡ (F.state shelf.old).holds }
    ensures read_fault { status_of result ≡ 5 → Rose (F.state shelf.old).faults (F.state shelf.new).faults }
    ensures no_read_fault { status_of result ≢ 5 → (F.state shelf.new).faults ≡ (F.state shelf.old).faults }
    ensures write_fault { status_of result ≡ 6 → WritesFailed (F.state shelf.old) (F.state shelf.new) }
    ensures no_write_fault { status_of result ≢ 6 → SameWriteFaults (F.state shelf.old) (F.state shelf.new) }
    ensures faults { (F.state shelf.old).faults ≤ (F.state shelf.new).faults }
    ensures all_opened { result ≡ Ending.Done →
        (F.state shelf.new).opened ≡ appended (F.state shelf.old).opened (name.now ∷ []) }
    ensures opened { AppendsPrefix (F.state shelf.old).opened (name.now ∷ []) (F.state shelf.new).opened }
    ensures takes_nothing_back { TakesNothingBack (F.state shelf.old) (F.state shelf.new) }
    ensures lent { (F.state shelf.new).lent ≡ (F.state shelf.old).lent }
    ensures making { (F.state shelf.new).making ≡ None }
{
    let mut out = match shelf.create(name) {
        Ok(out) => out,
        Err(fault) => return Ending::from(Stop::from(fault)),
    };
    let written = write_array(layout, cells, &mut out);
    shelf.finish(name, out);
    match written {
        Ok(()) => Ending::Done,
        Err(_) => Ending::Failed(Failure::Write),
    }
}

/// Makes the array file `array` of the array text `text`, and answers how that ended. The whole text is read, and all
/// memory is taken, before the file is created.
pub fn pack<F: Shelf>(alloc: Global, text: &str, array: &str, shelf: &mut F) -> Ending
    requires lent { (F.state shelf.old).lent < 2 ^ 16 }
    requires making { (F.state shelf.old).making ≡ None }
    ensures runs { RunsAs (packing text.now array.now) result (F.state shelf.old) (F.state shelf.new) }
    ensures write_fault { status_of result ≡ 6 → WritesFailed (F.state shelf.old) (F.state shelf.new) }
    ensures not_usage { status_of result ≢ 2 }
{
    match load_file(alloc, &TextFile, text, shelf) {
        Ok(read) => make_array(array, &read.layout, read.cells.as_slice(), shelf),
        Err(stop) => Ending::from(stop),
    }
}
