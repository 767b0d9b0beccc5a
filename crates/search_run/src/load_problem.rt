//! Loading a problem: an array and a query.
//! Used in this crate by `plain`.
ghost use Rattle.std.specs.Prelude.{◌≡◌, ◌<◌, ◌⊎◌, ◌^◌, ◌∷◌, [], OnOk, IfErr};
ghost use Rattle.source_io.specs.Told.{Rose};
ghost use Rattle.source_io.specs.Files.{file_of};
ghost use Rattle.source_io.specs.Shelf.{ReadsFailed, SameReadFaults};
ghost use Rattle.lists.specs.Appending.{appended};
ghost use Rattle.search_run.specs.Loads.{OnlyOpens};
ghost use Rattle.search_run.specs.Problem.{LoadsProblem, AsksArray, AsksQuery, problem_reads};
ghost use Rattle.search_run.specs.Reads.{AsksOf};
ghost use Rattle.search_run.specs.Stops.{IsOfReading, IsCausedBy, UnlessReadFault};

use crate::Problem;
use crate::load::load_file;
use crate::query_file::QueryFile;
use crate::stop::Stop;
use array_file::read_header;
use chunk_store::read_cells;
use source_io::{ByteSource, Shelf};
use std::alloc::Global;

/// Loads the array in an open file, and the query in the file with a name: first the header of the array, then the
/// query, then the cells.
fn problem_from<F: Shelf>(
    alloc: Global,
    array: &mut F::Source,
    query: &str,
    shelf: &mut F,
) -> Result<Problem, Stop>
    requires { (F.state shelf.old).lent < 2 ^ 32 }
    ensures value { LoadsProblem (F.Source.file array.old).bytes (file_of (F.state shelf.old).holds query.now) result }
    ensures reads { IfErr result IsOfReading }
    ensures cause { IfErr result (IsCausedBy
        (Rose (F.Source.faults array.old) (F.Source.faults array.new)
        ⊎ ReadsFailed (F.state shelf.old) (F.state shelf.new))) }
    ensures no_fault { UnlessReadFault
        ((F.Source.faults array.new ≡ F.Source.faults array.old) × SameReadFaults (F.state shelf.old) (F.state shelf.new))
        result }
    ensures asked_array { AsksArray (F.Source.file array.old).bytes (file_of (F.state shelf.old).holds query.now)
        (F.Source.asked array.old) (F.Source.asked array.new) }
    ensures asked_query { AsksQuery (F.Source.file array.old).bytes (file_of (F.state shelf.old).holds query.now) query.now
        (F.state shelf.old).asked (F.state shelf.new).asked }
    ensures same_file { F.Source.file array.new ≡ F.Source.file array.old }
    ensures opens { OnlyOpens (query.now ∷ []) (F.state shelf.old) (F.state shelf.new) }
    ensures all_opened { OnOk result ((F.state shelf.new).opened ≡ appended (F.state shelf.old).opened (query.now ∷ [])) }
{
    // Nothing uses the number. The clauses of `size` say that a source that tells its bytes has as many.
    let _size = array.size();
    let layout = read_header(array)?;
    let query_file = QueryFile {
        rank: layout.rank(),
    };
    let query = load_file(alloc, &query_file, query, shelf)?;
    let cells = read_cells(alloc, &layout, array)?;
    Ok(Problem {
        query,
        shape: layout.shape(),
        cells,
    })
}

/// Opens an array file and a query file, loads the array and the query, and hands both files back. The array file stays
/// open while the query is loaded. A read fault is one that a count of the shelf shows.
pub fn load_problem<F: Shelf>(
    alloc: Global,
    array: &str,
    query: &str,
    shelf: &mut F,
) -> Result<Problem, Stop>
    requires { (F.state shelf.old).lent < 2 ^ 16 }
    ensures value { LoadsProblem (file_of (F.state shelf.old).holds array.now) (file_of (F.state shelf.old).holds query.now) result }
    ensures reads { IfErr result IsOfReading }
    ensures cause { IfErr result (IsCausedBy (ReadsFailed (F.state shelf.old) (F.state shelf.new))) }
    ensures no_fault { UnlessReadFault (SameReadFaults (F.state shelf.old) (F.state shelf.new)) result }
    ensures asked { AsksOf (problem_reads array.now query.now) (F.state shelf.old).holds (F.state shelf.old).asked (F.state shelf.new).asked }
    ensures opens { OnlyOpens (array.now ∷ query.now ∷ []) (F.state shelf.old) (F.state shelf.new) }
    ensures all_opened { OnOk result
        ((F.state shelf.new).opened ≡ appended (F.state shelf.old).opened (array.now ∷ query.now ∷ [])) }
{
    let mut source = shelf.open(array)?;
    let problem = problem_from(alloc, &mut source, query, shelf);
    shelf.close(source);
    problem
}
