//! The commands `solo` and `verify`: print all solutions, found by plain enumeration.
ghost use Rattle.std.specs.Prelude.{◌≡◌, ◌<◌, ◌^◌, ◌≢◌};
ghost use Rattle.source_io.specs.Told.{Rose};
ghost use Rattle.source_io.specs.Shelf.{SameWriteFaults};
ghost use Rattle.report.specs.Status.{status_of};
ghost use Rattle.search_run.specs.Meaning.{told_output_of};
ghost use Rattle.search_run.specs.Problem.{listing};
ghost use Rattle.search_run.specs.Ends.{Prints, RunsAs};

use crate::load_problem::load_problem;
use plain_enum::list_plain;
use report::{Ending, Failure, print_solutions};
use source_io::{Shelf, Sink};
use std::alloc::Global;

/// Prints the solutions of the query in one file on the array in another, in order, and answers how that ended.
pub fn list_solutions<F: Shelf, O: Sink>(
    alloc: Global,
    array: &str,
    query: &str,
    shelf: &mut F,
    out: &mut O,
) -> Ending
    requires { (F.state shelf.old).lent < 2 ^ 16 }
    ensures runs { RunsAs (listing array.now query.now) result (F.state shelf.old) (F.state shelf.new) }
    ensures output { Prints result (told_output_of (F.state shelf.old).holds (listing array.now query.now))
        (O.written out.old) (O.written out.new) }
    ensures write_fault { status_of result ≡ 6 → Rose (O.faults out.old) (O.faults out.new) }
    ensures no_write_fault { status_of result ≢ 6 → O.faults out.new ≡ O.faults out.old }
    ensures no_file_fault { SameWriteFaults (F.state shelf.old) (F.state shelf.new) }
    ensures not_usage { status_of result ≢ 2 }
{
    let problem = match load_problem(alloc, array, query, shelf) {
        Ok(problem) => problem,
        Err(stop) => return Ending::from(stop),
    };
    let points = match list_plain(
        alloc,
        &problem.query,
        &problem.shape,
        problem.cells.as_slice(),
    ) {
        Ok(points) => points,
        Err(_) => return Ending::Failed(Failure::NoMemory),
    };
    match print_solutions(&problem.query, points.as_slice(), out) {
        Ok(()) => Ending::Done,
        Err(_) => Ending::Failed(Failure::Write),
    }
}
