//! The top call, which the program makes.
ghost use Rattle.std.specs.Prelude.{◌≡◌, ◌≢◌, ◌<◌, ◌≤◌, ◌^◌, ◌⊎◌, None, false};
ghost use Rattle.source_io.specs.Told.{Rose};
ghost use Rattle.source_io.specs.Shelf.{ReadsFailed, WritesFailed, SameReadFaults, SameWriteFaults};
ghost use Rattle.lists.specs.Appending.{appended, AppendsPrefix};
ghost use Rattle.command_words.specs.Words.{names_command, bytes_of_words};
ghost use Rattle.command_words.specs.Commands.{command_of};
ghost use Rattle.report.specs.Status.{status_of};
ghost use Rattle.search_run.specs.Meaning.{told_output_of};
ghost use Rattle.search_run.specs.Meanings.{meaning, meaning_in, done_for};
ghost use Rattle.search_run.specs.Verdict.{asked_by, told_verdict, told_output, makes_file, told_file, reads, openings};
ghost use Rattle.search_run.specs.Reads.{AsksOf};
ghost use Rattle.search_run.specs.Ends.{
  RunsAs,
  MakesFile,
  LeavesFile,
  WriteFails,
  Prints,
  PrintsWhole,
  PrintsPrefix,
  IsStatus,
  IsStatusOrNoMemory,
  SaysEnding,
};

use crate::info::info;
use crate::pack::pack;
use crate::plain::list_solutions;
use command_words::{Command, WordsFault, read_words};
use report::{Ending, Failure, Refusal, report_ending};
use source_io::{Shelf, Sink};
use std::alloc::Global;

/// Runs a command, and answers how it ended. It writes nothing to the error stream.
fn run_command<F: Shelf, O: Sink>(
    alloc: Global,
    command: Command<'_>,
    shelf: &mut F,
    out: &mut O,
) -> Ending
    requires lent { (F.state shelf.old).lent < 2 ^ 16 }
    requires making { (F.state shelf.old).making ≡ None }
    ensures runs { RunsAs (done_for (meaning (command_of command.entry))) result (F.state shelf.old) (F.state shelf.new) }
    ensures output { Prints result
        (told_output_of (F.state shelf.old).holds (done_for (meaning (command_of command.entry))))
        (O.written out.old) (O.written out.new) }
    ensures write_fault { status_of result ≡ 6 →
        WriteFails (done_for (meaning (command_of command.entry))).makes_file (F.state shelf.old) (F.state shelf.new) (O.faults out.old) (O.faults out.new) }
    ensures no_write_fault { status_of result ≢ 6 → O.faults out.new ≡ O.faults out.old }
    ensures usage { status_of result ≡ 2 → meaning (command_of command.entry) ≡ None }
    ensures unread { meaning (command_of command.entry) ≡ None → status_of result ≡ 2 }
{
    match command {
        Command::Solo { array, query } => list_solutions(alloc, array, query, shelf, out),
        Command::Verify { array, query } => list_solutions(alloc, array, query, shelf, out),
        Command::Pack { text, array } => pack(alloc, text, array, shelf),
        Command::Info { array } => info(alloc, array, shelf, out),
        Command::Search { .. } => Ending::Refused(Refusal::Words),
    }
}

/// Runs the command that the words name, and answers how it ended. It writes nothing to the error stream.
#[tactic(auto, using(lists::proofs::Appending::prefix_nothing, crate::proofs::Asking::told_same))]
fn run<F: Shelf, O: Sink>(alloc: Global, words: &[String], shelf: &mut F, out: &mut O) -> Ending
    requires lent { (F.state shelf.old).lent < 2 ^ 16 }
    requires making { (F.state shelf.old).making ≡ None }
    ensures runs { RunsAs (asked_by words.now) result
        (F.state shelf.old) (F.state shelf.new) }
    ensures output { Prints result
        (told_output_of (F.state shelf.old).holds (asked_by words.now))
        (O.written out.old) (O.written out.new) }
    ensures write_fault { status_of result ≡ 6 →
        WriteFails (makes_file words.now) (F.state shelf.old) (F.state shelf.new) (O.faults out.old) (O.faults out.new) }
    ensures no_write_fault { status_of result ≢ 6 → O.faults out.new ≡ O.faults out.old }
    ensures usage { status_of result ≡ 2 → meaning_in (bytes_of_words words.now) ≡ None }
    ensures unread { meaning_in (bytes_of_words words.now) ≡ None → (status_of result ≡ 2) ⊎ (status_of result ≡ 7) }
    ensures unnamed { names_command (bytes_of_words words.now) ≡ false → status_of result ≡ 2 }
{
    match read_words(alloc, words) {
        Ok(command) => run_command(alloc, command, shelf, out),
        Err(WordsFault::Usage) => Ending::Refused(Refusal::Words),
        Err(WordsFault::NoMemory) => Ending::Failed(Failure::NoMemory),
    }
}

/// Runs the command that the words name on a shelf of files. It writes the command's output to `out` and makes the
/// command's file. If it cannot, it writes one line to `err` that says why. It answers the exit status:
///
/// - 0: the output is whole, and so is the file.
/// - 2: the words name no command. 3: the array file or the array text is refused. 4: the query file is refused.
///   Each of these comes only if the words or the bytes show it, and then always, unless a fault or out of memory
///   came first. Nothing was written to `out`, and no file was made.
/// - 5: a file could not be opened, created or read, which a count of the shelf shows. 6: `out` or the file could not
///   be written, which its count shows. 7: out of memory. A prefix of the output was written, and at 6 a prefix of
///   the file.
///
/// The clauses speak of what the words and the told files determine. It returns on all words and files.
pub fn run_tool<F: Shelf, O: Sink, E: Sink>(
    alloc: Global,
    words: &[String],
    shelf: &mut F,
    out: &mut O,
    err: &mut E,
) -> u8
    requires lent { (F.state shelf.old).lent < 2 ^ 16 }
    requires making { (F.state shelf.old).making ≡ None }

    // The status is the verdict's, unless a fault or out of memory came first.
    ensures status { IsStatus (told_verdict (F.state shelf.old).holds words.now) result }
    ensures usage { result ≡ 2 → meaning_in (bytes_of_words words.now) ≡ None }
    ensures unread { meaning_in (bytes_of_words words.now) ≡ None → (result ≡ 2) ⊎ (result ≡ 7) }
    ensures unnamed { names_command (bytes_of_words words.now) ≡ false → result ≡ 2 }
    ensures known { result ≤ 7 }

    // At 0 the output is whole, at 2, 3 and 4 there is none, and at 5, 6 and 7 there is a prefix of it.
    ensures whole { result ≡ 0 →
        PrintsWhole (told_output (F.state shelf.old).holds words.now) (O.written out.old) (O.written out.new) }
    ensures silent { 2 ≤ result → result ≤ 4 → O.written out.new ≡ O.written out.old }
    ensures prefix { PrintsPrefix (told_output (F.state shelf.old).holds words.now) (O.written out.old) (O.written out.new) }

    // The line on the error stream is the line of the status. A fault of that stream changes no status.
    ensures said { SaysEnding (told_verdict (F.state shelf.old).holds words.now) result
        (Rose (E.faults err.old) (E.faults err.new)) (E.written err.old) (E.written err.new) }
    ensures quiet { result ≡ 0 → E.written err.new ≡ E.written err.old }

    // A fault has its cause, and a fault that the status does not name did not come. If no count rose, the status is
    // the verdict's, or 7.
    ensures read_fault { result ≡ 5 → ReadsFailed (F.state shelf.old) (F.state shelf.new) }
    ensures write_fault { result ≡ 6 →
        WriteFails (makes_file words.now) (F.state shelf.old) (F.state shelf.new) (O.faults out.old) (O.faults out.new) }
    ensures no_read_fault { result ≢ 5 → SameReadFaults (F.state shelf.old) (F.state shelf.new) }
    ensures no_write_fault { result ≢ 6 →
        (O.faults out.new ≡ O.faults out.old) × SameWriteFaults (F.state shelf.old) (F.state shelf.new) }
    ensures complete { ¬ ReadsFailed (F.state shelf.old) (F.state shelf.new)
        → ¬ WritesFailed (F.state shelf.old) (F.state shelf.new)
        → ¬ Rose (O.faults out.old) (O.faults out.new)
        → IsStatusOrNoMemory (told_verdict (F.state shelf.old).holds words.now) result }

    // At 0 the command's file was added to the files. At 6 a prefix of it may have been. Otherwise no file changed.
    ensures made { result ≡ 0 →
        MakesFile (told_file (F.state shelf.old).holds words.now) (F.state shelf.old).holds (F.state shelf.new).holds }
    ensures left { LeavesFile (told_file (F.state shelf.old).holds words.now) (F.state shelf.old).holds (F.state shelf.new).holds }
    ensures unmade { result ≢ 0 → result ≢ 6 → (F.state shelf.new).holds ≡ (F.state shelf.old).holds }

    // It reads no other parts of the files than the command's: nothing of a file that is too long, and the cells of an
    // array file only after everything else was accepted.
    ensures asked { AsksOf (reads words.now) (F.state shelf.old).holds (F.state shelf.old).asked (F.state shelf.new).asked }

    // It opens and creates no other names than the command's, and hands all files back.
    ensures opened { AppendsPrefix (F.state shelf.old).opened (openings words.now) (F.state shelf.new).opened }
    ensures all_opened { result ≡ 0 →
        (F.state shelf.new).opened ≡ appended (F.state shelf.old).opened (openings words.now) }
    ensures lent { (F.state shelf.new).lent ≡ (F.state shelf.old).lent }
    ensures making { (F.state shelf.new).making ≡ (F.state shelf.old).making }
{
    let ending = run(alloc, words, shelf, out);
    report_ending(ending, err)
}
