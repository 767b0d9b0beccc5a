//! The exit status of an ending, and its line on the error stream.
//! Used by `search_run` and by the program.
ghost use Rattle.std.specs.Prelude.{◌≡◌, ◌≤◌, length};
ghost use Rattle.source_io.specs.Told.{Rose};
ghost use Rattle.report.specs.Status as parts;
ghost use Rattle.report.specs.Status.{status_of, message_of, message_with, refusal_rank, failure_rank, Says};

use crate::ending::{Ending, Failure, Refusal};
use crate::line::Line;
use crate::refusals::refusal_text;
use source_io::{Sink, write_whole};

impl Refusal {
    /// Which of the refusals it is, from 0, in the order of their statuses.
    fn rank(self) -> u8
        ensures rank { result ≡ refusal_rank self }
        ensures known { result ≤ 2 }
    {
        match self {
            Refusal::Words => 0,
            Refusal::Array(_) | Refusal::Text(_) => 1,
            Refusal::Query(_) => 2,
        }
    }
}

impl Failure {
    /// Which of the failures it is, from 0, in the order of their statuses.
    fn rank(self) -> u8
        ensures rank { result ≡ failure_rank self }
        ensures known { result ≤ 2 }
    {
        match self {
            Failure::Read => 0,
            Failure::Write => 1,
            Failure::NoMemory => 2,
        }
    }
}

/// What a failure says.
fn failure_text(failure: Failure) -> Line
    ensures text { result ≡ parts.failure_text failure }
    ensures short { length result ≤ 11 }
{
    match failure {
        Failure::Read => Line::from_text(b"read fault"),
        Failure::Write => Line::from_text(b"write fault"),
        Failure::NoMemory => Line::from_text(b"no memory"),
    }
}

/// The program's line with this text.
fn message_with_text(text: &Line) -> Line
    requires { length text.now ≤ 380 }
    ensures { result ≡ message_with text.now }
{
    let mut line = Line::from_text(b"searchlight: ");
    line.push(text.as_bytes());
    line.push(b"\n");
    line
}

impl Ending {
    /// The exit status, from 0 to 7 without 1.
    pub fn status(self) -> u8
        ensures status { result ≡ status_of self }
        ensures known { result ≤ 7 }
    {
        match self {
            Ending::Done => 0,
            Ending::Refused(refusal) => 2 + refusal.rank(),
            Ending::Failed(failure) => 5 + failure.rank(),
        }
    }

    /// The line for the error stream. It is empty if the output is whole.
    pub fn message(self) -> Line
        ensures { result ≡ message_of self }
    {
        match self {
            Ending::Done => Line::new(),
            Ending::Refused(refusal) => message_with_text(&refusal_text(refusal)),
            Ending::Failed(failure) => message_with_text(&failure_text(failure)),
        }
    }
}

/// Writes the message of an ending to `err`, and answers the exit status. A fault of `err` changes no status.
pub fn report_ending<E: Sink>(ending: Ending, err: &mut E) -> u8
    ensures status { result ≡ status_of ending }
    ensures known { result ≤ 7 }
    ensures said { Says (message_of ending) (Rose (E.faults err.old) (E.faults err.new))
        (E.written err.old) (E.written err.new) }
    ensures faults { E.faults err.old ≤ E.faults err.new }
{
    let _ = write_whole(err, ending.message().as_bytes());
    ending.status()
}
