//! How a command ends. Every command answers with an `Ending`.
//! Used in this crate by `endings` and `refusals`, and by all of `search_run`.
use array_file::FileRefusal;
use array_text::TextRefusal;
use query_text::QueryRefusal;

/// Why a command is refused: because of its words, or because of the bytes of its files.
#[derive(Clone, Copy, Debug, PartialEq, Eq)]
pub enum Refusal {
    /// The words name no command.
    Words,
    /// The array file is refused.
    Array(FileRefusal),
    /// The array text is refused.
    Text(TextRefusal),
    /// The query file is refused.
    Query(QueryRefusal),
}

/// What failed, if the command is not refused.
#[derive(Clone, Copy, Debug, PartialEq, Eq)]
pub enum Failure {
    /// A file could not be opened, created or read.
    Read,
    /// The output, or the file that is made, could not be written.
    Write,
    /// Memory ran out.
    NoMemory,
}

/// How a command ends: its output is whole, or what prevented this.
#[derive(Clone, Copy, Debug, PartialEq, Eq)]
pub enum Ending {
    /// The output is whole.
    Done,
    /// The command is refused. It wrote nothing.
    Refused(Refusal),
    /// The command failed. It may have written a prefix of its output.
    Failed(Failure),
}
