//! The commands: what the words of a command line ask for, done on a shelf of files.
//! The top call is `run_tool`. Its contract says what is printed, with which exit status, and from which cause.
//!
//! Definitions: `specs/Meaning` (what a command means, by the files alone), with each command's own meaning in
//! `specs/Problem`, `specs/Texts` and `specs/Info`, and all of them in `specs/Meanings`; `specs/Verdict` (the same by the
//! words), `specs/Ends` (how a command and a run end), `specs/Loads` and `specs/Stops` (what loading does, and what
//! stops it). `report` has the exit statuses and the messages, and `command_words` says which words name which command.
//! It stands on the crates that read and write files, on `plain_enum` and on `report`. The program `searchlight`
//! calls it.
#![tactic(auto)]

mod info;
mod load;
mod load_problem;
mod pack;
mod plain;
mod problem;
mod query_file;
mod read_all;
mod run;
mod stop;

pub use crate::problem::Problem;
pub use crate::run::run_tool;
pub use crate::stop::Stop;
