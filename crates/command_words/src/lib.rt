//! The words of a command line. `read_words` gives the command that they name, with what they give, or says that they
//! name none. The first word is compared with the names of the commands. `clap` reads the words after it, by the rules
//! of that command. Each command has a file of its own for its rules.
//!
//! Definitions: `specs/Words` (the command that words name, by what `clap` makes of them), one file for each command,
//! as `specs/Solo` (its parameters), and `specs/Commands` (a command as the program holds it). The laws in
//! `src/laws.rt` say by `specs/Parameters` and `specs/Texts`, without a word of `clap`, what words give to the
//! parameters of a command.
//! It stands on `clap`. `search_run` reads its words with it.
#![tactic(auto)]

mod command;
mod fault;
mod found;
mod info;
pub mod laws;
mod pack;
mod read;
mod rules;
mod search;
mod solo;
mod verify;

pub use crate::command::Command;
pub use crate::fault::WordsFault;
pub use crate::read::read_words;
