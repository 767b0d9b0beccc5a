//! The words of `info ARRAY`, for `read_words`.
ghost use Rattle.std.specs.Prelude.{◌≡◌, Some, None, true, IfOk, IsErrOf};
ghost use Rattle.clap.specs.Words.{app_of, is_simple_and_free};
ghost use Rattle.command_words.specs.Info.{info_app, info_in};
ghost use Rattle.command_words.specs.Words.{IsWithinLimits, bytes_of_words};
ghost use Rattle.command_words.specs.Commands.{command_of};

use crate::command::Command;
use crate::fault::WordsFault;
use crate::{found, rules};
use std::alloc::{AllocError, Global};

/// The rules of the words after `info`.
fn info_rules<'a>(alloc: Global) -> Result<clap::Command<'a>, AllocError>
    ensures rules { IfOk result (λ c. app_of c ≡ info_app) }
    ensures simple { IfOk result (λ c. is_simple_and_free (app_of c) ≡ true) }
{
    let array = rules::text(alloc, "array");
    let command = rules::bare(alloc, "info").arg(array)?;
    Ok(command)
}

/// The command that the words after `info` ask for.
pub fn read_info<'a>(alloc: Global, words: &'a [String]) -> Result<Command<'a>, WordsFault>
    ensures read { IfOk result (λ c. info_in (bytes_of_words words.entry.now) ≡ Some (command_of c)) }
    ensures usage { IsErrOf result WordsFault.Usage → info_in (bytes_of_words words.entry.now) ≡ None }
    ensures limits { IfOk result (λ c. IsWithinLimits (command_of c)) }
{
    let rules = info_rules(alloc)?;
    let matches = found::matches_in(rules, words)?;
    let array = found::text(&matches, "array");
    Ok(Command::Info { array })
}
