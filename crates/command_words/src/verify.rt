//! The words of `verify ARRAY QUERY`, for `read_words`.
ghost use Rattle.std.specs.Prelude.{◌≡◌, Some, None, true, IfOk, IsErrOf};
ghost use Rattle.clap.specs.Words.{app_of, is_simple_and_free};
ghost use Rattle.command_words.specs.Verify.{verify_app, verify_in};
ghost use Rattle.command_words.specs.Words.{IsWithinLimits, bytes_of_words};
ghost use Rattle.command_words.specs.Commands.{command_of};

use crate::command::Command;
use crate::fault::WordsFault;
use crate::{found, rules};
use std::alloc::{AllocError, Global};

/// The rules of the words after `verify`.
fn verify_rules<'a>(alloc: Global) -> Result<clap::Command<'a>, AllocError>
    ensures rules { IfOk result (λ c. app_of c ≡ verify_app) }
    ensures simple { IfOk result (λ c. is_simple_and_free (app_of c) ≡ true) }
{
    let array = rules::text(alloc, "array");
    let query = rules::text(alloc, "query");
    let command = rules::bare(alloc, "verify").arg(array)?.arg(query)?;
    Ok(command)
}

/// The command that the words after `verify` ask for.
pub fn read_verify<'a>(alloc: Global, words: &'a [String]) -> Result<Command<'a>, WordsFault>
    ensures read { IfOk result (λ c. verify_in (bytes_of_words words.entry.now) ≡ Some (command_of c)) }
    ensures usage { IsErrOf result WordsFault.Usage → verify_in (bytes_of_words words.entry.now) ≡ None }
    ensures limits { IfOk result (λ c. IsWithinLimits (command_of c)) }
{
    let rules = verify_rules(alloc)?;
    let matches = found::matches_in(rules, words)?;
    let array = found::text(&matches, "array");
    let query = found::text(&matches, "query");
    Ok(Command::Verify { array, query })
}
