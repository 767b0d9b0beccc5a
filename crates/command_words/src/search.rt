//! The words of `search ARRAY QUERY [--solvers N] [--validators N] [--frames N] [--strips N] [--summary]`, for
//! `read_words`.
ghost use Rattle.std.specs.Prelude.{◌≡◌, Some, None, true, IfOk, IsErrOf};
ghost use Rattle.clap.specs.Words.{app_of, is_simple_and_free};
ghost use Rattle.command_words.specs.Search.{search_app, search_in};
ghost use Rattle.command_words.specs.Words.{IsWithinLimits, bytes_of_words};
ghost use Rattle.command_words.specs.Commands.{command_of};

use crate::command::Command;
use crate::fault::WordsFault;
use crate::{found, rules};
use std::alloc::{AllocError, Global};

/// The rules of the words after `search`.
fn search_rules<'a>(alloc: Global) -> Result<clap::Command<'a>, AllocError>
    ensures rules { IfOk result (λ c. app_of c ≡ search_app) }
    ensures simple { IfOk result (λ c. is_simple_and_free (app_of c) ≡ true) }
{
    let array = rules::text(alloc, "array");
    let query = rules::text(alloc, "query");
    let solvers = rules::number(alloc, "solvers", 1, 16, "2");
    let validators = rules::number(alloc, "validators", 0, 16, "1");
    let frames = rules::number(alloc, "frames", 1, 256, "16");
    let strips = rules::number(alloc, "strips", 1, 4096, "1");
    let summary = rules::flag(alloc, "summary");
    let command = rules::bare(alloc, "search")
        .arg(array)?
        .arg(query)?
        .arg(solvers)?
        .arg(validators)?
        .arg(frames)?
        .arg(strips)?
        .arg(summary)?;
    Ok(command)
}

/// The command that the words after `search` ask for.
pub fn read_search<'a>(alloc: Global, words: &'a [String]) -> Result<Command<'a>, WordsFault>
    ensures read { IfOk result (λ c. search_in (bytes_of_words words.entry.now) ≡ Some (command_of c)) }
    ensures usage { IsErrOf result WordsFault.Usage → search_in (bytes_of_words words.entry.now) ≡ None }
    ensures limits { IfOk result (λ c. IsWithinLimits (command_of c)) }
{
    let rules = search_rules(alloc)?;
    let matches = found::matches_in(rules, words)?;
    let array = found::text(&matches, "array");
    let query = found::text(&matches, "query");
    let solvers = found::number(&matches, "solvers");
    let validators = found::number(&matches, "validators");
    let frames = found::number(&matches, "frames");
    let strips = found::number(&matches, "strips");
    let summary = found::flag(&matches, "summary");
    Ok(Command::Search {
        array,
        query,
        solvers,
        validators,
        frames,
        strips,
        summary,
    })
}
