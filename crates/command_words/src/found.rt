//! What `clap` finds in words, by the id of a parameter. Each command's file reads its values by these.
ghost use Rattle.std.specs.Prelude.{◌≡◌, Some, None, true, IfOk, IsErrOf};
ghost use Rattle.clap.specs.Words.{app_of, found_of, rows_of, is_simple_and_free};
ghost use Rattle.command_words.specs.Rows.{rows_in, text_with_id, flag_with_id, number_with_id};
ghost use Rattle.command_words.specs.Parameters.{number_of};
ghost use Rattle.command_words.specs.Words.{bytes_of_words};

use crate::fault::{WordsFault, fault_from_kind};
use clap::ArgMatches;

/// What `clap` finds in the words by the rules of a command. `Usage` if it finds a fault in them.
pub fn matches_in<'a>(
    command: clap::Command<'a>,
    words: &'a [String],
) -> Result<ArgMatches<'a>, WordsFault>
    requires { is_simple_and_free (app_of command) ≡ true }
    ensures read { IfOk result (λ m.
        rows_in (app_of command.entry) (bytes_of_words words.entry.now) ≡ Some (rows_of (found_of m))) }
    ensures usage { IsErrOf result WordsFault.Usage →
        rows_in (app_of command.entry) (bytes_of_words words.entry.now) ≡ None }
{
    match command.try_get_matches_from(words) {
        Ok(matches) => Ok(matches),
        Err(error) => Err(fault_from_kind(error.kind())),
    }
}

/// The text with this id, empty if there is none.
pub fn text<'a>(matches: &ArgMatches<'a>, id: &str) -> &'a str
    ensures { result.now ≡ text_with_id id.now (rows_of (found_of matches.now)) }
{
    match matches.get_str(id) {
        Some(text) => text,
        None => "",
    }
}

/// Whether the flag with this id was given.
pub fn flag(matches: &ArgMatches<'_>, id: &str) -> bool
    ensures { result ≡ flag_with_id id.now (rows_of (found_of matches.now)) }
{
    text(matches, id) == "true"
}

/// The number with this id, 0 if there is none.
pub fn number(matches: &ArgMatches<'_>, id: &str) -> u64
    ensures { result ≡ number_with_id id.now (rows_of (found_of matches.now)) }
{
    number_in(text(matches, id))
}

/// The number that the text is, 0 if it is not a number.
fn number_in(text: &str) -> u64
    ensures { result ≡ number_of text.now }
{
    match text.parse::<u64>() {
        Ok(number) => number,
        Err(_) => 0,
    }
}
