//! Reading the words of a command line, the first by its text and the others by `clap`.
ghost use Rattle.std.specs.Prelude.{◌≡◌, Some, None, IfOk, IsErrOf, IsTrue};
ghost use Rattle.command_words.specs.Words.{
  IsWithinLimits,
  is_command_name,
  command_named,
  command_in,
  names_command,
  bytes_of_words,
};
ghost use Rattle.command_words.specs.Commands.{command_of};

use crate::command::Command;
use crate::fault::WordsFault;
use crate::info::read_info;
use crate::pack::read_pack;
use crate::search::read_search;
use crate::solo::read_solo;
use crate::verify::read_verify;
use std::alloc::Global;

/// The command of a name and the words after it.
fn read_named<'a>(alloc: Global, name: &str, words: &'a [String]) -> Result<Command<'a>, WordsFault>
    ensures read { IfOk result (λ c. command_named name.now (bytes_of_words words.entry.now) ≡ Some (command_of c)) }
    ensures usage { IsErrOf result WordsFault.Usage → command_named name.now (bytes_of_words words.entry.now) ≡ None }
    ensures memory { IsErrOf result WordsFault.NoMemory → IsTrue (is_command_name name.now) }
    ensures limits { IfOk result (λ c. IsWithinLimits (command_of c)) }
{
    if name == "solo" {
        read_solo(alloc, words)
    } else if name == "verify" {
        read_verify(alloc, words)
    } else if name == "pack" {
        read_pack(alloc, words)
    } else if name == "info" {
        read_info(alloc, words)
    } else if name == "search" {
        read_search(alloc, words)
    } else {
        Err(WordsFault::Usage)
    }
}

/// The command that the words name, with what they give. Its numbers are within their limits.
///
/// - `Usage`: there is no word, the first is no command's name, or `clap` finds a fault in the others by the rules
///   of that command.
/// - `NoMemory`: memory ran out. The first word is then a command's name.
pub fn read_words<'a>(alloc: Global, words: &'a [String]) -> Result<Command<'a>, WordsFault>
    ensures read { IfOk result (λ c. command_in (bytes_of_words words.entry.now) ≡ Some (command_of c)) }
    ensures usage { IsErrOf result WordsFault.Usage → command_in (bytes_of_words words.entry.now) ≡ None }
    ensures memory { IsErrOf result WordsFault.NoMemory → IsTrue (names_command (bytes_of_words words.entry.now)) }
    ensures limits { IfOk result (λ c. IsWithinLimits (command_of c)) }
{
    match words.split_first() {
        Some((name, rest)) => read_named(alloc, name.as_str(), rest),
        None => Err(WordsFault::Usage),
    }
}
