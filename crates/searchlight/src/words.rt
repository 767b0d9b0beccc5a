//! The words of the command line.
ghost use Rattle.std.specs.Prelude.{◌≡◌, ◌⊎◌, drop, IfErr};

use report::{Ending, Failure, Refusal};
use std::env;
use std::io::ErrorKind;
use std::rt::Env;

/// The program's name and the words after it, in order. If one of them is not UTF-8, no command reads it: the words are
/// refused. It fails with `NoMemory` if there is no memory for them. They are the words that std's `args` gives, of
/// which no clause speaks.
pub fn all_words<R: Env + AllocGlobal>(rt: &R) -> Result<Vec<String>, Ending>
    ensures { IfErr result (λ ending. (ending ≡ Ending.Refused Refusal.Words) ⊎ (ending ≡ Ending.Failed Failure.NoMemory)) }
{
    match env::args(rt) {
        Ok(words) => words
            .collect(rt.alloc())
            .map_err(|_| Ending::Failed(Failure::NoMemory)),
        Err(e) if e.kind() == ErrorKind::OutOfMemory => Err(Ending::Failed(Failure::NoMemory)),
        Err(_) => Err(Ending::Refused(Refusal::Words)),
    }
}

/// The words after the first one, which is the program's name. If there is no first word, there are none.
pub fn after_name(words: &[String]) -> &[String]
    ensures { result.now ≡ drop 1 words.now }
{
    match words {
        [_name, rest @ ..] => rest,
        [] => words,
    }
}
