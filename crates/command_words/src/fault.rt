//! Why no command was read, for the caller of `read_words`.
ghost use Rattle.std.specs.Prelude.{◌≡◌, ◌↔◌};
ghost use Rattle.command_words.specs.declared.fault.WordsFault.TheVariants.{NoMemory};

use clap::error::ErrorKind;
use std::alloc::AllocError;

/// Why words were not read as a command.
#[derive(Clone, Copy, Debug, PartialEq, Eq)]
pub enum WordsFault {
    /// The words name no command.
    Usage,
    /// Memory ran out.
    NoMemory,
}

impl From<AllocError> for WordsFault {
    ghost from_gives = { λ _ e. e ≡ NoMemory };

    fn from(_: AllocError) -> WordsFault {
        WordsFault::NoMemory
    }
}

/// The fault of an error of `clap`: `NoMemory` if memory ran out, and `Usage` for every other error.
pub fn fault_from_kind(kind: ErrorKind) -> WordsFault
    ensures { (result ≡ NoMemory) ↔ (kind ≡ ErrorKind.OutOfMemory) }
{
    if matches!(kind, ErrorKind::OutOfMemory) {
        WordsFault::NoMemory
    } else {
        WordsFault::Usage
    }
}
