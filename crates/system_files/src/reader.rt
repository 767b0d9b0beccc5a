//! Open files that are read at any offset. A file source reads through one.
ghost use Rattle.std.specs.Prelude.{◌≡◌, ℕ, ◌<◌, ◌≤◌, List, length, take, Option, None, IfSome};
ghost use Rattle.source_io.specs.Told.{Holds};

use crate::tries::TRIES;
use std::io::ErrorKind;
use std::os::unix::fs::FileExt;

/// An open file. It may tell its bytes.
pub trait Reader {
    /// Its bytes, if they are told.
    ghost bytes: { Self → Option (List ℕ) };

    /// Makes one read from an offset on into the beginning of `into`, and answers how many bytes were read, at least
    /// one. `None` if the read failed, or if the file has no byte there. No clause speaks of the rest of `into`.
    fn read_some(&self, offset: u64, into: &mut [u8]) -> Option<usize>
        requires { 0 < length into.old }
        ensures count { IfSome result (λ n. (0 < n) × (n ≤ length into.old)) }
        ensures bytes { IfSome result (λ n. Holds (bytes self.now) offset n (take n into.new)) }
        ensures room { length into.new ≡ length into.old };
}

/// A file of the system. It does not tell its bytes.
#[derive(Drop)]
pub struct SystemFile<F> {
    /// The file, open for reading.
    pub file: F,
}

impl<F: FileExt> Reader for SystemFile<F> {
    ghost bytes = { λ _. None };

    /// A read that a signal interrupts is tried again, `TRIES` times in all.
    fn read_some(&self, offset: u64, into: &mut [u8]) -> Option<usize> {
        for _ in 0..TRIES {
            match self.file.read_at(into, offset) {
                Ok(0) => return None,
                Ok(n) => return Some(n),
                Err(e) if e.kind() == ErrorKind::Interrupted => {}
                Err(_) => return None,
            }
        }
        None
    }
}
