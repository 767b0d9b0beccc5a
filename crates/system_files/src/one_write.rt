//! One write to a file or a stream of the system, for the sinks.
ghost use Rattle.std.specs.Prelude.{◌<◌, ◌≤◌, length, take, IfSome, IfNone};
ghost use Rattle.std.specs.Io.KnownBytes.{Keeps, Appends};

use crate::tries::TRIES;
use std::io::{ErrorKind, Write};

/// Makes one write, and answers how many bytes it took. `None` if it failed, or took no byte. A write that a signal
/// interrupts is tried again, `TRIES` times in all.
pub fn write_some<W: Write>(writer: &mut W, piece: &[u8]) -> Option<usize>
    ensures count { IfSome result (λ n. (0 < n) × (n ≤ length piece.now)) }
    ensures taken { IfSome result (λ n. Appends (W.contents writer.old) (W.contents writer.new) (take n piece.now)) }
    ensures kept { IfNone result (Keeps (W.contents writer.old) (W.contents writer.new)) }
{
    for _ in 0..TRIES {
        match writer.write(piece) {
            Ok(0) => return None,
            Ok(n) => return Some(n),
            Err(e) if e.kind() == ErrorKind::Interrupted => {}
            Err(_) => return None,
        }
    }
    None
}
