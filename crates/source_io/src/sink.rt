//! Sinks of bytes: what everything that is printed or written goes to.
ghost use Rattle.std.specs.Prelude.{◌≡◌, ℕ, ◌<◌, ◌≤◌, List, length, take, Option, IfOk, OnOk, OnErr};
ghost use Rattle.source_io.specs.Told.{Rose};
ghost use Rattle.lists.specs.Appending.{appended};
ghost use Rattle.source_io.specs.Written.{Writes};

use crate::Failed;

/// What takes bytes, such as standard output or a created file.
pub trait Sink {
    /// The bytes that it took, in order, if they are told.
    ghost written: { Self → Option (List ℕ) };

    /// How many writes failed.
    ghost faults: { Self → ℕ };

    /// Takes a prefix of the piece, at least one byte, and answers how many bytes it took.
    /// `Failed` if the write failed. The sink counts it, and took nothing. No other fault is counted.
    fn write(&mut self, piece: &[u8]) -> Result<usize, Failed>
        requires { 0 < length piece.now }
        ensures count { IfOk result (λ n. (0 < n) × (n ≤ length piece.now)) }
        ensures written { IfOk result (λ n. written self.new ≡ appended (written self.old) (take n piece.now)) }
        ensures unchanged { OnErr result (written self.new ≡ written self.old) }
        ensures cause { OnErr result (Rose (faults self.old) (faults self.new)) }
        ensures faults { faults self.old ≤ faults self.new }
        ensures no_fault { OnOk result (faults self.new ≡ faults self.old) };
}

/// Writes the whole piece, with as many writes as are needed. An empty piece makes no write. `Failed` if one of them
/// failed. The sink then took a prefix of the piece. A write that failed is not tried again.
pub fn write_whole<K: Sink>(sink: &mut K, piece: &[u8]) -> Result<(), Failed>
    ensures written { Writes result piece.now (K.written sink.old) (K.written sink.new) }
    ensures cause { OnErr result (Rose (K.faults sink.old) (K.faults sink.new)) }
    ensures faults { K.faults sink.old ≤ K.faults sink.new }
    ensures no_fault { OnOk result (K.faults sink.new ≡ K.faults sink.old) }
{
    let mut done = 0;
    while done < piece.len() {
        done += sink.write(&piece[done..])?;
    }
    Ok(())
}
