//! Standard output, standard error and created files as sinks. The program prints to the streams, and a shelf of files
//! gives a sink for each file that it creates.
ghost use Rattle.std.specs.Prelude.{◌≡◌, ◌<◌, ◌≤◌, length, take, None, IfOk, OnOk, OnErr};
ghost use Rattle.std.specs.Io.KnownBytes.{Keeps, Appends};
ghost use Rattle.source_io.specs.Told.{Rose};

use crate::fault_count::one_more;
use crate::one_write::write_some;
use source_io::{Failed, Sink};
use std::io::Write;

/// A writer that takes bytes: `rt.stdout()`, `rt.stderr()` or a created file. As a sink it does not tell what it took.
/// The writer has to pass bytes on at once, as these do: a buffer would hide a fault.
#[derive(Drop)]
pub struct WriterSink<W> {
    /// What takes the bytes.
    pub writer: W,
    /// How many writes failed. The count ends at `u64::MAX`.
    pub faults: u64,
}

impl<W: Write> WriterSink<W> {
    /// A sink with no faults.
    pub fn new(writer: W) -> WriterSink<W>
        ensures writer { result.writer ≡ writer }
        ensures faults { result.faults ≡ 0 }
    {
        WriterSink { writer, faults: 0 }
    }

    /// Drops the writer, which closes a file, and gives the count of its faults.
    pub fn close(self) -> u64
    where
        W: Drop,
        ensures { result ≡ self.faults }
    {
        let WriterSink {
            writer: _writer,
            faults,
        } = self;
        faults
    }
}

impl<W: Write> Sink for WriterSink<W> {
    ghost written = { λ _. None };

    ghost faults = { λ s. s.faults };

    fn write(&mut self, piece: &[u8]) -> Result<usize, Failed>
        requires { 0 < length piece.now }
        ensures count { IfOk result (λ n. (0 < n) × (n ≤ length piece.now)) }
        ensures cause { OnErr result (Rose self.old.faults self.new.faults) }
        ensures faults { self.old.faults ≤ self.new.faults }
        ensures no_fault { OnOk result (self.new.faults ≡ self.old.faults) }

        // If the contents of the writer are known, it took exactly the bytes that the answer counts.
        ensures taken { IfOk result (λ n. Appends (W.contents self.old.writer) (W.contents self.new.writer) (take n piece.now)) }
        ensures kept { OnErr result (Keeps (W.contents self.old.writer) (W.contents self.new.writer)) }
    {
        match write_some(&mut self.writer, piece) {
            Some(n) => Ok(n),
            None => {
                self.faults = one_more(self.faults);
                Err(Failed)
            }
        }
    }
}
