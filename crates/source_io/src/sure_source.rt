//! A source in memory whose reads never fail. The tests read array files from it.
ghost use Rattle.std.specs.Prelude.{◌≡◌, Some, None, length, IsOk};
ghost use Rattle.source_io.specs.Told.{Fills};

use crate::{ByteSource, Failed};

/// Bytes in memory. It tells its bytes, fills each read whole, and its count of faults is the constant 0.
#[derive(Drop)]
pub struct SureSource {
    /// The bytes, from offset 0 on.
    pub bytes: Vec<u8>,
}

impl ByteSource for SureSource {
    ghost file = { λ s. record { bytes = Some s.bytes.items; len = length s.bytes.items; name = None } };

    ghost asked = { λ _. None };

    ghost faults = { λ _. 0 };

    ghost step = { λ _. Some 0 };

    fn size(&self) -> u64 {
        self.bytes.len() as u64
    }

    fn read_at(&mut self, offset: u64, into: &mut [u8]) -> Result<usize, Failed> {
        let from = offset as usize;
        let n = into.len();
        into.copy_from_slice(&self.bytes.as_slice()[from..from + n]);
        Ok(n)
    }
}
