//! Open files as sources of bytes. A shelf of files lends them.
ghost use Rattle.std.specs.Prelude.{◌≡◌, length, take, None, IfOk};
ghost use Rattle.std.specs.Option.{ForSome};
ghost use Rattle.source_io.specs.Told.{Holds, Holds-prop};

use crate::fault_count::one_more;
use crate::read_ahead::ReadAhead;
use crate::reader::Reader;
use source_io::{ByteSource, Failed, NoMemory};
use std::alloc::Global;

/// An open file. Its size is the size that it had when it was opened. As a source it tells its bytes if the open file
/// tells them. A file of the system does not.
pub struct FileSource<R: Reader> {
    /// The file, open for reading.
    pub file: R,
    /// How many bytes the file had when it was opened.
    pub size: u64,
    /// How many reads failed. The count ends at `u64::MAX`.
    pub faults: u64,
    /// The bytes that were read and not yet handed out.
    pub ahead: ReadAhead,
    ghost sized: { ForSome (R.bytes file) (λ all. size ≡ length all) },
    ghost held: { Holds (R.bytes file) ahead.start ahead.held (take ahead.held ahead.buffer.items) } by { Holds-prop (R.bytes file) ahead.start ahead.held (take ahead.held ahead.buffer.items) },
}

impl<R: Reader> FileSource<R> {
    /// A source over an open file of this size, with no faults. `NoMemory` if there is no memory for the buffer. The
    /// file is then closed.
    pub fn new(alloc: Global, file: R, size: u64) -> Result<FileSource<R>, NoMemory>
    where
        R: Drop,
        requires { ForSome (R.bytes file) (λ all. size ≡ length all) }
        ensures size { IfOk result (λ s. s.size ≡ size) }
        ensures file { IfOk result (λ s. s.file ≡ file) }
        ensures faults { IfOk result (λ s. s.faults ≡ 0) }
    {
        Ok(FileSource {
            file,
            size,
            faults: 0,
            ahead: ReadAhead::new(alloc)?,
        })
    }

    /// Closes the file, and gives the count of its faults.
    pub fn close(self) -> u64
    where
        R: Drop,
        ensures { result ≡ self.faults }
    {
        let FileSource {
            file: _file,
            size: _,
            faults,
            ahead: _ahead,
        } = self;
        faults
    }
}

impl<R: Reader> ByteSource for FileSource<R> {
    ghost file = { λ s. record { bytes = R.bytes s.file; len = s.size; name = None } };

    ghost asked = { λ _. None };

    ghost faults = { λ s. s.faults };

    #[tactic(auto, using(crate::proofs::Ahead::size_is))]
    fn size(&self) -> u64 {
        self.size
    }

    #[tactic(auto, using(crate::proofs::Ahead::fills_held))]
    fn read_at(&mut self, offset: u64, into: &mut [u8]) -> Result<usize, Failed> {
        let left = self.size - offset;
        if self.ahead.has(offset)
            || self
                .ahead
                .fetch(&self.file, offset, into.len() as u64, left)
        {
            return Ok(self.ahead.hand_out(offset, into));
        }
        self.faults = one_more(self.faults);
        Err(Failed)
    }
}
