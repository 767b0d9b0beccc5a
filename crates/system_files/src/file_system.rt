//! File systems: what opens and creates files by their paths. A shelf of files works on one.
ghost use Rattle.std.specs.Prelude.{◌≡◌, [], Option, None, OnSome, IfSome, IfNone};
ghost use Rattle.std.specs.Fs.{IsFile, file_type};
ghost use Rattle.source_io.specs.Files.{Files, with_file};

use crate::reader::{Reader, SystemFile};
use std::fs;
use std::fs::{Metadata, OpenFile};
use std::io::Write;
use std::os::unix::fs::FileExt;

/// What opens and creates files by their paths. It may tell the files.
pub trait FileSystem {
    /// A file that is open for reading.
    type Opened: Reader + Drop;

    /// A file that was created.
    type Created: Write + Drop;

    /// The files by their paths, if they are told.
    ghost files: { Self → Option Files };

    /// Opens a regular file for reading, and gives its size in bytes too. `None` if that fails. The open file does not
    /// tell its bytes, since others may write it meanwhile.
    fn open(&self, path: &str) -> Option<(Self::Opened, u64)>
        ensures { IfSome result (λ opened. Self.Opened.bytes opened.0 ≡ None) };

    /// Creates a file. A file that has the path already is made empty. `None` if that fails. Then no file changed.
    fn create(&mut self, path: &str) -> Option<Self::Created>
        ensures created { OnSome result (files self.new ≡ with_file (files self.old) path.now []) }
        ensures unchanged { IfNone result (files self.new ≡ files self.old) };
}

/// The files that a runtime reaches by their paths. They are not told.
#[derive(Drop)]
pub struct RuntimeFiles<R> {
    /// What opens and creates files.
    pub rt: R,
}

impl<R: fs::Files> FileSystem for RuntimeFiles<R>
where
    R::File: FileExt,
{
    type Opened = SystemFile<R::File>;

    type Created = R::File;

    ghost files = { λ _. None };

    fn open(&self, path: &str) -> Option<(SystemFile<R::File>, u64)> {
        let (file, metadata) = open_file(&self.rt, path)?;
        Some((SystemFile { file }, metadata.len()))
    }

    fn create(&mut self, path: &str) -> Option<R::File> {
        fs::create(&self.rt, path).ok()
    }
}

/// The file with a path, open for reading, and its metadata. `None` if it cannot be opened, has no metadata, or is not
/// a regular file.
fn open_file<R: fs::Files>(rt: &R, path: &str) -> Option<(R::File, Metadata)>
    ensures { IfSome result (λ opened. IsFile (file_type opened.1)) }
{
    let file = fs::open(rt, path).ok()?;
    let metadata = file.metadata().ok()?;
    if metadata.is_file() {
        Some((file, metadata))
    } else {
        None
    }
}
