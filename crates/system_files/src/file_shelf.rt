//! The system's files as a shelf, which the program runs its command on.
ghost use Rattle.std.specs.Prelude.{◌≡◌, [], None, IfOk, OnOk, OnErr, option_map, string_bytes};
ghost use Rattle.source_io.specs.Files.{with_file};

use crate::fault_count::one_more;
use crate::file_source::FileSource;
use crate::file_system::{FileSystem, RuntimeFiles};
use crate::writer_sink::WriterSink;
use source_io::{NoMemory, OpenFault, Shelf};
use std::alloc::Global;

/// The files of a file system. As a shelf it does not tell what they hold.
#[derive(Drop)]
pub struct FileShelf<S> {
    /// What opens and creates files.
    pub system: S,
    /// What allocates the buffers of the sources, and the copy of the name of a created file.
    pub alloc: Global,
    /// How many openings and creatings failed. The count ends at `u64::MAX`.
    pub faults: u64,
    /// How many reads of the sources that came back failed. The count ends at `u64::MAX`.
    pub source_faults: u64,
    /// How many writes to the finished files failed. The count ends at `u64::MAX`.
    pub sink_faults: u64,
    /// How many sources are lent and did not come back.
    pub lent: u64,
    /// The name of the file that was created and is not finished.
    pub making: Option<String>,
}

impl<R> FileShelf<RuntimeFiles<R>> {
    /// A shelf of the files that a runtime reaches. It has no faults and has lent nothing.
    pub fn new(rt: R, alloc: Global) -> FileShelf<RuntimeFiles<R>>
        ensures faults { result.faults ≡ 0 }
        ensures source_faults { result.source_faults ≡ 0 }
        ensures sink_faults { result.sink_faults ≡ 0 }
        ensures lent { result.lent ≡ 0 }
        ensures making { result.making ≡ None }
    {
        FileShelf {
            system: RuntimeFiles { rt },
            alloc,
            faults: 0,
            source_faults: 0,
            sink_faults: 0,
            lent: 0,
            making: None,
        }
    }
}

impl<S: FileSystem> Shelf for FileShelf<S>
where
    S::Opened: Send,
{
    type Source = FileSource<S::Opened>;

    type Out = WriterSink<S::Created>;

    ghost state = { λ s. record {
      holds = None;
      faults = s.faults;
      source_faults = s.source_faults;
      sink_faults = s.sink_faults;
      asked = None;
      opened = None;
      lent = s.lent;
      making = option_map string_bytes s.making;
    } };

    fn open(&mut self, name: &str) -> Result<FileSource<S::Opened>, OpenFault> {
        let Some((file, size)) = self.system.open(name) else {
            self.faults = one_more(self.faults);
            return Err(OpenFault::Failed);
        };
        match FileSource::new(self.alloc, file, size) {
            Ok(source) => {
                self.lent += 1;
                Ok(source)
            }
            Err(NoMemory) => Err(OpenFault::NoMemory),
        }
    }

    fn close(&mut self, source: FileSource<S::Opened>) {
        self.source_faults = self.source_faults.saturating_add(source.close());
        self.lent -= 1;
    }

    fn create(&mut self, name: &str) -> Result<WriterSink<S::Created>, OpenFault> {
        match create_named(&mut self.system, self.alloc, name) {
            Ok((file, made)) => {
                self.making = Some(made);
                Ok(WriterSink::new(file))
            }
            Err(OpenFault::Failed) => {
                self.faults = one_more(self.faults);
                Err(OpenFault::Failed)
            }
            Err(OpenFault::NoMemory) => Err(OpenFault::NoMemory),
        }
    }

    fn finish(&mut self, _name: &str, out: WriterSink<S::Created>) {
        self.sink_faults = self.sink_faults.saturating_add(out.close());
        self.making = None;
    }
}

/// Creates a file, and gives a copy of its name too. A file that has the name already is made empty. If that fails, or
/// if there is no memory for the copy, no file changed.
fn create_named<S: FileSystem>(
    system: &mut S,
    alloc: Global,
    name: &str,
) -> Result<(S::Created, String), OpenFault>
    ensures name { IfOk result (λ made. string_bytes made.1 ≡ name.now) }
    ensures created { OnOk result (S.files system.new ≡ with_file (S.files system.old) name.now []) }
    ensures unchanged { OnErr result (S.files system.new ≡ S.files system.old) }
{
    let Ok(made) = String::from_str(alloc, name) else {
        return Err(OpenFault::NoMemory);
    };
    match system.create(name) {
        Some(file) => Ok((file, made)),
        None => Err(OpenFault::Failed),
    }
}
