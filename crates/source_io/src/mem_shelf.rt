//! A shelf in memory, whose calls fail by a plan. The tests run the tool on it.
ghost use Rattle.std.specs.Prelude.{◌≡◌, ℕ, ◌+◌, ◌≤◌, [], Some, None, map, option_map, ◌≢◌, string_bytes, vec_len, vec_capacity};
ghost use Rattle.std.specs.List.{flat_map};
ghost use Rattle.std.specs.Option.{option_copied};
ghost use Rattle.std.specs.FinMap.{get};
ghost use Rattle.source_io.specs.Files.{files_of};
ghost use Rattle.source_io.specs.MemSource.{reads_by};

use crate::plan::numbers_of;
use crate::{ByteSource, MemSink, MemSource, OpenFault, Plan, Shelf};
use std::alloc::Global;

/// A shelf of files in memory, whose calls fail by a plan. It tells everything.
///
/// Openings and creatings are numbered together, from 1. One that ends in `NoMemory` has no number. One
/// that the plan names fails, and so does an opening of a name that no file has. What `close` needs was
/// reserved by `open`, and what `finish` needs by `create`.
#[derive(Drop)]
pub struct MemShelf {
    alloc: Global,
    files: Vec<(String, Vec<u8>)>,
    plan: Plan,
    opened: Vec<String>,
    returned: Vec<MemSource>,
    lent: usize,
    making: Option<String>,
    faults: u64,
    source_faults: u64,
    sink_faults: u64,
    ghost reserved: { vec_len returned + lent ≤ vec_capacity returned },
    ghost place: { making ≢ None → vec_len files + 1 ≤ vec_capacity files },
}

impl MemShelf {
    /// A shelf of these files, each a name and its bytes. Of several files with one name, the first counts.
    pub fn new(alloc: Global, files: Vec<(String, Vec<u8>)>, plan: Plan) -> MemShelf
        ensures shows { ⟦<MemShelf as Shelf>⟧.state result ≡ record {
          holds = Some (files_of files.items);
          faults = 0;
          source_faults = 0;
          sink_faults = 0;
          asked = Some [];
          opened = Some [];
          lent = 0;
          making = None;
        } }
        ensures plan { result.plan ≡ plan }
        ensures returned { result.returned.items ≡ [] }
    {
        MemShelf {
            alloc,
            files,
            plan,
            opened: Vec::new(alloc),
            returned: Vec::new(alloc),
            lent: 0,
            making: None,
            faults: 0,
            source_faults: 0,
            sink_faults: 0,
        }
    }

    /// The bytes of the file that has the name. `None` if no file has it. A created file is there once it is finished.
    pub fn file(&self, name: &str) -> Option<&[u8]>
        ensures { option_map (λ files. get files name.now) (⟦<MemShelf as Shelf>⟧.state self.now).holds ≡ Some (option_copied result) }
    {
        find_file(self.files.as_slice(), name)
    }

    /// The names that were opened or created, in order, even if this failed.
    pub fn opened(&self) -> &[String]
        ensures { (⟦<MemShelf as Shelf>⟧.state self.now).opened ≡ Some (map string_bytes result.now) }
    {
        self.opened.as_slice()
    }

    /// The sources that came back, in the order in which they did. Each has its name and the record of its reads.
    pub fn returned(&self) -> &[MemSource]
        ensures items { result.now ≡ self.now.returned.items }
        ensures asked { (⟦<MemShelf as Shelf>⟧.state self.now).asked ≡ Some (flat_map reads_by result.now) }
    {
        self.returned.as_slice()
    }

    /// How many sources are open.
    pub fn lent(&self) -> usize
        ensures { result ≡ (⟦<MemShelf as Shelf>⟧.state self.now).lent }
    {
        self.lent
    }

    /// How many openings and creatings failed. The count ends at `u64::MAX`.
    pub fn faults(&self) -> u64
        ensures { result ≡ (⟦<MemShelf as Shelf>⟧.state self.now).faults }
    {
        self.faults
    }

    /// How many reads of the sources that came back failed. The count ends at `u64::MAX`.
    pub fn source_faults(&self) -> u64
        ensures { result ≡ (⟦<MemShelf as Shelf>⟧.state self.now).source_faults }
    {
        self.source_faults
    }

    /// How many writes to the finished files failed. The count ends at `u64::MAX`.
    pub fn sink_faults(&self) -> u64
        ensures { result ≡ (⟦<MemShelf as Shelf>⟧.state self.now).sink_faults }
    {
        self.sink_faults
    }
}

/// The bytes of the first file that has the name.
fn find_file<'a>(files: &'a [(String, Vec<u8>)], name: &str) -> Option<&'a [u8]>
    ensures { option_copied result ≡ get (files_of files.entry.now) name.now }
{
    for (file_name, bytes) in files {
        if name == file_name.as_str() {
            return Some(bytes.as_slice());
        }
    }
    None
}

impl Shelf for MemShelf {
    ghost use Rattle.std.specs.Prelude.{◌∷◌, ◌++◌, ◌-◌, ◌<◌, ◌^◌, min, true, false, IfOk, OnOk, IsErrOf};
    ghost use Rattle.source_io.specs.Files.{bytes_at, with_file};
    ghost use Rattle.source_io.specs.Told.{Rose};
    ghost use Rattle.lists.specs.Appending.{appended};
    ghost use Rattle.source_io.specs.MemShelf.{next_call, next_fails, next_lends, shows};
    ghost use Rattle.source_io.specs.MemSink.{writes_left};
    ghost use Rattle.source_io.specs.MemSource.{reads_left};
    ghost use Rattle.source_io.specs.Plan.{planned_reads, planned_writes};

    type Source = MemSource;

    type Out = MemSink;

    ghost state = { λ shelf. shows shelf };

    fn open(&mut self, name: &str) -> Result<MemSource, OpenFault>
        requires { self.old.lent < 2 ^ 32 }

        // It lends the file exactly if one has the name and the plan does not name the opening, unless memory runs out.
        ensures lends { OnOk result (next_lends self.old name.now ≡ true) }
        ensures refuses { IsErrOf result OpenFault.Failed → next_lends self.old name.now ≡ false }

        // The source has the file, and what the plan has for the reads of this opening.
        ensures bytes { IfOk result (λ source. source.bytes.items ≡ bytes_at (files_of self.old.files.items) name.now) }
        ensures name { IfOk result (λ source. string_bytes source.name ≡ name.now) }
        ensures reads { IfOk result (λ source. reads_left source ≡ planned_reads self.old.plan (next_call self.old)) }
        ensures nothing_asked { IfOk result (λ source. source.asked.items ≡ []) }
        ensures no_faults { IfOk result (λ source. source.faults ≡ 0) }

        // The opening is noted, unless memory runs out. It lends one source more, or counts a fault. All else is the same.
        ensures lent { OnOk result (shows self.new ≡ record (shows self.old) { opened = appended (shows self.old).opened (name.now ∷ []); lent = self.old.lent + 1 }) }
        ensures failed { IsErrOf result OpenFault.Failed → shows self.new ≡ record (shows self.old) { opened = appended (shows self.old).opened (name.now ∷ []); faults = self.new.faults } }
        ensures no_memory { IsErrOf result OpenFault.NoMemory → shows self.new ≡ shows self.old }
        ensures cause { IsErrOf result OpenFault.Failed → Rose self.old.faults self.new.faults }
        ensures faults { self.old.faults ≤ self.new.faults }
        ensures same_plan { self.new.plan ≡ self.old.plan }
        ensures same_returned { self.new.returned.items ≡ self.old.returned.items }
    {
        if self.returned.reserve(self.lent + 1).is_err() || self.opened.reserve(1).is_err() {
            return Err(OpenFault::NoMemory);
        }
        let Ok(noted) = String::from_str(self.alloc, name) else {
            return Err(OpenFault::NoMemory);
        };
        let opening = (self.opened.len() as u64).saturating_add(1);
        match find_file(self.files.as_slice(), name) {
            Some(bytes) if !self.plan.opens.contains(&opening) => {
                let Ok(source) = MemSource::new(self.alloc, name, bytes, &self.plan, opening) else {
                    return Err(OpenFault::NoMemory);
                };
                self.opened.push_reserved(noted);
                self.lent += 1;
                Ok(source)
            }
            _ => {
                self.opened.push_reserved(noted);
                self.faults = self.faults.saturating_add(1);
                Err(OpenFault::Failed)
            }
        }
    }

    fn close(&mut self, source: MemSource)
        requires { 0 < self.old.lent }

        // The source is the last of those that came back, whether it was read or not.
        ensures returned { self.new.returned.items ≡ self.old.returned.items ++ source ∷ [] }
        ensures source_faults { self.new.source_faults ≡ min (self.old.source_faults + source.faults) (2 ^ 64 - 1) }
        ensures never_falls { self.old.source_faults ≤ self.new.source_faults }
        ensures cause { Rose 0 source.faults → Rose self.old.source_faults self.new.source_faults }
        ensures lent { self.old.lent ≡ self.new.lent + 1 }
        ensures same { shows self.new ≡ record (shows self.old) { asked = (shows self.new).asked; source_faults = self.new.source_faults; lent = self.new.lent } }
        ensures same_plan { self.new.plan ≡ self.old.plan }
    {
        self.source_faults = self.source_faults.saturating_add(source.faults());
        self.lent -= 1;
        self.returned.push_reserved(source);
    }

    fn create(&mut self, name: &str) -> Result<MemSink, OpenFault>
        requires { (shows self.old).making ≡ None }

        // It begins the file exactly if the plan does not name the creating, unless memory runs out.
        ensures begins { OnOk result (next_fails self.old ≡ false) }
        ensures refuses { IsErrOf result OpenFault.Failed → next_fails self.old ≡ true }

        // The sink took nothing, and has what the plan has for the writes of this creating.
        ensures empty { IfOk result (λ out. out.bytes.items ≡ []) }
        ensures writes { IfOk result (λ out. writes_left out ≡ planned_writes self.old.plan (next_call self.old)) }
        ensures no_faults { IfOk result (λ out. out.faults ≡ 0) }

        // The creating is noted, unless memory runs out. It makes the file, or counts a fault. All else is the same.
        ensures making { OnOk result (shows self.new ≡ record (shows self.old) { opened = appended (shows self.old).opened (name.now ∷ []); making = Some name.now }) }
        ensures failed { IsErrOf result OpenFault.Failed → shows self.new ≡ record (shows self.old) { opened = appended (shows self.old).opened (name.now ∷ []); faults = self.new.faults } }
        ensures no_memory { IsErrOf result OpenFault.NoMemory → shows self.new ≡ shows self.old }
        ensures cause { IsErrOf result OpenFault.Failed → Rose self.old.faults self.new.faults }
        ensures faults { self.old.faults ≤ self.new.faults }
        ensures same_plan { self.new.plan ≡ self.old.plan }
        ensures same_returned { self.new.returned.items ≡ self.old.returned.items }
    {
        if self.files.reserve(1).is_err() || self.opened.reserve(1).is_err() {
            return Err(OpenFault::NoMemory);
        }
        let (Ok(noted), Ok(made)) = (
            String::from_str(self.alloc, name),
            String::from_str(self.alloc, name),
        ) else {
            return Err(OpenFault::NoMemory);
        };
        let creating = (self.opened.len() as u64).saturating_add(1);
        if self.plan.opens.contains(&creating) {
            self.opened.push_reserved(noted);
            self.faults = self.faults.saturating_add(1);
            return Err(OpenFault::Failed);
        }
        let Ok(fails) = numbers_of(self.alloc, self.plan.writes.as_slice(), creating) else {
            return Err(OpenFault::NoMemory);
        };
        let Ok(sink) = MemSink::new(self.alloc, self.plan.room, self.plan.step, fails) else {
            return Err(OpenFault::NoMemory);
        };
        self.opened.push_reserved(noted);
        self.making = Some(made);
        Ok(sink)
    }

    // The file is put before the others, so it counts in place of a file with the same name.
    fn finish(&mut self, name: &str, out: MemSink)
        requires { (shows self.old).making ≡ Some name.now }

        // The file has the bytes that the sink took, and no file is made any more. All else is the same.
        ensures held { shows self.new ≡ record (shows self.old) { holds = with_file (shows self.old).holds name.now out.bytes.items; making = None; sink_faults = self.new.sink_faults } }
        ensures sink_faults { self.new.sink_faults ≡ min (self.old.sink_faults + out.faults) (2 ^ 64 - 1) }
        ensures never_falls { self.old.sink_faults ≤ self.new.sink_faults }
        ensures cause { Rose 0 out.faults → Rose self.old.sink_faults self.new.sink_faults }
        ensures same_plan { self.new.plan ≡ self.old.plan }
        ensures same_returned { self.new.returned.items ≡ self.old.returned.items }
    {
        self.sink_faults = self.sink_faults.saturating_add(out.faults());
        let made = self.making.take().unwrap();
        self.files.insert(0, (made, out.into_bytes())).unwrap();
    }
}
