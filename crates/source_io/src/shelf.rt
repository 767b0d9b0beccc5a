//! Shelves of named files: where a command opens what it reads and creates what it makes.
ghost use Rattle.std.specs.Prelude.{◌≡◌, ◌∷◌, [], ◌+◌, ◌-◌, ◌^◌, ◌<◌, ◌≤◌, Some, None, IfOk, IfSome, OnOk, OnErr, IsErrOf, min};
ghost use Rattle.source_io.specs.Told.{Rose};
ghost use Rattle.source_io.specs.Asked.{asked_under};
ghost use Rattle.source_io.specs.Files.{IsHeld, file_of, with_written};
ghost use Rattle.source_io.specs.Shelf.{ShelfState, OpensNothing, TakesNothingBack, FinishesNothing};
ghost use Rattle.lists.specs.Appending.{appended};

use crate::{ByteSource, OpenFault, Sink};

/// Named files. A shelf lends sources, and each is handed back. It makes one file at a time: the sink of a
/// created file takes the bytes, and the file is on the shelf once it is finished.
pub trait Shelf {
    /// An open file.
    type Source: ByteSource + Send;

    /// A created file that is not finished.
    type Out: Sink;

    /// What it shows: its files, its counts of faults, its records, and what is lent and made.
    ghost state: { Self → ShelfState };

    /// Lends the file with a name.
    ///
    /// `Failed` if the file was not opened, also because no file has the name. The shelf counts it. `NoMemory` leaves
    /// everything unchanged.
    fn open(&mut self, name: &str) -> Result<Self::Source, OpenFault>
        requires { (state self.old).lent < 2 ^ 32 }
        ensures held { OnOk result (IsHeld (state self.old).holds name.now) }
        ensures bytes { IfOk result (λ s. (Self.Source.file s).bytes ≡ file_of (state self.old).holds name.now) }
        ensures name { IfOk result (λ s. IfSome (Self.Source.file s).name (λ n. n ≡ name.now)) }
        ensures fresh { IfOk result (λ s. (Self.Source.faults s ≡ 0) × IfSome (Self.Source.asked s) (λ reads. reads ≡ [])) }
        ensures lent { OnOk result ((state self.new).lent ≡ (state self.old).lent + 1) }
        ensures kept { OnErr result ((state self.new).lent ≡ (state self.old).lent) }
        ensures opened { OnOk result ((state self.new).opened ≡ appended (state self.old).opened (name.now ∷ [])) }
        ensures failed { IsErrOf result OpenFault.Failed → (state self.new).opened ≡ appended (state self.old).opened (name.now ∷ []) }
        ensures no_memory { IsErrOf result OpenFault.NoMemory → (state self.new).opened ≡ (state self.old).opened }
        ensures cause { IsErrOf result OpenFault.Failed → Rose (state self.old).faults (state self.new).faults }
        ensures faults { (state self.old).faults ≤ (state self.new).faults }
        ensures no_fault { OnOk result ((state self.new).faults ≡ (state self.old).faults) }
        ensures same_faults { IsErrOf result OpenFault.NoMemory → (state self.new).faults ≡ (state self.old).faults }
        ensures takes_nothing_back { TakesNothingBack (state self.old) (state self.new) }
        ensures finishes_nothing { FinishesNothing (state self.old) (state self.new) }
        ensures same_making { (state self.new).making ≡ (state self.old).making };

    /// Takes a source back. Its faults and its record of reads are added to those of the shelf.
    fn close(&mut self, source: Self::Source)
        requires { 0 < (state self.old).lent }
        ensures lent { (state self.old).lent ≡ (state self.new).lent + 1 }
        ensures source_faults { (state self.new).source_faults ≡ min ((state self.old).source_faults + Self.Source.faults source) (2 ^ 64 - 1) }
        ensures never_falls { (state self.old).source_faults ≤ (state self.new).source_faults }
        ensures cause { Rose 0 (Self.Source.faults source) → Rose (state self.old).source_faults (state self.new).source_faults }
        ensures asked { (state self.new).asked ≡ asked_under (Self.Source.file source).name (Self.Source.asked source) (state self.old).asked }
        ensures opens_nothing { OpensNothing (state self.old) (state self.new) }
        ensures finishes_nothing { FinishesNothing (state self.old) (state self.new) }
        ensures same_making { (state self.new).making ≡ (state self.old).making };

    /// Begins a file with a name, and gives the sink that takes its bytes. If the shelf tells its files, the sink tells
    /// what it took. The files stay the same until the new one is finished.
    ///
    /// `Failed` if the file was not created. The shelf counts it. `NoMemory` leaves everything unchanged.
    fn create(&mut self, name: &str) -> Result<Self::Out, OpenFault>
        requires { (state self.old).making ≡ None }
        ensures told { IfOk result (λ out. IfSome (state self.old).holds (λ _. Self.Out.written out ≡ Some [])) }
        ensures empty { IfOk result (λ out. IfSome (Self.Out.written out) (λ bytes. bytes ≡ [])) }
        ensures fresh { IfOk result (λ out. Self.Out.faults out ≡ 0) }
        ensures making { OnOk result ((state self.new).making ≡ Some name.now) }
        ensures not_making { OnErr result ((state self.new).making ≡ None) }
        ensures opened { OnOk result ((state self.new).opened ≡ appended (state self.old).opened (name.now ∷ [])) }
        ensures failed { IsErrOf result OpenFault.Failed → (state self.new).opened ≡ appended (state self.old).opened (name.now ∷ []) }
        ensures no_memory { IsErrOf result OpenFault.NoMemory → (state self.new).opened ≡ (state self.old).opened }
        ensures cause { IsErrOf result OpenFault.Failed → Rose (state self.old).faults (state self.new).faults }
        ensures faults { (state self.old).faults ≤ (state self.new).faults }
        ensures no_fault { OnOk result ((state self.new).faults ≡ (state self.old).faults) }
        ensures same_faults { IsErrOf result OpenFault.NoMemory → (state self.new).faults ≡ (state self.old).faults }
        ensures takes_nothing_back { TakesNothingBack (state self.old) (state self.new) }
        ensures finishes_nothing { FinishesNothing (state self.old) (state self.new) }
        ensures same_lent { (state self.new).lent ≡ (state self.old).lent };

    /// Ends the file that was created as `name`. What its sink took replaces what the shelf held under the
    /// name. The faults of the sink are added to those of the shelf. It takes no memory.
    fn finish(&mut self, name: &str, out: Self::Out)
        requires { (state self.old).making ≡ Some name.now }
        ensures held { (state self.new).holds ≡ with_written (state self.old).holds name.now (Self.Out.written out) }
        ensures making { (state self.new).making ≡ None }
        ensures sink_faults { (state self.new).sink_faults ≡ min ((state self.old).sink_faults + Self.Out.faults out) (2 ^ 64 - 1) }
        ensures never_falls { (state self.old).sink_faults ≤ (state self.new).sink_faults }
        ensures cause { Rose 0 (Self.Out.faults out) → Rose (state self.old).sink_faults (state self.new).sink_faults }
        ensures opens_nothing { OpensNothing (state self.old) (state self.new) }
        ensures takes_nothing_back { TakesNothingBack (state self.old) (state self.new) }
        ensures same_lent { (state self.new).lent ≡ (state self.old).lent };
}
