//! Opening a file, loading what it holds, and handing it back.
//! Used by each command that reads a file.
ghost use Rattle.std.specs.Prelude.{◌≡◌, ◌<◌, ◌^◌, List, ◌∷◌, [], ℕ, Option, Result, Err, OnOk, IfErr};
ghost use Rattle.source_io.specs.Told.{Rose};
ghost use Rattle.source_io.specs.Files.{file_of, bytes_at};
ghost use Rattle.source_io.specs.Shelf.{ReadsFailed, SameReadFaults};
ghost use Rattle.lists.specs.Appending.{appended};
ghost use Rattle.report.specs.declared.ending.Failure.{Failure};
ghost use Rattle.search_run.specs.Loads.{OnlyOpens};
ghost use Rattle.search_run.specs.Reads.{Parts, AsksPartsOf, AsksOf};
ghost use Rattle.search_run.specs.Stops.{IsOfReading, IsCausedBy, UnlessReadFault};
ghost use Rattle.search_run.specs.declared.stop.Stop.{Stop};
ghost use Rattle.search_run.specs.declared.stop.Stop.TheVariants.{Failed};

use crate::stop::Stop;
use source_io::{ByteSource, Shelf};
use std::alloc::Global;

/// What is loaded from a file.
pub trait Load {
    /// What it comes to.
    type Value;

    /// What loading may answer, by the bytes of the file, if they are told.
    ghost loads: { Self → Option (List ℕ) → Result Self.Value Stop → Type 0 };

    /// Which parts of a file with these bytes it reads, in order.
    ghost parts: { Self → List ℕ → Parts };

    /// Loads it. A read fault is one that the source counted.
    fn load<S: ByteSource>(&self, alloc: Global, source: &mut S) -> Result<Self::Value, Stop>
        ensures value { loads self.now (S.file source.old).bytes result }
        ensures reads { IfErr result IsOfReading }
        ensures cause { IfErr result (IsCausedBy (Rose (S.faults source.old) (S.faults source.new))) }
        ensures no_fault { UnlessReadFault (S.faults source.new ≡ S.faults source.old) result }
        ensures asked { AsksPartsOf (parts self.now) (S.file source.old).bytes (S.asked source.old) (S.asked source.new) }
        ensures same_file { S.file source.new ≡ S.file source.old };

    /// It may fail, whatever the bytes are.
    ghost may_fail: { (what : Self) (bytes : Option (List ℕ)) (failure : Failure) → loads what bytes (Err (Failed failure)) };
}

/// Opens a file, loads what it holds, and hands it back. A read fault is one that a count of the shelf shows.
#[tactic(auto, using(lists::proofs::Appending::prefix_whole, lists::proofs::Appending::prefix_nothing, crate::proofs::Asking::told_same))]
pub fn load_file<F: Shelf, L: Load>(
    alloc: Global,
    what: &L,
    name: &str,
    shelf: &mut F,
) -> Result<L::Value, Stop>
    requires { (F.state shelf.old).lent < 2 ^ 32 }
    ensures value { L.loads what.now (file_of (F.state shelf.old).holds name.now) result }
    ensures reads { IfErr result IsOfReading }
    ensures cause { IfErr result (IsCausedBy (ReadsFailed (F.state shelf.old) (F.state shelf.new))) }
    ensures no_fault { UnlessReadFault (SameReadFaults (F.state shelf.old) (F.state shelf.new)) result }
    ensures asked { AsksOf (λ files. (name.now, L.parts what.now (bytes_at files name.now)) ∷ [])
        (F.state shelf.old).holds (F.state shelf.old).asked (F.state shelf.new).asked }
    ensures opens { OnlyOpens (name.now ∷ []) (F.state shelf.old) (F.state shelf.new) }
    ensures all_opened { OnOk result ((F.state shelf.new).opened ≡ appended (F.state shelf.old).opened (name.now ∷ [])) }
{
    let mut file = shelf.open(name)?;
    let value = what.load(alloc, &mut file);
    shelf.close(file);
    value
}
