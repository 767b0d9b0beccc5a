//! Sources of bytes: what every file is read through.
ghost use Rattle.std.specs.Prelude.{◌≡◌, ℕ, ◌+◌, ◌<◌, ◌≤◌, ◌⊎◌, List, length, Option, Some, None, IfOk, OnOk, OnErr};
ghost use Rattle.source_io.specs.Told.{Rose, Fills, Holds, SizeIs};
ghost use Rattle.source_io.specs.Asked.{Asks, AsksOne, AsksWhole, AsksPrefix, Gives};
ghost use Rattle.source_io.specs.Source.{StoredFile};

use crate::Failed;

/// A file that is read at any offset.
pub trait ByteSource {
    /// The file: its bytes, its length and its name. It never changes.
    ghost file: { Self → StoredFile };

    /// The offset and the length of each recorded read, in order, if they are told.
    ghost asked: { Self → Option (List (ℕ × ℕ)) };

    /// How many reads failed.
    ghost faults: { Self → ℕ };

    /// The step: how many bytes a read gives at most, if it is told. A read that did not fail gave a whole step, or all
    /// that it asked for if that was less. A step of 0 means all.
    ghost step: { Self → Option ℕ } = { λ _. None };

    /// The number of bytes. It never changes.
    fn size(&self) -> u64
        ensures size { result ≡ (file self.now).len }
        ensures told { SizeIs (file self.now).bytes result };

    /// Reads bytes from an offset on to the beginning of `into`, at least one, and answers how many.
    /// `Failed` if the read failed. The source counts it, and `into` is unchanged. No other fault is counted.
    fn read_at(&mut self, offset: u64, into: &mut [u8]) -> Result<usize, Failed>
        requires some { 0 < length into.old }
        requires within { offset + length into.old ≤ (file self.old).len }
        ensures count { IfOk result (λ n. (0 < n) × (n ≤ length into.old)) }
        ensures gives { IfOk result (λ n. Gives (step self.old) (length into.old) n) }
        ensures bytes { IfOk result (λ n. Fills (file self.old).bytes offset n into.old into.new) }
        ensures unchanged { OnErr result (into.new ≡ into.old) }
        ensures cause { OnErr result (Rose (faults self.old) (faults self.new)) }
        ensures faults { faults self.old ≤ faults self.new }
        ensures no_fault { OnOk result (faults self.new ≡ faults self.old) }

        // A read that did not fail is recorded, and one that failed may be.
        ensures asked { OnOk result (AsksOne (asked self.old) (asked self.new) (offset, length into.old)) }
        ensures failed { OnErr result (AsksOne (asked self.old) (asked self.new) (offset, length into.old) ⊎ (asked self.new ≡ asked self.old)) }

        // Reading changes nothing else.
        ensures same_file { file self.new ≡ file self.old }
        ensures same_step { step self.new ≡ step self.old };
}

/// Fills the whole of `into` with the bytes from an offset on, with as many reads as are needed. If `into` is empty,
/// there is no read. `Failed` if one of them failed. A read that failed is not tried again.
pub fn read_whole<S: ByteSource>(src: &mut S, offset: u64, into: &mut [u8]) -> Result<(), Failed>
    requires { offset + length into.old ≤ (S.file src.old).len }
    ensures bytes { OnOk result (Holds (S.file src.old).bytes offset (length into.old) into.new) }
    ensures cause { OnErr result (Rose (S.faults src.old) (S.faults src.new)) }
    ensures faults { S.faults src.old ≤ S.faults src.new }
    ensures no_fault { OnOk result (S.faults src.new ≡ S.faults src.old) }
    ensures asked { Asks (S.asked src.old) (S.asked src.new) offset (offset + length into.old) }

    // Each read asks for all that is left. So if a read gives all, there is one, of the whole range. After an error, the
    // reads are a prefix of such reads.
    ensures covers { OnOk result (AsksWhole (S.step src.old) (S.asked src.old) (S.asked src.new) offset (offset + length into.old)) }
    ensures one_read { OnOk result (S.step src.old ≡ Some 0 → 0 < length into.old → AsksOne (S.asked src.old) (S.asked src.new) (offset, length into.old)) }
    ensures covers_prefix { OnErr result (AsksPrefix (S.step src.old) (S.asked src.old) (S.asked src.new) offset (offset + length into.old)) }
    ensures same_file { S.file src.new ≡ S.file src.old }
    ensures same_step { S.step src.new ≡ S.step src.old }
{
    let _size = src.size();
    let mut done = 0;
    while done < into.len() {
        done += src.read_at(offset + done as u64, &mut into[done..])?;
    }
    Ok(())
}
