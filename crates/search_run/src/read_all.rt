//! Reading whole files: queries and array texts.
//! Used in this crate by `query_file` and `pack`.
ghost use Rattle.std.specs.Prelude.{◌≡◌, ◌≤◌, IfOk, IfErr};
ghost use Rattle.source_io.specs.Told.{Rose};
ghost use Rattle.source_io.specs.Asked.{Asks};
ghost use Rattle.search_run.specs.Problem.{IsTold};
ghost use Rattle.search_run.specs.Stops.{IsReadFaultOrNoMemory, IsCausedBy, UnlessReadFault};

use crate::stop::Stop;
use report::Failure;
use source_io::{ByteSource, read_whole};
use std::alloc::Global;

/// Reads all bytes of a source. It fails with `Read` only if the source counted a fault, and with `NoMemory` if there
/// is no memory for the bytes. Then nothing is read.
pub fn read_all<S: ByteSource>(alloc: Global, source: &mut S) -> Result<Vec<u8>, Stop>
    ensures bytes { IfOk result (λ v. IsTold (S.file source.old).bytes v.items) }
    ensures kinds { IfErr result IsReadFaultOrNoMemory }
    ensures cause { IfErr result (IsCausedBy (Rose (S.faults source.old) (S.faults source.new))) }
    ensures faults { S.faults source.old ≤ S.faults source.new }
    ensures no_fault { UnlessReadFault (S.faults source.new ≡ S.faults source.old) result }
    ensures asked { Asks (S.asked source.old) (S.asked source.new) 0 (S.file source.old).len }
    ensures same_file { S.file source.new ≡ S.file source.old }
{
    let size = source.size();
    let Ok(mut bytes) = vec![in alloc; 0; size as usize] else {
        return Err(Stop::Failed(Failure::NoMemory));
    };
    if read_whole(source, 0, bytes.as_mut_slice()).is_err() {
        return Err(Stop::Failed(Failure::Read));
    }
    Ok(bytes)
}
