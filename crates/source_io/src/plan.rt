//! Which calls of a shelf in memory fail, and which of its sources and sinks.
ghost use Rattle.std.specs.Prelude.{◌≡◌, [], IfOk};
ghost use Rattle.source_io.specs.Plan as plan;

use std::alloc::{AllocError, Global};

/// Which calls fail, and how much a call does.
#[derive(Drop)]
pub struct Plan {
    /// The openings and creatings that fail, by their numbers from 1. Both are numbered together.
    pub opens: Vec<u64>,
    /// The reads that fail: the number of the opening, and the number of the read on it, each from 1.
    pub reads: Vec<(u64, u64)>,
    /// The writes that fail: the number of the creating, and the number of the write on it, each from 1.
    pub writes: Vec<(u64, u64)>,
    /// How many bytes a read or a write takes at most. 0 means all.
    pub step: usize,
    /// How many reads a source can record, and how many bytes a created file can have.
    pub room: usize,
}

impl Plan {
    /// A plan in which nothing fails, and each read and write takes all. A source can record `room` reads, and a
    /// created file can have `room` bytes.
    pub fn calm(alloc: Global, room: usize) -> Plan
        ensures opens { result.opens.items ≡ [] }
        ensures reads { result.reads.items ≡ [] }
        ensures writes { result.writes.items ≡ [] }
        ensures step { result.step ≡ 0 }
        ensures room { result.room ≡ room }
    {
        Plan {
            opens: Vec::new(alloc),
            reads: Vec::new(alloc),
            writes: Vec::new(alloc),
            step: 0,
            room,
        }
    }
}

/// The numbers that are listed for one call, an opening or a creating. Each pair has a call and a number.
pub(crate) fn numbers_of(
    alloc: Global,
    listed: &[(u64, u64)],
    call: u64,
) -> Result<Vec<u64>, AllocError>
    ensures { IfOk result (λ numbers. numbers.items ≡ plan.numbers_of call listed.entry.now) }
{
    listed
        .iter()
        .filter(|pair| pair.0 == call)
        .map(|pair| pair.1)
        .collect(alloc)
}

/// How many of the wanted bytes a call takes: at most `step`, and all if `step` is 0.
pub(crate) fn bytes_per_call(step: usize, wanted: usize) -> usize
    ensures { result ≡ plan.bytes_per_call step wanted }
{
    if step == 0 { wanted } else { step.min(wanted) }
}
