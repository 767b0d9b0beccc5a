//! A source in memory: what a shelf in memory lends.
ghost use Rattle.std.specs.Prelude.{◌≡◌, ◌+◌, ◌<◌, ◌≤◌, [], ◌∷◌, ◌++◌, Some, is_err, if◌then◌else◌, IfOk, OnOk, OnErr, length, string_bytes, vec_len, vec_capacity};

use crate::plan::{bytes_per_call, numbers_of};
use crate::{ByteSource, Failed, NoMemory, Plan};
use std::alloc::Global;

/// A file that a shelf in memory lends.
///
/// Its reads are numbered from 1, failed ones included. One fails if the plan names it, or if there is no room
/// to record it. Those that do not fail are recorded, and no others. A read takes no memory.
#[derive(Drop)]
pub struct MemSource {
    name: String,
    bytes: Vec<u8>,
    asked: Vec<(u64, usize)>,
    room: usize,
    step: usize,
    fails: Vec<u64>,
    reads: u64,
    faults: u64,
    ghost reserved: { vec_len asked + room ≤ vec_capacity asked },
}

impl MemSource {
    ghost use Rattle.source_io.specs.MemSource.{reads_left};
    ghost use Rattle.source_io.specs.Plan.{planned_reads};

    /// A source of these bytes, opened as `name`. The plan says which reads fail on the opening with this number.
    /// `NoMemory` if there is no memory for the copies of the name, the bytes and the plan, or for the record.
    pub(crate) fn new(
        alloc: Global,
        name: &str,
        bytes: &[u8],
        plan: &Plan,
        opening: u64,
    ) -> Result<MemSource, NoMemory>
        ensures file { IfOk result (λ source. ⟦<MemSource as ByteSource>⟧.file source ≡ record {
          bytes = Some bytes.now;
          len = length bytes.now;
          name = Some name.now;
        }) }
        ensures nothing_asked { IfOk result (λ source. ⟦<MemSource as ByteSource>⟧.asked source ≡ Some []) }
        ensures plan { IfOk result (λ source. reads_left source ≡ planned_reads plan.now opening) }
        ensures no_faults { IfOk result (λ source. ⟦<MemSource as ByteSource>⟧.faults source ≡ 0) }
    {
        let Ok(name) = String::from_str(alloc, name) else {
            return Err(NoMemory);
        };
        let Ok(bytes) = Vec::from_slice(alloc, bytes) else {
            return Err(NoMemory);
        };
        let Ok(fails) = numbers_of(alloc, plan.reads.as_slice(), opening) else {
            return Err(NoMemory);
        };
        let Ok(asked) = Vec::with_capacity(alloc, plan.room) else {
            return Err(NoMemory);
        };
        Ok(MemSource {
            name,
            bytes,
            asked,
            room: plan.room,
            step: plan.step,
            fails,
            reads: 0,
            faults: 0,
        })
    }

    /// The name that it was opened as.
    pub fn name(&self) -> &str
        ensures { (⟦<MemSource as ByteSource>⟧.file self.now).name ≡ Some result.now }
    {
        self.name.as_str()
    }

    /// The offset and the length of each read that did not fail, in order.
    pub fn asked(&self) -> &[(u64, usize)]
        ensures { ⟦<MemSource as ByteSource>⟧.asked self.now ≡ Some result.now }
    {
        self.asked.as_slice()
    }

    /// How many reads failed. The count ends at `u64::MAX`.
    pub fn faults(&self) -> u64
        ensures { result ≡ ⟦<MemSource as ByteSource>⟧.faults self.now }
    {
        self.faults
    }
}

impl ByteSource for MemSource {
    ghost use Rattle.source_io.specs.MemSource.{reads_left};
    ghost use Rattle.source_io.specs.Plan as plan;
    ghost use Rattle.source_io.specs.Plan.{after_call, read_fails};
    ghost use Rattle.source_io.specs.Told.{Fills, Rose};

    ghost file = { λ source. record {
      bytes = Some source.bytes.items;
      len = length source.bytes.items;
      name = Some (string_bytes source.name);
    } };

    ghost asked = { λ source. Some source.asked.items };

    ghost faults = { λ source. source.faults };

    ghost step = { λ source. Some source.step };

    fn size(&self) -> u64 {
        self.bytes.len() as u64
    }

    fn read_at(&mut self, offset: u64, into: &mut [u8]) -> Result<usize, Failed>
        requires some { 0 < length into.old }
        requires within { offset + length into.old ≤ length self.old.bytes.items }

        // It fails exactly if no room is left to record it or the plan names it. Else it gives the bytes of a step.
        ensures fails { is_err result ≡ read_fails (reads_left self.old) }
        ensures gives { IfOk result (λ n. n ≡ plan.bytes_per_call self.old.step (length into.old)) }
        ensures bytes { IfOk result (λ n. Fills (Some self.old.bytes.items) offset n into.old into.new) }
        ensures unchanged { OnErr result (into.new ≡ into.old) }

        // Each read has a number. One that did not fail is recorded, and one that failed is counted.
        ensures numbered { reads_left self.new ≡ after_call (reads_left self.old) (if is_err result then 0 else 1) }
        ensures recorded { OnOk result (self.new.asked.items ≡ self.old.asked.items ++ (offset, length into.old) ∷ []) }
        ensures not_recorded { OnErr result (self.new.asked.items ≡ self.old.asked.items) }
        ensures cause { OnErr result (Rose self.old.faults self.new.faults) }
        ensures faults { self.old.faults ≤ self.new.faults }
        ensures no_fault { OnOk result (self.new.faults ≡ self.old.faults) }
        ensures same_name { self.new.name ≡ self.old.name }
        ensures same_bytes { self.new.bytes ≡ self.old.bytes }
    {
        self.reads = self.reads.saturating_add(1);
        if self.room == 0 || self.fails.contains(&self.reads) {
            self.faults = self.faults.saturating_add(1);
            return Err(Failed);
        }
        self.asked.push_reserved((offset, into.len()));
        self.room -= 1;
        let n = bytes_per_call(self.step, into.len());
        let from = offset as usize;
        into[..n].copy_from_slice(&self.bytes.as_slice()[from..from + n]);
        Ok(n)
    }
}
