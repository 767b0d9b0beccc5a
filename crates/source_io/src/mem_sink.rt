//! A sink in memory: a created file of a shelf in memory.
ghost use Rattle.std.specs.Prelude.{◌≡◌, ◌+◌, ◌<◌, ◌≤◌, [], ◌++◌, Some, is_err, IfOk, OnOk, OnErr, length, take, vec_len, vec_capacity};

use crate::plan::bytes_per_call;
use crate::{Failed, NoMemory, Sink};
use std::alloc::Global;

/// A sink that keeps the bytes that it takes. A write takes no memory.
#[derive(Drop)]
pub struct MemSink {
    bytes: Vec<u8>,
    room: usize,
    step: usize,
    fails: Vec<u64>,
    writes: u64,
    faults: u64,
    ghost reserved: { vec_len bytes + room ≤ vec_capacity bytes },
}

impl MemSink {
    ghost use Rattle.source_io.specs.MemSink.{writes_left};

    /// A sink that can hold `room` bytes. A write takes at most `step` bytes, where 0 means all, and no more than there
    /// is room for. Writes are numbered from 1, failed ones included. A write fails if its number is in `fails`, or if
    /// no room is left. `NoMemory` if there is no memory for the bytes.
    pub fn new(
        alloc: Global,
        room: usize,
        step: usize,
        fails: Vec<u64>,
    ) -> Result<MemSink, NoMemory>
        ensures empty { IfOk result (λ sink. ⟦<MemSink as Sink>⟧.written sink ≡ Some []) }
        ensures plan { IfOk result (λ sink. writes_left sink ≡ record { fails = fails.items; step = step; room = room; made = 0 }) }
        ensures no_faults { IfOk result (λ sink. ⟦<MemSink as Sink>⟧.faults sink ≡ 0) }
    {
        let Ok(bytes) = Vec::with_capacity(alloc, room) else {
            return Err(NoMemory);
        };
        Ok(MemSink {
            bytes,
            room,
            step,
            fails,
            writes: 0,
            faults: 0,
        })
    }

    /// The bytes that were written, in order.
    pub fn as_bytes(&self) -> &[u8]
        ensures { ⟦<MemSink as Sink>⟧.written self.now ≡ Some result.now }
    {
        self.bytes.as_slice()
    }

    /// How many writes failed. The count ends at `u64::MAX`.
    pub fn faults(&self) -> u64
        ensures { result ≡ ⟦<MemSink as Sink>⟧.faults self.now }
    {
        self.faults
    }

    /// The bytes that were written, in order. It takes no memory.
    pub(crate) fn into_bytes(self) -> Vec<u8>
        ensures { ⟦<MemSink as Sink>⟧.written self ≡ Some result.items }
    {
        self.bytes
    }
}

impl Sink for MemSink {
    ghost use Rattle.source_io.specs.MemSink.{writes_left};
    ghost use Rattle.source_io.specs.Plan.{after_call, bytes_taken, write_fails};
    ghost use Rattle.source_io.specs.Told.{Rose};
    ghost use Rattle.std.specs.Result.{result_unwrap_or};

    ghost written = { λ sink. Some sink.bytes.items };

    ghost faults = { λ sink. sink.faults };

    fn write(&mut self, piece: &[u8]) -> Result<usize, Failed>
        requires { 0 < length piece.now }

        // It fails exactly if no room is left or the plan names it. Else it takes the bytes of a step, if there is room.
        ensures fails { is_err result ≡ write_fails (writes_left self.old) (length piece.now) }
        ensures takes { IfOk result (λ n. n ≡ bytes_taken (writes_left self.old) (length piece.now)) }
        ensures written { IfOk result (λ n. self.new.bytes.items ≡ self.old.bytes.items ++ take n piece.now) }
        ensures unchanged { OnErr result (self.new.bytes.items ≡ self.old.bytes.items) }

        // Each write has a number, and one that failed is counted.
        ensures numbered { writes_left self.new ≡ after_call (writes_left self.old) (result_unwrap_or result 0) }
        ensures cause { OnErr result (Rose self.old.faults self.new.faults) }
        ensures faults { self.old.faults ≤ self.new.faults }
        ensures no_fault { OnOk result (self.new.faults ≡ self.old.faults) }
    {
        self.writes = self.writes.saturating_add(1);
        let n = bytes_per_call(self.step, piece.len()).min(self.room);
        if n == 0 || self.fails.contains(&self.writes) {
            self.faults = self.faults.saturating_add(1);
            return Err(Failed);
        }
        self.bytes.extend_from_slice(&piece[..n]).unwrap();
        self.room -= n;
        Ok(n)
    }
}
