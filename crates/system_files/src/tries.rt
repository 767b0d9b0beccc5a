//! Calls of the system that a signal may interrupt: reads and writes.

/// How often a read or a write that a signal interrupts is tried, before it counts as failed. The program handles no
/// signals, so none should interrupt it.
pub const TRIES: u32 = 16;
