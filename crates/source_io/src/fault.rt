//! Why a call on the outside did nothing. All traits answer with these.

/// A read or a write that was not done.
#[derive(Clone, Copy, Debug, PartialEq, Eq)]
pub struct Failed;

/// Memory ran out.
#[derive(Clone, Copy, Debug, PartialEq, Eq)]
pub struct NoMemory;

/// Why a file was not opened.
#[derive(Clone, Copy, Debug, PartialEq, Eq)]
pub enum OpenFault {
    /// The shelf counted a fault.
    Failed,
    /// Memory ran out.
    NoMemory,
}
