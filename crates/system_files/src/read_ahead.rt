//! A buffer for a file that is mostly read from its beginning to its end. Each file source has one.
ghost use Rattle.std.specs.Prelude.{◌≡◌, ◌<◌, ◌≤◌, ◌+◌, ◌-◌, ◌^◌, ◌++◌, length, take, drop, true, false, IsTrue, ◌↔◌, IfOk, IfSome, vec_len};
ghost use Rattle.source_io.specs.Told.{Holds};
ghost use Rattle.system_files.specs.declared.read_ahead.TheConstants.{ROOM};

use crate::reader::Reader;
use source_io::NoMemory;
use std::alloc::Global;

/// The size of the buffer in bytes. One read of the system takes at most this many.
pub const ROOM: usize = 65536;

/// Some bytes of a file that were read and may be handed out. A read that begins where the last one ended fills the
/// buffer, so that the next reads need not ask the system. Any other read asks only for the bytes that are wanted.
#[derive(Drop)]
pub struct ReadAhead {
    /// It begins with the bytes of the file that are held. The bytes after them are not from the file.
    pub buffer: Vec<u8>,
    /// The offset in the file of the first byte that is held.
    pub start: u64,
    /// How many bytes are held.
    pub held: usize,
    /// The offset after the last byte that was handed out. Before the first, it is `u64::MAX`, which is no offset of a
    /// file.
    pub next: u64,
    ghost room: { vec_len buffer ≡ ROOM },
    ghost within: { held ≤ vec_len buffer },
}

impl ReadAhead {
    /// A buffer that holds nothing. `NoMemory` if there is no memory for it.
    pub fn new(alloc: Global) -> Result<ReadAhead, NoMemory>
        ensures { IfOk result (λ ahead. ahead.held ≡ 0) }
    {
        let mut buffer = Vec::new(alloc);
        match buffer.resize(ROOM, 0) {
            Ok(()) => Ok(ReadAhead {
                buffer,
                start: 0,
                held: 0,
                next: u64::MAX,
            }),
            Err(_) => Err(NoMemory),
        }
    }

    /// Whether it holds the byte at this offset of the file.
    pub fn has(&self, offset: u64) -> bool
        ensures { IsTrue result ↔ ((self.now.start ≤ offset) × (offset < self.now.start + self.now.held)) }
    {
        offset >= self.start && offset - self.start < self.held as u64
    }

    /// Reads from an offset on. `wanted` bytes are asked for, and the file has `left` bytes from there. Answers whether
    /// at least one byte was read. If so, the buffer then holds the bytes that were read. Otherwise it holds nothing.
    pub fn fetch<R: Reader>(&mut self, file: &R, offset: u64, wanted: u64, left: u64) -> bool
        requires some { 0 < wanted }
        requires within { wanted ≤ left }
        ensures held { result ≡ true → (self.new.start ≡ offset) × (0 < self.new.held) }
        ensures nothing { result ≡ false → self.new.held ≡ 0 }
        ensures next { self.new.next ≡ self.old.next }
        ensures bytes { Holds (R.bytes file.now) self.new.start self.new.held (take self.new.held self.new.buffer.items) }
    {
        let most = if offset == self.next { left } else { wanted };
        let most = most.min(ROOM as u64) as usize;
        self.held = 0;
        let Some(n) = read_into(file, offset, most, self.buffer.as_mut_slice()) else {
            return false;
        };
        self.start = offset;
        self.held = n;
        true
    }

    /// Copies the bytes that it holds from an offset on to the beginning of `into`, and answers how many.
    pub fn hand_out(&mut self, offset: u64, into: &mut [u8]) -> usize
        requires some { 0 < length into.old }
        requires fits { offset + length into.old < 2 ^ 64 }
        requires start { self.old.start ≤ offset }
        requires held { offset < self.old.start + self.old.held }
        ensures count { (0 < result) × (result ≤ length into.old) }
        ensures held { offset + result ≤ self.old.start + self.old.held }
        ensures next { self.new.next ≡ offset + result }
        ensures bytes { into.new ≡ take result (drop (offset - self.old.start) self.old.buffer.items) ++ drop result into.old }
        ensures rest { drop result into.new ≡ drop result into.old }
        ensures same { (self.new.start ≡ self.old.start) × (self.new.held ≡ self.old.held) × (self.new.buffer ≡ self.old.buffer) }
    {
        let first = (offset - self.start) as usize;
        let n = into.len().min(self.held - first);
        copy_to_beginning(into, &self.buffer[first..first + n]);
        self.next = offset + n as u64;
        n
    }
}

/// Makes one read of at most `most` bytes from an offset on into the beginning of `into`, and answers how many were
/// read, at least one. `None` if there were none.
fn read_into<R: Reader>(file: &R, offset: u64, most: usize, into: &mut [u8]) -> Option<usize>
    requires { (0 < most) × (most ≤ length into.old) }
    ensures count { IfSome result (λ n. (0 < n) × (n ≤ most)) }
    ensures bytes { IfSome result (λ n. Holds (R.bytes file.now) offset n (take n into.new)) }
    ensures room { length into.new ≡ length into.old }
{
    file.read_some(offset, &mut into[..most])
}

/// Copies the items to the beginning of `into`, which has room for them. The rest of it stays.
fn copy_to_beginning(into: &mut [u8], items: &[u8])
    requires { length items.now ≤ length into.old }
    ensures { into.new ≡ items.now ++ drop (length items.now) into.old }
{
    into[..items.len()].copy_from_slice(items);
}
