//! The size of an array file, and the offsets of its chunks. `chunk_store` reads by them.
//! Used in this crate by `header` and `writing`, and by `chunk_store`.
ghost use Rattle.std.specs.Prelude.{◌≡◌, ◌<◌};
ghost use Rattle.layouts.specs.Chunks.{chunk_count};
ghost use Rattle.array_file.specs.Header as header;
ghost use Rattle.array_file.specs.Stored.{chunk_start};

use layouts::Layout;

/// The size of the header, in bytes.
pub const HEADER_BYTES: usize = 96;

/// The size in bytes of a file of this layout: its header and its chunks, each at full size.
pub fn file_size(layout: &Layout) -> u64
    ensures { result ≡ header.file_size layout.now }
{
    HEADER_BYTES as u64 + 4 * layout.chunk_cells() as u64 * layout.chunks() as u64
}

/// The offset of the first byte of chunk `n`, which counts from 0.
pub fn chunk_offset(layout: &Layout, n: u32) -> u64
    requires { n < chunk_count layout.now }
    ensures { result ≡ chunk_start layout.now n }
{
    let _chunks = layout.chunks();
    HEADER_BYTES as u64 + 4 * layout.chunk_cells() as u64 * n as u64
}
