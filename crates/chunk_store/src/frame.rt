//! One chunk in memory.
//! Used in this crate by `array`, `loading` and `summary`.
ghost use Rattle.std.specs.Prelude.{◌≡◌, None, length, IfOk, vec_len};
ghost use Rattle.layouts.specs.Chunks.{chunk_cells};
ghost use Rattle.chunk_store.specs.declared.frame.TheConstants.{PIECE_BYTES};

use cells::Cell;
use layouts::Layout;
use source_io::NoMemory;
use std::alloc::Global;
use std::marker::Model;

/// How many cells a load reads at a time.
pub(crate) const PIECE_CELLS: usize = 1024;

/// The number of bytes of these cells.
pub(crate) const PIECE_BYTES: usize = 4096;

/// The cells of one chunk, and the number of the chunk, if the frame holds one. Contracts see these two. A frame always
/// has as many cells as a chunk of its layout, padding included.
#[derive(Drop)]
pub struct Frame {
    pub(crate) chunk: Option<u32>,
    pub(crate) cells: Vec<Cell>,
    /// Room for the bytes that a load reads at a time.
    pub(crate) bytes: Vec<u8>,
    ghost room: { vec_len bytes ≡ PIECE_BYTES },
}

impl Model for Frame {
    ghost use Rattle.chunk_store.specs.Frames.{FrameParts};

    ghost Value = { FrameParts };

    ghost view = { λ f. record { chunk = f.chunk; cells = f.cells.items } };
}

impl Frame {
    /// A frame for chunks of this layout that holds no chunk. `NoMemory` if memory ran out.
    pub fn new(alloc: Global, layout: &Layout) -> Result<Frame, NoMemory>
        ensures no_chunk { IfOk result (λ frame. frame.chunk ≡ None) }
        ensures cells { IfOk result (λ frame. length frame.cells ≡ chunk_cells layout.now) }
    {
        let Ok(cells) = vec![in alloc; Cell(0); layout.chunk_cells() as usize] else {
            return Err(NoMemory);
        };
        let Ok(bytes) = vec![in alloc; 0; PIECE_BYTES] else {
            return Err(NoMemory);
        };
        Ok(Frame {
            chunk: None,
            cells,
            bytes,
        })
    }

    /// The number of the chunk that it holds, or `None` if it holds none.
    pub fn chunk(&self) -> Option<u32>
        ensures { result ≡ self.now.chunk }
    {
        self.chunk
    }

    /// Its cells, in the order of the chunk in its file, padding included. If it holds no chunk, they say nothing.
    pub fn cells(&self) -> &[Cell]
        ensures { result.now ≡ self.now.cells }
    {
        self.cells.as_slice()
    }
}
