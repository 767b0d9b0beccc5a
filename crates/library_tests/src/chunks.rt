//! Chunks of small files: which offsets are read, and what a read that fails leaves.
ghost use Rattle.std.specs.Prelude.{◌+◌, ◌≤◌};

use array_file::file_size;
use chunk_store::{CellsFault, Frame, array_record, load, read_cells};
use layouts::{Layout, LayoutNumbers, LayoutRefusal};
use source_io::{ByteSource, MemShelf, MemSource, Plan, Shelf};
use std::alloc::{AllocError, Global};
use std::test::Fail;

/// A line of 3,000 cells in two chunks, each of a whole piece and a shorter one.
fn long_line() -> Result<Layout, LayoutRefusal> {
    let chunk = [1500, 1, 1];
    Layout::new(LayoutNumbers {
        rank: 1,
        extents: [3000, 1, 1],
        chunk,
        levels: 1,
        blocks: [chunk, [0; 3], [0; 3], [0; 3]],
    })
}

/// A source of so many zeros. The read with this number, from 1, fails. Each read gives at most `step` bytes.
fn opened(alloc: Global, size: usize, read: u64, step: usize) -> Result<MemSource, AllocError> {
    let mut files = Vec::new(alloc);
    let bytes = vec![in alloc; 0u8; size]?;
    files.push((String::from_str(alloc, "array")?, bytes))?;
    let mut plan = Plan::calm(alloc, 16);
    plan.reads = vec![in alloc; (1, read)]?;
    plan.step = step;
    match MemShelf::new(alloc, files, plan).open("array") {
        Ok(source) => Ok(source),
        Err(_) => Err(AllocError),
    }
}

/// Whether chunk `n` was loaded.
fn is_loaded(layout: &Layout, n: u32, src: &mut MemSource, frame: &mut Frame) -> bool {
    let needed = file_size(layout);
    if n >= layout.chunks() || src.size() < needed {
        return false;
    }
    frame.cells().len() == layout.chunk_cells() as usize && load(layout, n, src, frame).is_ok()
}

fn sent<T: Send>(_: &T) {}

#[test]
fn each_chunk_is_read_in_whole_pieces_in_order(rt: HostRuntime) -> Result<(), Fail> {
    let layout = long_line().expect(&rt, "a layout");
    let mut frame = Frame::new(rt.alloc(), &layout)?;
    sent(&frame);
    assert_eq!(rt; (frame.chunk(), frame.cells().len()), (None, 1500));
    let mut src = opened(rt.alloc(), 12096, 0, 0)?;
    assert!(rt; is_loaded(&layout, 0, &mut src, &mut frame));
    assert!(rt; is_loaded(&layout, 1, &mut src, &mut frame));
    assert_eq!(rt; frame.chunk(), Some(1));
    let all = [(96, 4096), (4192, 1904), (6096, 4096), (10192, 1904)];
    assert_eq!(rt; src.asked(), all.as_slice());
    Ok(())
}

#[test]
fn a_read_that_fails_leaves_no_chunk(rt: HostRuntime) -> Result<(), Fail> {
    let layout = long_line().expect(&rt, "a layout");
    let mut frame = Frame::new(rt.alloc(), &layout)?;
    let mut src = opened(rt.alloc(), 12096, 2, 0)?;
    assert!(rt; !is_loaded(&layout, 0, &mut src, &mut frame));
    assert_eq!(rt; (frame.chunk(), src.faults()), (None, 1));
    assert_eq!(rt; src.asked(), [(96, 4096)].as_slice());
    assert!(rt; is_loaded(&layout, 1, &mut src, &mut frame));
    Ok(())
}

#[test]
fn a_source_that_gives_few_bytes_is_asked_for_the_rest(rt: HostRuntime) -> Result<(), Fail> {
    let chunk = [2, 2, 1];
    let layout = Layout::new(LayoutNumbers {
        rank: 2,
        extents: [2, 3, 1],
        chunk,
        levels: 1,
        blocks: [chunk, [0; 3], [0; 3], [0; 3]],
    });
    let layout = layout.expect(&rt, "a layout");
    let mut frame = Frame::new(rt.alloc(), &layout)?;
    let mut src = opened(rt.alloc(), 128, 0, 7)?;
    assert!(rt; is_loaded(&layout, 1, &mut src, &mut frame));
    assert_eq!(rt; src.asked(), [(112, 16), (119, 9), (126, 2)].as_slice());
    Ok(())
}

#[test]
fn each_chunk_of_an_array_is_read_once_in_order(rt: HostRuntime) -> Result<(), Fail> {
    let layout = long_line().expect(&rt, "a layout");
    // Which of the four reads fails. 5 is none.
    for fails in 1..=5 {
        let mut src = opened(rt.alloc(), 12096, fails, 0)?;
        let mut other = opened(rt.alloc(), 12096, fails, 0)?;
        if file_size(&layout) <= src.size() && file_size(&layout) <= other.size() {
            let cells = read_cells(rt.alloc(), &layout, &mut src);
            let record = array_record(rt.alloc(), &layout, &mut other);
            let fault = if fails < 5 {
                Some(CellsFault::Read)
            } else {
                None
            };
            assert_eq!(rt; (cells.err(), record.err()), (fault, fault), "read {fails}");
        }
        assert_eq!(rt; src.asked().len() as u64, fails - 1);
        assert_eq!(rt; src.asked(), other.asked());
    }
    Ok(())
}
