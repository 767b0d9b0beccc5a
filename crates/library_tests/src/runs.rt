//! Commands on a shelf in memory in which one call after the other fails, or each does little.
ghost use Rattle.std.specs.Prelude.{◌≡◌, None, IfOk};

use search_run::run_tool;
use source_io::{MemShelf, MemSink, Plan, Shelf};
use std::alloc::{AllocError, Global};
use std::test::Fail;

/// The cells 3 -1 4 1 . 5 9 2 in two chunks, with blocks of two cells and of four.
const ARRAY: &[u8; 128] =
    b"SEARCHLIGHT\n\x01\0\0\0\x01\0\0\0\x08\0\0\0\x01\0\0\0\x01\0\0\0\x04\0\0\0\x01\0\0\0\x01\0\0\0\x02\0\0\0\x02\0\0\0\x01\0\0\0\x01\0\0\0\x04\0\0\0\x01\0\0\0\x01\0\0\0\0\0\0\0\0\0\0\0\0\0\0\0\0\0\0\0\0\0\0\0\0\0\0\0\x03\0\0\0\xff\xff\xff\xff\x04\0\0\0\x01\0\0\0\0\0\0\x80\x05\0\0\0\x09\0\0\0\x02\0\0\0";

/// The windows of two cells whose sum is at least 9. It has 150 bytes.
const QUERY: &str =
    r#"{"variables":[{"name":"x","from":0,"to":7}],"regions":[{"name":"r","at":["x"],"length":[2]}],"constraints":[{"agg":"sum","of":"r","cmp":"ge","to":9}]}"#;

/// The solutions: the windows at 5 and 6, with the sums 14 and 11.
const FOUND: &str = "x=5\nx=6\n";

/// The same array as text. It has 63 bytes.
const TEXT: &str = "rank 1 extent 8 chunk 4 level 2 level 4 cells 3 -1 4 1 . 5 9 2\n";

/// The lines of `info` on it.
const INFO: &str =
    "rank 1\nextent 8\nchunk 4\nchunks 2\nlevel 0 block 2 grid 4\nlevel 1 block 4 grid 2\ncells 8 present 7 least -1 greatest 9 sum 23\n";

const READ_FAULT: &[u8] = b"searchlight: read fault\n";

const WRITE_FAULT: &[u8] = b"searchlight: write fault\n";

const NO_MEMORY: &[u8] = b"searchlight: no memory\n";

/// A shelf that holds the array as `a`, the query as `q` and the text as `t`.
fn shelf_by(alloc: Global, plan: Plan) -> Result<MemShelf, AllocError>
    ensures lent { IfOk result (λ shelf. (⟦<MemShelf as Shelf>⟧.state shelf).lent ≡ 0) }
    ensures making { IfOk result (λ shelf. (⟦<MemShelf as Shelf>⟧.state shelf).making ≡ None) }
{
    let mut files = Vec::new(alloc);
    files.push((
        String::from_str(alloc, "a")?,
        Vec::from_slice(alloc, ARRAY)?,
    ))?;
    files.push((
        String::from_str(alloc, "q")?,
        Vec::from_slice(alloc, QUERY.as_bytes())?,
    ))?;
    files.push((
        String::from_str(alloc, "t")?,
        Vec::from_slice(alloc, TEXT.as_bytes())?,
    ))?;
    Ok(MemShelf::new(alloc, files, plan))
}

/// What a run answered, and what it left.
#[derive(Drop)]
struct Ran {
    status: u8,
    out: MemSink,
    err: MemSink,
    shelf: MemShelf,
}

impl Ran {
    /// The status, the output, and what was said on the error stream.
    fn shows(&self) -> (u8, &[u8], &[u8]) {
        (self.status, self.out.as_bytes(), self.err.as_bytes())
    }

    /// Whether a file holds these bytes.
    fn left(&self, name: &str, bytes: &[u8]) -> bool {
        match self.shelf.file(name) {
            Some(held) => held == bytes,
            None => false,
        }
    }

    /// Whether it ended with this fault, printed nothing, handed all files back and made no file `new`.
    fn failed(&self, status: u8, said: &[u8]) -> bool {
        self.shows() == (status, b"".as_slice(), said)
            && self.shelf.lent() == 0
            && self.shelf.file("new").is_none()
    }
}

/// Runs the words of a line by a plan. The output takes `step` bytes a write, where 0 means all, and the write with
/// this number fails.
fn run_line(alloc: Global, line: &str, plan: Plan, step: usize, fails: u64) -> Result<Ran, Fail> {
    let mut words = Vec::new(alloc);
    for word in line.split_whitespace() {
        words.push(String::from_str(alloc, word)?)?;
    }
    let mut shelf = shelf_by(alloc, plan)?;
    let mut out = MemSink::new(alloc, 1000, step, vec![in alloc; fails]?)?;
    let mut err = MemSink::new(alloc, 1000, 0, Vec::new(alloc))?;
    let status = run_tool(alloc, words.as_slice(), &mut shelf, &mut out, &mut err);
    Ok(Ran {
        status,
        out,
        err,
        shelf,
    })
}

/// A plan in which a read or a write takes `step` bytes. One opening, one read and one write fail. A read and a write
/// are given by the number of the opening and their own number.
fn plan_of(
    alloc: Global,
    step: usize,
    opening: u64,
    read: (u64, u64),
    write: (u64, u64),
) -> Result<Plan, AllocError> {
    let mut plan = Plan::calm(alloc, 1000);
    plan.step = step;
    plan.opens.push(opening)?;
    plan.reads.push(read)?;
    plan.writes.push(write)?;
    Ok(plan)
}

#[test]
fn each_opening_that_fails_is_a_read_fault(rt: HostRuntime) -> Result<(), Fail> {
    // The line, the number of the opening or creating that fails, and how many there are.
    let cases = [
        ("solo a q", 2),
        ("verify a q", 2),
        ("info a", 1),
        ("pack t new", 2),
    ];
    for (line, openings) in cases {
        for fails in 1..=openings {
            let plan = plan_of(rt.alloc(), 0, fails, (0, 0), (0, 0))?;
            let ran = run_line(rt.alloc(), line, plan, 0, 0)?;
            assert!(rt; ran.failed(5, READ_FAULT), "{line}, opening {fails}");
            assert_eq!(rt; ran.shelf.opened().len() as u64, fails);
        }
    }
    Ok(())
}

#[test]
fn each_read_that_fails_is_a_read_fault(rt: HostRuntime) -> Result<(), Fail> {
    // The line, how many bytes a read takes, where 0 means all, the opening, and how many reads it has. The array has a
    // header of 96 bytes and twice 16 bytes of cells, which are read one after the other.
    let cases = [
        ("solo a q", 0, 1, 3),
        ("solo a q", 0, 2, 1),
        ("solo a q", 16, 1, 8),
        ("verify a q", 16, 2, 10),
        ("info a", 5, 1, 28),
        ("pack t new", 7, 1, 9),
    ];
    for (line, step, opening, reads) in cases {
        for read in 1..=reads {
            let plan = plan_of(rt.alloc(), step, 0, (opening, read), (0, 0))?;
            let ran = run_line(rt.alloc(), line, plan, 0, 0)?;
            assert!(rt; ran.failed(5, READ_FAULT), "{line}, read {read} by {step}");
            assert_eq!(rt; ran.shelf.source_faults(), 1);
        }
        let plan = plan_of(
            rt.alloc(),
            step,
            0,
            (opening, reads.saturating_add(1)),
            (0, 0),
        )?;
        let ran = run_line(rt.alloc(), line, plan, 0, 0)?;
        assert_eq!(rt; ran.status, 0, "{line} by {step}");
    }
    Ok(())
}

/// The status and the message of a run that makes so many writes, of which this one fails.
fn ending_of(fails: u64, writes: usize) -> (u8, &'static [u8]) {
    if fails > writes as u64 {
        (0, b"")
    } else {
        (6, WRITE_FAULT)
    }
}

#[test]
fn each_write_that_fails_leaves_what_was_written_before_it(rt: HostRuntime) -> Result<(), Fail> {
    for (line, whole) in [("verify a q", FOUND), ("info a", INFO)] {
        for fails in 1..=whole.len() as u64 + 1 {
            let plan = Plan::calm(rt.alloc(), 1000);
            let ran = run_line(rt.alloc(), line, plan, 1, fails)?;
            let before = whole.as_bytes().get(..fails as usize - 1).unwrap_or(b"");
            let (status, said) = ending_of(fails, whole.len());
            assert_eq!(rt;
                ran.shows(),
                (status, before, said),
                "{line}, write {fails}"
            );
        }
    }
    Ok(())
}

#[test]
fn each_write_of_a_file_that_fails_leaves_what_was_written_before_it(
    rt: HostRuntime,
) -> Result<(), Fail> {
    for fails in 1..=ARRAY.len() as u64 + 1 {
        let plan = plan_of(rt.alloc(), 1, 0, (0, 0), (2, fails))?;
        let ran = run_line(rt.alloc(), "pack t new", plan, 0, 0)?;
        let before = ARRAY.get(..fails as usize - 1).unwrap_or(b"");
        let (status, said) = ending_of(fails, ARRAY.len());
        assert_eq!(rt;
            ran.shows(),
            (status, b"".as_slice(), said),
            "write {fails}"
        );
        assert!(rt; ran.left("new", before), "write {fails}");
        assert!(rt; ran.left("t", TEXT.as_bytes()), "write {fails}");
    }
    Ok(())
}

#[test]
fn short_reads_and_writes_change_nothing(rt: HostRuntime) -> Result<(), Fail> {
    for step in [1, 3, 7, 95, 96] {
        for (line, whole) in [("solo a q", FOUND), ("info a", INFO), ("pack t new", "")] {
            let plan = plan_of(rt.alloc(), step, 0, (0, 0), (0, 0))?;
            let ran = run_line(rt.alloc(), line, plan, step, 0)?;
            let shown = (0, whole.as_bytes(), b"".as_slice());
            assert_eq!(rt; ran.shows(), shown, "{line} by {step} bytes");
        }
    }
    Ok(())
}

#[test]
fn the_header_is_read_before_the_query_and_the_cells(rt: HostRuntime) -> Result<(), Fail> {
    let plan = Plan::calm(rt.alloc(), 1000);
    let ran = run_line(rt.alloc(), "solo a q", plan, 0, 0)?;
    let [query, array] = ran.shelf.returned() else {
        panic!(rt; "two files came back");
    };
    assert_eq!(rt; array.asked(), [(0, 96), (96, 16), (112, 16)].as_slice());
    assert_eq!(rt; query.asked(), [(0, 150)].as_slice());
    Ok(())
}

// A trial in which one taking of memory fails ends with 7 and a part of the output. With ample memory, none does.
#[test]
fn memory_that_runs_out_leaves_a_prefix_of_the_output(rt: HostRuntime) -> Result<(), Fail> {
    let plan = Plan::calm(rt.alloc(), 1000);
    let ran = run_line(rt.alloc(), "solo a q", plan, 0, 0)?;
    let (status, out, said) = ran.shows();
    let whole = (status, out) == (0, FOUND.as_bytes());
    let prefix = (status, said) == (7, NO_MEMORY) && FOUND.as_bytes().starts_with(out);
    assert!(rt; whole || prefix);
    Ok(())
}
