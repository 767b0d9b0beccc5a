//! A source, a sink and a shelf in memory that lend, make and fail by plan.
ghost use Rattle.std.specs.Prelude.{◌≡◌, ◌<◌, ◌^◌, None, IfOk};

use source_io::{
    ByteSource, MemShelf, MemSink, OpenFault, Plan, Shelf, SureSource, read_whole, write_whole,
};
use std::alloc::{AllocError, Global};
use std::test::Fail;

/// A shelf with two files, `one` and `two`.
fn two_files(alloc: Global, plan: Plan) -> Result<MemShelf, AllocError>
    ensures lent { IfOk result (λ shelf. (⟦<MemShelf as Shelf>⟧.state shelf).lent ≡ 0) }
    ensures making { IfOk result (λ shelf. (⟦<MemShelf as Shelf>⟧.state shelf).making ≡ None) }
{
    let mut files = Vec::new(alloc);
    files.push((
        String::from_str(alloc, "one")?,
        Vec::from_slice(alloc, b"hello")?,
    ))?;
    files.push((
        String::from_str(alloc, "two")?,
        Vec::from_slice(alloc, b"xy")?,
    ))?;
    Ok(MemShelf::new(alloc, files, plan))
}

/// Opens the file and reads bytes from its beginning. Answers whether all of them were read.
fn read(shelf: &mut MemShelf, name: &str, into: &mut [u8]) -> bool
    requires { (⟦<MemShelf as Shelf>⟧.state shelf.old).lent < 2 ^ 32 }
    ensures lent { (⟦<MemShelf as Shelf>⟧.state shelf.new).lent ≡ (⟦<MemShelf as Shelf>⟧.state shelf.old).lent }
    ensures making { (⟦<MemShelf as Shelf>⟧.state shelf.new).making ≡ (⟦<MemShelf as Shelf>⟧.state shelf.old).making }
{
    let Ok(mut source) = shelf.open(name) else {
        return false;
    };
    let done = into.len() as u64 <= source.size() && read_whole(&mut source, 0, into).is_ok();
    shelf.close(source);
    done
}

/// Creates a file, writes the bytes and finishes it. Answers whether all of them were written.
fn keep(shelf: &mut MemShelf, name: &str, bytes: &[u8]) -> Result<bool, OpenFault>
    requires { (⟦<MemShelf as Shelf>⟧.state shelf.old).making ≡ None }
    ensures making { (⟦<MemShelf as Shelf>⟧.state shelf.new).making ≡ None }
    ensures lent { (⟦<MemShelf as Shelf>⟧.state shelf.new).lent ≡ (⟦<MemShelf as Shelf>⟧.state shelf.old).lent }
{
    let mut out = shelf.create(name)?;
    let whole = write_whole(&mut out, bytes).is_ok();
    shelf.finish(name, out);
    Ok(whole)
}

/// What is asked of a shelf, and how it fails: the name, which opening and which read or write fail, the step, the
/// room.
type Case = (&'static str, u64, (u64, u64), usize, usize);

/// Whether all was read, how many reads were recorded, and the faults of the shelf and of its sources.
fn outcome(
    alloc: Global,
    (name, opens, reads, step, room): Case,
) -> Result<(bool, usize, u64, u64), AllocError> {
    let plan = Plan {
        opens: vec![in alloc; opens]?,
        reads: vec![in alloc; reads]?,
        writes: Vec::new(alloc),
        step,
        room,
    };
    let mut shelf = two_files(alloc, plan)?;
    let mut bytes = [0; 5];
    let done = read(&mut shelf, name, &mut bytes);
    let asked = shelf
        .returned()
        .first()
        .map_or(0, |source| source.asked().len());
    Ok((done, asked, shelf.faults(), shelf.source_faults()))
}

#[test]
fn reads_fail_by_plan(rt: HostRuntime) -> Result<(), Fail> {
    let cases: [(Case, (bool, usize, u64, u64)); 7] = [
        (("one", 0, (0, 0), 0, 1), (true, 1, 0, 0)),
        (("one", 2, (1, 6), 1, 5), (true, 5, 0, 0)),
        (("one", 1, (0, 0), 0, 1), (false, 0, 1, 0)),
        (("six", 0, (0, 0), 0, 1), (false, 0, 1, 0)),
        (("one", 0, (1, 2), 1, 5), (false, 1, 0, 1)),
        (("one", 0, (2, 2), 1, 5), (true, 5, 0, 0)),
        (("one", 0, (0, 0), 1, 3), (false, 3, 0, 1)),
    ];
    for (case, expected) in cases {
        assert_eq!(rt; outcome(rt.alloc(), case)?, expected, "at {case:?}");
    }
    Ok(())
}

/// Whether all was written, what the file then holds, and the faults of the shelf and of its sinks.
type Made = (Result<bool, OpenFault>, Option<&'static [u8]>, u64, u64);

/// Writes `abcdef` under the name. Gives whether all of it was written, and the shelf.
fn made(
    alloc: Global,
    (name, opens, writes, step, room): Case,
) -> Result<(Result<bool, OpenFault>, MemShelf), AllocError> {
    let plan = Plan {
        opens: vec![in alloc; opens]?,
        reads: Vec::new(alloc),
        writes: vec![in alloc; writes]?,
        step,
        room,
    };
    let mut shelf = two_files(alloc, plan)?;
    let answer = keep(&mut shelf, name, b"abcdef");
    Ok((answer, shelf))
}

#[test]
fn writes_fail_by_plan(rt: HostRuntime) -> Result<(), Fail> {
    let failed = Err(OpenFault::Failed);
    let cases: [(Case, Made); 8] = [
        (("new", 0, (0, 0), 0, 6), (Ok(true), Some(b"abcdef"), 0, 0)),
        (("new", 2, (1, 7), 1, 6), (Ok(true), Some(b"abcdef"), 0, 0)),
        (("new", 0, (1, 3), 1, 6), (Ok(false), Some(b"ab"), 0, 1)),
        (("new", 0, (0, 0), 0, 4), (Ok(false), Some(b"abcd"), 0, 1)),
        (("new", 1, (0, 0), 0, 6), (failed, None, 1, 0)),
        (("two", 0, (0, 0), 4, 6), (Ok(true), Some(b"abcdef"), 0, 0)),
        (("two", 0, (1, 1), 0, 6), (Ok(false), Some(b""), 0, 1)),
        (("two", 1, (0, 0), 0, 6), (failed, Some(b"xy"), 1, 0)),
    ];
    for (case, expected) in cases {
        let (answer, shelf) = made(rt.alloc(), case)?;
        let counts = (shelf.faults(), shelf.sink_faults());
        let found = (answer, shelf.file(case.0), counts.0, counts.1);
        assert_eq!(rt; found, expected, "at {case:?}");
    }
    Ok(())
}

#[test]
fn lends_what_it_made(rt: HostRuntime) -> Result<(), Fail> {
    let mut plan = Plan::calm(rt.alloc(), 3);
    plan.opens.push(2)?;
    let mut shelf = two_files(rt.alloc(), plan)?;
    let mut bytes = [0; 2];
    assert!(rt; read(&mut shelf, "two", &mut bytes));
    // Openings and creatings are numbered together, so this one fails.
    assert_eq!(rt; keep(&mut shelf, "new", b"abc"), Err(OpenFault::Failed));
    assert_eq!(rt; keep(&mut shelf, "new", b"abc"), Ok(true));
    assert!(rt; read(&mut shelf, "new", &mut bytes));
    assert_eq!(rt; bytes, *b"ab");
    assert_eq!(rt; (shelf.lent(), shelf.opened().len()), (0, 4));
    assert_eq!(rt; shelf.file("one"), Some(b"hello".as_slice()));
    let [two, new] = shelf.returned() else {
        panic!(rt; "two sources came back");
    };
    assert_eq!(rt; (two.name(), new.name()), ("two", "new"));
    Ok(())
}

#[test]
fn a_sink_takes_steps_until_no_room_is_left(rt: HostRuntime) -> Result<(), Fail> {
    let mut sink = MemSink::new(rt.alloc(), 2, 1, vec![in rt.alloc(); 9]?)?;
    assert!(rt; write_whole(&mut sink, b"abc").is_err());
    assert_eq!(rt; (sink.as_bytes(), sink.faults()), (b"ab".as_slice(), 1));
    Ok(())
}

#[test]
fn a_source_that_never_fails(rt: HostRuntime) -> Result<(), Fail> {
    let mut source = SureSource {
        bytes: Vec::from_slice(rt.alloc(), b"hello")?,
    };
    let mut into = [0; 3];
    assert!(rt; read_whole(&mut source, 1, &mut into).is_ok());
    assert_eq!(rt; into, *b"ell");
    Ok(())
}
