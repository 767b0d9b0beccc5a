//! The system's files, which each test makes for itself and removes, and a stream that is full.
ghost use Rattle.std.specs.Prelude.{◌≡◌, ◌^◌, ◌<◌, None};

use source_io::{ByteSource, Failed, OpenFault, Shelf, Sink, read_whole, write_whole};
use std::alloc::Global;
use std::path::PathBuf;
use std::test::Fail;
use std::{env, fs, process};
use system_files::{FileShelf, RuntimeFiles, WriterSink};

/// A path of the test's own in the folder for temporary files.
fn own_path(rt: &HostRuntime, name: &str) -> Result<PathBuf, Fail> {
    let own = format!(in rt.alloc(); "searchlight-{}-{name}", process::id(rt.process()))?;
    Ok(env::temp_dir(rt)?.join(rt.alloc(), own.as_str())?)
}

/// This many bytes. Bytes near each other differ.
fn pattern(alloc: Global, n: usize) -> Result<Vec<u8>, Fail> {
    let mut bytes = Vec::new(alloc);
    for i in 0..n {
        bytes.push((i % 251) as u8)?;
    }
    Ok(bytes)
}

/// Why a name was not opened. If it was opened, its source is handed back.
fn fault_of(shelf: &mut FileShelf<RuntimeFiles<HostRuntime>>, name: &str) -> Option<OpenFault>
    requires { shelf.old.lent < 2 ^ 32 }
    ensures { shelf.new.lent ≡ shelf.old.lent }
{
    match shelf.open(name) {
        Ok(source) => {
            shelf.close(source);
            None
        }
        Err(fault) => Some(fault),
    }
}

/// Creates a file, writes the bytes and finishes it. Answers whether all of them were written.
fn keep(
    shelf: &mut FileShelf<RuntimeFiles<HostRuntime>>,
    name: &str,
    bytes: &[u8],
) -> Result<bool, OpenFault>
    requires { shelf.old.making ≡ None }
    ensures { shelf.new.making ≡ None }
{
    let mut out = shelf.create(name)?;
    let whole = write_whole(&mut out, bytes).is_ok();
    shelf.finish(name, out);
    Ok(whole)
}

/// Whether up to 4,096 bytes from an offset on are read as they were written.
fn reads_right<S: ByteSource>(source: &mut S, wrote: &[u8], at: usize) -> bool {
    let mut piece = [0; 4096];
    let wanted = piece.len().min(wrote.len().saturating_sub(at));
    at as u64 + wanted as u64 <= source.size()
        && read_whole(source, at as u64, &mut piece[..wanted]).is_ok()
        && wrote.get(at..at + wanted) == Some(&piece[..wanted])
}

#[test]
fn reads_on_and_elsewhere_give_the_bytes_of_their_offsets(rt: HostRuntime) -> Result<(), Fail> {
    let path = own_path(&rt, "pieces")?;
    let wrote = pattern(rt.alloc(), 150_000)?;
    fs::write(&rt, path.as_str(), wrote.as_slice())?;
    let mut shelf = FileShelf::new(rt, rt.alloc());
    let mut source = shelf.open(path.as_str()).expect(&rt, "the file opens");
    let mut right = true;

    // Reads one after the other, through several full buffers; then back, into what was read ahead; to the end; and
    // elsewhere.
    for at in [
        0, 4096, 8192, 69000, 73096, 77192, 73100, 69000, 149_990, 143_000, 147_096, 5,
    ] {
        right = reads_right(&mut source, wrote.as_slice(), at) && right;
    }
    shelf.close(source);
    fs::remove_file(&rt, path.as_str())?;

    assert!(rt; right);
    assert_eq!(rt; (shelf.faults, shelf.source_faults, shelf.lent), (0, 0, 0));
    Ok(())
}

#[test]
fn a_read_of_a_file_that_became_shorter_is_counted(rt: HostRuntime) -> Result<(), Fail> {
    let path = own_path(&rt, "shorter")?;
    fs::write(&rt, path.as_str(), "twelve bytes")?;
    let mut shelf = FileShelf::new(rt, rt.alloc());
    let mut source = shelf.open(path.as_str()).expect(&rt, "the file opens");
    let shortened = fs::write(&rt, path.as_str(), "six by");
    assert_eq!(rt; source.size(), 12);
    let mut piece = [0; 8];
    let short = source.read_at(4, &mut piece);
    let after_short = piece;
    let past = source.read_at(6, &mut piece[..6]);
    shelf.close(source);
    fs::remove_file(&rt, path.as_str())?;

    assert!(rt; shortened.is_ok());
    assert_eq!(rt;
        (short, after_short),
        (Ok(2), [b'b', b'y', 0, 0, 0, 0, 0, 0])
    );
    assert_eq!(rt; (past, piece), (Err(Failed), after_short));
    assert_eq!(rt; (shelf.source_faults, shelf.lent), (1, 0));
    Ok(())
}

#[test]
fn what_is_not_opened_is_counted(rt: HostRuntime) -> Result<(), Fail> {
    let missing = own_path(&rt, "missing")?;
    let folder = env::temp_dir(&rt)?;
    let mut shelf = FileShelf::new(rt, rt.alloc());
    let failed = Some(OpenFault::Failed);
    assert_eq!(rt; fault_of(&mut shelf, missing.as_str()), failed);
    assert_eq!(rt; fault_of(&mut shelf, folder.as_str()), failed);
    assert_eq!(rt; (shelf.faults, shelf.source_faults, shelf.lent), (2, 0, 0));
    Ok(())
}

#[test]
fn what_is_not_created_or_not_written_is_counted(rt: HostRuntime) -> Result<(), Fail> {
    let folder = env::temp_dir(&rt)?;
    let mut shelf = FileShelf::new(rt, rt.alloc());
    let refused = keep(&mut shelf, folder.as_str(), b"bytes");
    assert_eq!(rt; refused, Err(OpenFault::Failed));
    assert_eq!(rt; (shelf.faults, shelf.sink_faults), (1, 0));
    assert_eq!(rt; keep(&mut shelf, "/dev/full", b"bytes"), Ok(false));
    assert_eq!(rt; (shelf.faults, shelf.sink_faults), (1, 1));
    Ok(())
}

#[test]
fn a_file_is_made_in_place_of_one_that_was_there(rt: HostRuntime) -> Result<(), Fail> {
    let path = own_path(&rt, "made")?;
    fs::write(&rt, path.as_str(), "these bytes are replaced")?;
    let mut shelf = FileShelf::new(rt, rt.alloc());
    let whole = keep(&mut shelf, path.as_str(), b"short");
    let left = fs::read(&rt, path.as_str())?;
    fs::remove_file(&rt, path.as_str())?;
    assert_eq!(rt; (whole, left.as_slice()), (Ok(true), b"short".as_slice()));
    assert_eq!(rt; (shelf.faults, shelf.sink_faults), (0, 0));
    Ok(())
}

#[test]
fn a_write_to_a_stream_that_takes_nothing_is_counted(rt: HostRuntime) -> Result<(), Fail> {
    let mut room = [0; 3];
    let mut sink = WriterSink::new(&mut room[..]);
    assert_eq!(rt; (sink.write(b"hello"), sink.faults), (Ok(3), 0));
    assert_eq!(rt; (sink.write(b"lo"), sink.faults), (Err(Failed), 1));
    assert_eq!(rt; room, [b'h', b'e', b'l']);
    Ok(())
}
