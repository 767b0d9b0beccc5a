//! Searchlight's program: the words of the command line, the system's files and the two standard streams, and the
//! top call over them.
#![tactic(auto)]

mod words;

ghost use Rattle.std.specs.Prelude.{◌≡◌};
ghost use Rattle.std.specs.Process.{exit_status};

use crate::words::{after_name, all_words};
use report::report_ending;
use search_run::run_tool;
use std::process::ExitCode;
use system_files::{FileShelf, WriterSink};

/// The exit code of a process that ends with this status.
fn exit_code(status: u8) -> ExitCode
    ensures { exit_status result ≡ status }
{
    ExitCode::from(status)
}

fn main(rt: HostRuntime) -> ExitCode {
    let mut err = WriterSink::new(rt.stderr());
    let status = match all_words(&rt) {
        Ok(all) => {
            let words = after_name(all.as_slice());
            let mut shelf = FileShelf::new(rt, rt.alloc());
            let mut out = WriterSink::new(rt.stdout());
            run_tool(rt.alloc(), words, &mut shelf, &mut out, &mut err)
        }
        Err(ending) => report_ending(ending, &mut err),
    };
    exit_code(status)
}
