//! What the words of `search` give. It is not built, so no command shows it.

use command_words::{Command, read_words};
use std::alloc::Global;
use std::test::Fail;

/// The solvers, the validators, the frames and the strips that words ask for, and whether they ask for a summary.
type Numbers = (u64, u64, u64, u64, bool);

/// What the words of a line give to `search`, if they name the array `a` and the query `q`.
fn read_line(alloc: Global, line: &str) -> Result<Option<Numbers>, Fail> {
    let mut words = Vec::new(alloc);
    for word in line.split_whitespace() {
        words.push(String::from_str(alloc, word)?)?;
    }
    match read_words(alloc, words.as_slice()) {
        Ok(
            Command::Search {
                array: "a",
                query: "q",
                solvers,
                validators,
                frames,
                strips,
                summary,
            },
        ) => Ok(Some((solvers, validators, frames, strips, summary))),
        _ => Ok(None),
    }
}

#[test]
fn options_of_search_are_read_within_their_limits(rt: HostRuntime) -> Result<(), Fail> {
    let cases = [
        ("search a q", Some((2, 1, 16, 1, false))),
        ("search a q --summary", Some((2, 1, 16, 1, true))),
        ("search --solvers 1 a q", Some((1, 1, 16, 1, false))),
        ("search a --solvers=16 q", Some((16, 1, 16, 1, false))),
        ("search a q --validators 0", Some((2, 0, 16, 1, false))),
        ("search a q --validators=16", Some((2, 16, 16, 1, false))),
        ("search a q --frames 1", Some((2, 1, 1, 1, false))),
        ("search a q --frames=256", Some((2, 1, 256, 1, false))),
        ("search a q --strips 1", Some((2, 1, 16, 1, false))),
        ("search a q --strips=4096", Some((2, 1, 16, 4096, false))),
        (
            "search --summary --strips +7 --frames 007 --validators 3 --solvers 4 -- a q",
            Some((4, 3, 7, 7, true)),
        ),
        ("search a", None),
        ("search a q x", None),
        ("search a q --summary=1", None),
        ("search a q --summary --summary", None),
        ("search a q --solvers 0", None),
        ("search a q --solvers 17", None),
        ("search a q --solvers", None),
        ("search a q --solvers=", None),
        ("search a q --solvers -1", None),
        ("search a q --solvers 2 --solvers 2", None),
        ("search a q --solver 2", None),
        ("search a q --validators 17", None),
        ("search a q --frames 0", None),
        ("search a q --frames 257", None),
        ("search a q --strips 0", None),
        ("search a q --strips 4097", None),
        ("search a q --strips x", None),
        ("search a q --schedule 1", None),
        ("search a q -- --summary", None),
    ];
    for (line, numbers) in cases {
        assert_eq!(rt; read_line(rt.alloc(), line)?, numbers, "{line}");
    }
    Ok(())
}
