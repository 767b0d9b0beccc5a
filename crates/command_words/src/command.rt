//! The commands. `search_run` runs one.

/// A command with what the words after its name give.
#[derive(Clone, Copy, Debug, PartialEq, Eq)]
pub enum Command<'a> {
    /// Print the solutions of a query on an array.
    Solo {
        array: &'a str,
        query: &'a str,
    },
    /// Print the same solutions, always found by plain enumeration.
    Verify {
        array: &'a str,
        query: &'a str,
    },
    /// Make the array file of an array text.
    Pack {
        text: &'a str,
        array: &'a str,
    },
    /// Print what an array file holds.
    Info {
        array: &'a str,
    },
    /// Print the solutions of a query on an array, found by solvers and validators that work at once.
    Search {
        array: &'a str,
        query: &'a str,
        /// From 1 to 16.
        solvers: u64,
        /// From 0 to 16.
        validators: u64,
        /// From 1 to 256.
        frames: u64,
        /// From 1 to 4096.
        strips: u64,
        /// Whether a summary is asked for.
        summary: bool,
    },
}
