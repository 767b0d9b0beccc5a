//! Loading a query.
//! Used in this crate by `load_problem`.
ghost use Rattle.std.specs.Prelude.{◌≡◌, ◌≤◌};
ghost use Rattle.query_text.specs.Walk.{most_bytes};
ghost use Rattle.search_run.specs.Problem.{LoadsQuery};
ghost use Rattle.search_run.specs.Reads.{whole_up_to};

use crate::load::Load;
use crate::read_all::read_all;
use crate::stop::Stop;
use query_model::Query;
use query_text::{check_size, read_query};
use source_io::ByteSource;
use std::alloc::Global;

/// A query file, for arrays of this rank.
#[derive(Drop)]
pub struct QueryFile {
    pub rank: u8,
    ghost least: { 1 ≤ rank },
    ghost most: { rank ≤ 3 },
}

impl Load for QueryFile {
    type Value = Query;

    ghost loads = { λ what bytes result. LoadsQuery what.rank bytes result };

    ghost parts = { λ what bytes. whole_up_to most_bytes bytes };

    ghost may_fail = { λ what bytes failure. tt };

    /// A file that is too long is refused and not read.
    fn load<S: ByteSource>(&self, alloc: Global, source: &mut S) -> Result<Query, Stop> {
        check_size(source.size())?;
        let bytes = read_all(alloc, source)?;
        let query = read_query(alloc, bytes.as_slice(), self.rank)?;
        Ok(query)
    }
}
