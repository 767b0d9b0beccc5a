//! Why `read_query` gives no query: a refusal, or out of memory.
ghost use Rattle.std.specs.Prelude.{◌≡◌};
ghost use Rattle.query_text.specs.declared.fault.QueryFault.TheVariants.{Refused, NoMemory};

use crate::QueryRefusal;
use std::alloc::AllocFailed;

/// Why a query was not read.
#[derive(Clone, Copy, Debug, PartialEq, Eq)]
pub enum QueryFault {
    /// The bytes hold no query that is accepted.
    Refused(QueryRefusal),
    /// Memory ran out.
    NoMemory,
}

impl From<QueryRefusal> for QueryFault {
    ghost from_gives = { λ r e. e ≡ Refused r };

    fn from(refusal: QueryRefusal) -> QueryFault {
        QueryFault::Refused(refusal)
    }
}

impl<T: Drop> From<AllocFailed<T>> for QueryFault {
    ghost from_gives = { λ _ e. e ≡ NoMemory };

    fn from(_error: AllocFailed<T>) -> QueryFault {
        QueryFault::NoMemory
    }
}
