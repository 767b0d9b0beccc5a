//! Why a step of a command gives no value, and which stop each fault of a lower crate becomes.
//! Used in this crate by every function that loads or makes a file.
ghost use Rattle.std.specs.Prelude.{◌≡◌};
ghost use Rattle.search_run.specs.Stops.{stop_at_header, stop_at_cells, stop_at_query, stop_at_text, stop_for_query, stop_for_text, stop_at_opening, ending_of};

use array_file::HeaderFault;
use array_text::{TextFault, TextRefusal};
use chunk_store::CellsFault;
use query_text::{QueryFault, QueryRefusal};
use report::{Ending, Failure, Refusal};
use source_io::OpenFault;

/// Why a step of a command gives no value.
#[derive(Clone, Copy, Debug, PartialEq, Eq)]
pub enum Stop {
    /// What the step reads is refused.
    Refused(Refusal),
    /// The step failed.
    Failed(Failure),
}

impl From<Stop> for Ending {
    ghost from_gives = { λ stop ending. ending ≡ ending_of stop };

    fn from(stop: Stop) -> Ending {
        match stop {
            Stop::Refused(refusal) => Ending::Refused(refusal),
            Stop::Failed(failure) => Ending::Failed(failure),
        }
    }
}

impl From<OpenFault> for Stop {
    ghost from_gives = { λ fault stop. stop ≡ stop_at_opening fault };

    fn from(fault: OpenFault) -> Stop {
        match fault {
            OpenFault::Failed => Stop::Failed(Failure::Read),
            OpenFault::NoMemory => Stop::Failed(Failure::NoMemory),
        }
    }
}

impl From<HeaderFault> for Stop {
    ghost from_gives = { λ fault stop. stop ≡ stop_at_header fault };

    fn from(fault: HeaderFault) -> Stop {
        match fault {
            HeaderFault::Refused(refusal) => Stop::Refused(Refusal::Array(refusal)),
            HeaderFault::Read => Stop::Failed(Failure::Read),
        }
    }
}

impl From<CellsFault> for Stop {
    ghost from_gives = { λ fault stop. stop ≡ stop_at_cells fault };

    fn from(fault: CellsFault) -> Stop {
        match fault {
            CellsFault::Read => Stop::Failed(Failure::Read),
            CellsFault::NoMemory => Stop::Failed(Failure::NoMemory),
        }
    }
}

impl From<QueryRefusal> for Stop {
    ghost from_gives = { λ refusal stop. stop ≡ stop_for_query refusal };

    fn from(refusal: QueryRefusal) -> Stop {
        Stop::Refused(Refusal::Query(refusal))
    }
}

impl From<QueryFault> for Stop {
    ghost from_gives = { λ fault stop. stop ≡ stop_at_query fault };

    fn from(fault: QueryFault) -> Stop {
        match fault {
            QueryFault::Refused(refusal) => Stop::from(refusal),
            QueryFault::NoMemory => Stop::Failed(Failure::NoMemory),
        }
    }
}

impl From<TextRefusal> for Stop {
    ghost from_gives = { λ refusal stop. stop ≡ stop_for_text refusal };

    fn from(refusal: TextRefusal) -> Stop {
        Stop::Refused(Refusal::Text(refusal))
    }
}

impl From<TextFault> for Stop {
    ghost from_gives = { λ fault stop. stop ≡ stop_at_text fault };

    fn from(fault: TextFault) -> Stop {
        match fault {
            TextFault::Refused(refusal) => Stop::from(refusal),
            TextFault::NoMemory => Stop::Failed(Failure::NoMemory),
        }
    }
}
