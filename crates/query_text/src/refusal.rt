//! Why a query is refused. `read_query` gives it, and `search_run` prints it.
use crate::Location;

/// Why a query file is refused, and at which location.
#[derive(Clone, Copy, Debug, PartialEq, Eq)]
pub enum QueryRefusal {
    /// It has more than 2^20 bytes. `size` is how many it has.
    TooLong { size: u64 },
    /// It is not JSON.
    NotJson,
    /// A value there is missing, is of the wrong kind, or is not allowed.
    Shape { location: Location },
    /// The object there has a key that is not allowed.
    UnknownKey { location: Location },
    /// A number there is not whole, or is beyond its limits.
    Number { location: Location },
    /// A string there is not a name, not an aggregate, or not a comparison.
    Name { location: Location },
    /// A name there was used before, or an expression there has a second number or a variable twice.
    Repeated { location: Location },
    /// A string there names no variable, or no region.
    Unbound { location: Location },
    /// The `at` or `length` of a region does not have one item for each dimension of the array. `region` counts from
    /// 1, and `found` is the number of items.
    Dimensions { region: u32, found: u64 },
    /// A list there has too many items.
    TooMany { location: Location },
    /// It has more than 2^62 points.
    TooLarge,
}
