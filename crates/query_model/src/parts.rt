//! The parts of queries, as plain data: clauses see them as their numbers and lists. `query_text` makes them.

/// A name of 1 to 32 bytes: an ASCII letter or `_`, and then letters, digits and `_`. The bytes after its length are 0.
#[derive(Clone, Copy, Debug, PartialEq, Eq)]
pub struct Name {
    /// How many of the bytes the name has.
    pub len: u8,
    /// The bytes of the name, and zeros after them.
    pub bytes: [u8; 32],
}

/// A factor times the value of a variable.
#[derive(Clone, Copy, Debug, PartialEq, Eq)]
pub struct Term {
    pub factor: i32,
    /// The variable's number in the query, from 0.
    pub var: u8,
}

/// A linear expression: a constant plus the first `count` terms.
#[derive(Clone, Copy, Debug, PartialEq, Eq)]
pub struct Expr {
    pub constant: i64,
    /// How many of the terms count.
    pub count: u8,
    /// The terms. After the first `count`, they have the factor 0.
    pub terms: [Term; 8],
}

/// How one number compares with another.
#[derive(Clone, Copy, Debug, PartialEq, Eq)]
pub enum Compare {
    /// At most.
    Le,
    /// Less.
    Lt,
    /// At least.
    Ge,
    /// Greater.
    Gt,
    /// Equal.
    Eq,
}

/// What is computed from the present cells of a region.
#[derive(Clone, Copy, Debug, PartialEq, Eq)]
pub enum Agg {
    /// Their total, 0 if there are none.
    Sum,
    /// The smallest, undefined if there are none.
    Min,
    /// The largest, undefined if there are none.
    Max,
    /// How many there are.
    Count,
    /// Their mean, undefined if there are none.
    Avg,
}

/// The number p / q.
#[derive(Clone, Copy, Debug, PartialEq, Eq)]
pub struct Fraction {
    /// The numerator.
    pub p: i64,
    /// The denominator, at least 1.
    pub q: i64,
}

/// A variable with its least and its greatest value. If `from` is above `to`, it has no value.
#[derive(Clone, Copy, Debug, PartialEq, Eq)]
pub struct Variable {
    /// What the variable is called in the query and in the output.
    pub name: Name,
    /// The least value.
    pub from: i32,
    /// The greatest value.
    pub to: i32,
}

/// A rectangle of cells that variables place: in each dimension the index at which it begins, and its length in cells.
/// A dimension that is not used begins at 0 and has length 1.
#[derive(Clone, Copy, Debug, PartialEq, Eq)]
pub struct Region {
    /// What the region is called in the query.
    pub name: Name,
    /// Where it begins.
    pub at: [Expr; 3],
    /// How long it is.
    pub length: [Expr; 3],
}

/// What has to hold at a solution.
#[derive(Clone, Copy, Debug, PartialEq, Eq)]
pub enum Constraint {
    /// The comparison holds of the value of the expression and a number.
    Linear {
        expr: Expr,
        compare: Compare,
        to: i64,
    },
    /// The region with this index is proper, and the comparison holds of the aggregate of its present cells and a
    /// number.
    Aggregate {
        agg: Agg,
        region: u8,
        compare: Compare,
        to: Fraction,
    },
}
