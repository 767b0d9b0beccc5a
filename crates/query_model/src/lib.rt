//! Queries as data within their limits, the values of their expressions, and what they mean. A `Query` keeps every rule
//! of a query, so a function that takes one need not test it. Nothing here takes memory.
//!
//! Definitions: `specs/QueryParts` and `specs/Rules` (the rules that a query keeps), `specs/NameForm`, `specs/Value`
//! and `specs/Bounded` (expressions and regions at a point), `specs/Constraint` (when a constraint holds),
//! `specs/Answer` (the solutions, in order), `specs/Text` (their lines). `laws` says what follows from them.
//!
//! It stands on `domains` (boxes and points), `cells` (arrays), `grids` and `lists`. `query_text`, `plain_enum` and
//! `search_run` use it.
#![tactic(auto)]

mod expression;
pub mod laws;
mod name;
mod parts;
mod query;

pub use crate::parts::{Agg, Compare, Constraint, Expr, Fraction, Name, Region, Term, Variable};
pub use crate::query::Query;
