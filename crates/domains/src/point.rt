//! Points: one value for each variable. Used for the solutions of queries and by the walk over a box.
ghost use Rattle.std.specs.Prelude.{◌≡◌, ◌<◌, ◌++◌, ◌∷◌, [], length, pos, slice_index_or, slice_set};

use std::marker::Model;

/// A value for each of at most 8 variables, in order. Clauses see the list of the values.
#[derive(Clone, Copy, Debug, PartialEq, Eq, PartialOrd, Ord)]
pub struct Point {
    at: [i32; 8],
    n: u8,
}

impl Model for Point {
    ghost use Rattle.std.specs.Prelude.{◌≡◌, ◌-◌, ◌≤◌, ◌++◌, take, length, replicate, pos, ℤ, List};
    ghost use Rattle.domains.specs.Padded.{IsPadded, padded_lem};

    ghost Value = { List ℤ };

    ghost view = { λ p. take p.n p.at };

    ghost invariant = { λ p. IsPadded (pos 0) p.n p.at };

    ghost inverse = { λ values. record { at = values ++ replicate (8 - length values) (pos 0); n = length values } };

    ghost inverse_ok = { λ p h. padded_lem (pos 0) (λ at n. record { at = at; n = n }) p.n p.at h };
}

impl Point {
    /// The point of no variables.
    pub fn empty() -> Point
        ensures { result ≡ [] }
    {
        Point { at: [0; 8], n: 0 }
    }

    /// The point of one variable with this value.
    pub fn of(value: i32) -> Point
        ensures { result ≡ value ∷ [] }
    {
        let mut point = Point::empty();
        point.push(value);
        point
    }

    /// How many variables it has.
    pub fn vars(&self) -> u8
        ensures { result ≡ length self.now }
    {
        self.n
    }

    /// The value of the variable with this number, from 0.
    pub fn value(&self, var: u8) -> i32
        requires { var < length self.now }
        ensures { result ≡ slice_index_or self.now var (pos 0) }
    {
        self.at[var as usize]
    }

    /// Gives the variable with this number another value.
    pub fn put(&mut self, var: u8, value: i32)
        requires { var < length self.old }
        ensures { self.new ≡ slice_set self.old var value }
    {
        self.at[var as usize] = value;
    }

    /// Gives one more variable this value.
    pub fn push(&mut self, value: i32)
        requires { length self.old < 8 }
        ensures { self.new ≡ self.old ++ value ∷ [] }
    {
        self.at[self.n as usize] = value;
        self.n += 1;
    }
}
