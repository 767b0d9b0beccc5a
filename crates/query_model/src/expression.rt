//! What expressions and regions are at a point. `plain_enum` tests constraints by these values.
ghost use Rattle.std.specs.Prelude.{◌≡◌, ◌≤◌, ◌^◌, length};
ghost use Rattle.query_model.specs.Value.{value_of, term_value, side_at, region_at};
ghost use Rattle.query_model.specs.Bounded.{IsBounded, IsBoundedTerm, IsBoundedRegion};
ghost use Rattle.lists.specs.Numbers.{IsWithin};

use crate::{Expr, Region, Term};
use cells::Side;
use domains::Point;

impl Term {
    /// The factor times the value of its variable.
    pub fn value(&self, p: &Point) -> i64
        requires { IsBoundedTerm (length p.now) self.now }
        ensures value { result ≡ term_value p.now self.now }
        ensures within { IsWithin result (2 ^ 51) }
    {
        self.factor as i64 * p.value(self.var) as i64
    }
}

impl Expr {
    /// The constant plus each factor times the value of its variable.
    pub fn value(&self, p: &Point) -> i64
        requires { IsBounded (length p.now) self.now }
        ensures value { result ≡ value_of self.now p.now }
        ensures within { IsWithin result (2 ^ 61) }
    {
        let mut total = self.constant;
        for t in &self.terms[..self.count as usize] {
            total += t.value(p);
        }
        total
    }
}

/// The side that begins at the value of one expression and has the value of another as its length.
fn side(at: &Expr, extent: &Expr, p: &Point) -> Side
    requires at { IsBounded (length p.now) at.now }
    requires extent { IsBounded (length p.now) extent.now }
    ensures { result ≡ side_at at.now extent.now p.now }
{
    let from = at.value(p);
    Side {
        from,
        to: from + extent.value(p),
    }
}

impl Region {
    /// Its side in each dimension at a point.
    pub fn sides(&self, p: &Point) -> [Side; 3]
        requires { IsBoundedRegion (length p.now) self.now }
        ensures { result ≡ region_at self.now p.now }
    {
        let [at, at_2, at_3] = &self.at;
        let [extent, extent_2, extent_3] = &self.length;
        [
            side(at, extent, p),
            side(at_2, extent_2, p),
            side(at_3, extent_3, p),
        ]
    }
}
