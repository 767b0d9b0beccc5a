//! Queries, which keep every rule of a query. `query_text` makes them, and every search takes one.
ghost use Rattle.std.specs.Prelude.{◌≡◌, All, length};
ghost use Rattle.domains.specs.VarBoxes.{box_from, points_in};
ghost use Rattle.domains.specs.Points.{points_of};
ghost use Rattle.query_model.specs.Answer.{box_of, domain_of};
ghost use Rattle.query_model.specs.Rules.{IsQuery};

use crate::{Constraint, Region, Variable};
use domains::laws::points_have_all_values;
use domains::{Dom, VarBox};
use std::marker::Model;

impl Variable {
    /// Its range as a domain.
    pub fn domain(&self) -> Dom
        ensures { result ≡ domain_of self.now }
    {
        Dom {
            lo: self.from,
            hi: self.to,
        }
    }
}

/// A query: what is searched for on arrays of one rank. Clauses see its rank and its three lists. Its type keeps every
/// limit and every rule of a query (`IsQuery`).
#[derive(Drop)]
pub struct Query {
    rank: u8,
    variables: Vec<Variable>,
    regions: Vec<Region>,
    constraints: Vec<Constraint>,
}

impl Model for Query {
    ghost use Rattle.query_model.specs.QueryParts.{QueryParts};
    ghost use Rattle.query_model.specs.Rules.{IsQuery};

    ghost Value = { QueryParts };

    ghost view = { λ q. record { rank = q.rank; variables = q.variables.items; regions = q.regions.items; constraints = q.constraints.items } };

    ghost invariant = { λ q. IsQuery (record { rank = q.rank; variables = q.variables.items; regions = q.regions.items; constraints = q.constraints.items }) };
}

impl Query {
    /// A query of these parts.
    pub fn new(
        rank: u8,
        variables: Vec<Variable>,
        regions: Vec<Region>,
        constraints: Vec<Constraint>,
    ) -> Query
        requires { IsQuery (record { rank = rank; variables = variables.items; regions = regions.items; constraints = constraints.items }) }
        ensures { result ≡ record { rank = rank; variables = variables.items; regions = regions.items; constraints = constraints.items } }
    {
        Query {
            rank,
            variables,
            regions,
            constraints,
        }
    }

    /// The rank of the arrays that it is for, 1 to 3.
    pub fn rank(&self) -> u8
        ensures rank { result ≡ self.now.rank }
        ensures rules { IsQuery self.now }
    {
        self.rank
    }

    /// Its variables, 1 to 8, in the order of a point's values.
    pub fn variables(&self) -> &[Variable]
        ensures variables { result.now ≡ self.now.variables }
        ensures rules { IsQuery self.now }
    {
        self.variables.as_slice()
    }

    /// Its regions, at most 16. Constraints name them by their indices.
    pub fn regions(&self) -> &[Region]
        ensures regions { result.now ≡ self.now.regions }
        ensures rules { IsQuery self.now }
    {
        self.regions.as_slice()
    }

    /// Its constraints, at most 64.
    pub fn constraints(&self) -> &[Constraint]
        ensures constraints { result.now ≡ self.now.constraints }
        ensures rules { IsQuery self.now }
    {
        self.constraints.as_slice()
    }

    /// The box of the variables' ranges. If some range has no value, it is the empty box. Each of its points has a
    /// value for each variable.
    pub fn root(&self) -> VarBox
        ensures domains { result ≡ box_from (box_of self.now) }
        ensures points { points_in result ≡ points_of (box_of self.now) }
        ensures values { All (λ p. length p ≡ length self.now.variables) (points_in result) }
    {
        points_have_all_values();
        let mut doms = [Dom { lo: 0, hi: 0 }; 8];
        let count = self.variables.len();
        for i in 0..count {
            doms[i] = self.variables[i].domain();
        }
        VarBox::new(&doms[..count])
    }
}
