//! The part of an expression that was read so far. `expression` uses it.
ghost use Rattle.std.specs.Prelude.{◌≡◌, ◌<◌, ◌^◌, ℕ, length};
ghost use Rattle.lists.specs.Numbers.{IsWithin};
ghost use Rattle.query_model.specs.Rules.{IsExpr, constant_expr};
ghost use Rattle.query_text.specs.Sums.{empty_sum, with_constant, with_term, has_term, expr_of};

use query_model::{Expr, Term};
use std::marker::Model;

const NO_TERM: Term = Term { factor: 0, var: 0 };

/// A whole number as an expression.
pub fn constant(n: i64) -> Expr
    requires { IsWithin n (2 ^ 31) }
    ensures constant { result ≡ constant_expr n }
    ensures rules { (n : ℕ) → IsExpr n result }
{
    Expr {
        constant: n,
        count: 0,
        terms: [NO_TERM; 8],
    }
}

/// A constant, if one was read, and up to 8 terms, in the order in which they were read.
#[derive(Drop)]
pub struct Sum {
    constant: Option<i64>,
    count: u8,
    terms: [Term; 8],
}

impl Model for Sum {
    ghost use Rattle.std.specs.Prelude.{◌≡◌, ◌-◌, ◌≤◌, length, take, drop, replicate};
    ghost use Rattle.query_model.specs.Rules.{no_term};
    ghost use Rattle.query_text.specs.Sums.{SumParts};

    ghost Value = { SumParts };

    ghost view = { λ s. record { constant = s.constant; terms = take s.count s.terms } };

    ghost invariant = { λ s. (s.count ≤ 8) × (length s.terms ≡ 8) × (drop s.count s.terms ≡ replicate (8 - s.count) no_term) };
}

impl Sum {
    pub fn new() -> Sum
        ensures { result ≡ empty_sum }
    {
        Sum {
            constant: None,
            count: 0,
            terms: [NO_TERM; 8],
        }
    }

    pub fn constant(&self) -> Option<i64>
        ensures { result ≡ self.now.constant }
    {
        self.constant
    }

    /// Whether there is a term of this variable.
    pub fn has_term(&self, var: u8) -> bool
        ensures { result ≡ has_term var self.now }
    {
        self.terms[..self.count as usize]
            .iter()
            .any(|t| t.var == var)
    }

    pub fn set_constant(&mut self, constant: i64)
        ensures { self.new ≡ with_constant constant self.old }
    {
        self.constant = Some(constant);
    }

    /// Appends a term.
    pub fn push(&mut self, term: Term)
        requires { length self.old.terms < 8 }
        ensures { self.new ≡ with_term term self.old }
    {
        self.terms[self.count as usize] = term;
        self.count += 1;
    }

    /// The sum as an expression. A constant that was not read is 0.
    pub fn expr(&self) -> Expr
        ensures { result ≡ expr_of self.now }
    {
        Expr {
            constant: self.constant.unwrap_or(0),
            count: self.count,
            terms: self.terms,
        }
    }
}
