//! Boxes: a domain for each variable. Queries give their variables as a box.
ghost use Rattle.std.specs.Prelude.{◌≡◌, ◌≤◌, ◌<◌, ◌↔◌, [], length, IsTrue, slice_get, IfSome};
ghost use Rattle.std.specs.List.{list_all};
ghost use Rattle.domains.specs.Values.{HasValue, has_value};
ghost use Rattle.domains.specs.VarBoxes.{IsBox, box_from, box_with, points_in};
ghost use Rattle.domains.specs.Points.{points_of};

use crate::{Dom, Point};
use std::marker::Model;

/// The domain at an index that no variable has.
const UNUSED: Dom = Dom { lo: 0, hi: 0 };

/// A domain with a value for each of 1 to 8 variables, or the empty box, which has no variables and no
/// points. Clauses see the list of the domains. It takes 68 bytes: pass it by reference.
#[derive(Clone, Copy, Debug, PartialEq, Eq)]
pub struct VarBox {
    doms: [Dom; 8],
    vars: u8,
}

impl Model for VarBox {
    ghost use Rattle.std.specs.Prelude.{◌≡◌, ◌-◌, ◌≤◌, ◌++◌, take, length, replicate, pos, List};
    ghost use Rattle.domains.specs.declared.dom.Dom.{Dom as DomOf};
    ghost use Rattle.domains.specs.Padded.{IsPadded, padded_lem};
    ghost use Rattle.domains.specs.VarBoxes.{HaveValues};
    ghost use Rattle.domains.specs.Splits.{no_domain};

    ghost Value = { List DomOf };

    ghost view = { λ b. take b.vars b.doms };

    ghost invariant = { λ b. IsPadded no_domain b.vars b.doms × HaveValues (take b.vars b.doms) };

    ghost inverse = { λ ds. record { doms = ds ++ replicate (8 - length ds) no_domain; vars = length ds } };

    ghost inverse_ok = { λ b h. padded_lem no_domain (λ doms vars. record { doms = doms; vars = vars }) b.vars b.doms h.0 };
}

fn have_values(doms: &[Dom]) -> bool
    ensures { result ≡ list_all has_value doms.now }
{
    doms.iter().all(|d| d.lo <= d.hi)
}

impl VarBox {
    /// The box without points.
    pub fn empty() -> VarBox
        ensures { result ≡ [] }
    {
        VarBox {
            doms: [UNUSED; 8],
            vars: 0,
        }
    }

    /// The box of these 1 to 8 domains, one for each variable, in order. If one of them has no value, it is the empty
    /// box.
    pub fn new(doms: &[Dom]) -> VarBox
        requires some { 0 < length doms.now }
        requires few { length doms.now ≤ 8 }
        ensures domains { result ≡ box_from doms.now }
        ensures points { points_in result ≡ points_of doms.now }
    {
        if !have_values(doms) {
            return VarBox::empty();
        }
        let mut all = [UNUSED; 8];
        all[..doms.len()].copy_from_slice(doms);
        VarBox {
            doms: all,
            vars: doms.len() as u8,
        }
    }

    /// Whether it has no points.
    pub fn is_empty(&self) -> bool
        ensures points { IsTrue result ↔ (points_in self.now ≡ []) }
        ensures domains { IsTrue result ↔ (self.now ≡ []) }
    {
        self.vars == 0
    }

    /// How many variables it has, 0 for the empty box.
    pub fn vars(&self) -> u8
        ensures count { result ≡ length self.now }
        ensures kept { IsBox self.now }
    {
        self.vars
    }

    /// The domains, one for each variable, in order; none for the empty box.
    pub fn doms(&self) -> &[Dom]
        ensures domains { result.now ≡ self.now }
        ensures kept { IsBox self.now }
    {
        &self.doms[..self.vars as usize]
    }

    /// The domain of the variable with this index. `None` exactly if there is no such variable, as in the empty box.
    pub fn dom(&self, v: u8) -> Option<Dom>
        ensures domain { result ≡ slice_get self.now v }
        ensures some { IfSome result HasValue }
    {
        let doms = self.doms();
        if (v as usize) < doms.len() {
            Some(doms[v as usize])
        } else {
            None
        }
    }

    /// Gives the variable with this index another domain, in place. If the domain has no value, the box is then empty.
    pub fn set(&mut self, v: u8, d: &Dom)
        requires { v < length self.old }
        ensures { self.new ≡ box_with self.old v d.now }
    {
        if d.lo <= d.hi {
            self.doms[v as usize] = *d;
        } else {
            *self = VarBox::empty();
        }
    }

    /// The box with this domain for the variable with this index. If the domain has no value, it is the empty box.
    pub fn with(&self, v: u8, d: Dom) -> VarBox
        requires { v < length self.now }
        ensures { result ≡ box_with self.now v d }
    {
        let mut changed = *self;
        changed.set(v, &d);
        changed
    }
}
