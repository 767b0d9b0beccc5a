//! The halves of a box, for a search that splits boxes.
ghost use Rattle.std.specs.Prelude.{◌≡◌, ◌<◌, length, ◌<ℤ◌};
ghost use Rattle.domains.specs.VarBoxes.{points_in};
ghost use Rattle.domains.specs.Splits.{widest, lower_half, upper_half, first_half, second_half};

use crate::{Dom, VarBox};

/// The values up to the middle, and those above it.
fn halves(d: &Dom) -> (Dom, Dom)
    requires { d.now.lo <ℤ d.now.hi }
    ensures lower { result.0 ≡ lower_half d.now }
    ensures upper { result.1 ≡ upper_half d.now }
{
    let middle = d.lo + (d.hi.abs_diff(d.lo) / 2) as i32;
    (
        Dom {
            lo: d.lo,
            hi: middle,
        },
        Dom {
            lo: middle + 1,
            hi: d.hi,
        },
    )
}

impl VarBox {
    /// The index of the variable on which it is split: the first one whose domain has the most values.
    pub fn widest(&self) -> u8
        requires { 0 < length self.now }
        ensures { result ≡ widest self.now }
    {
        let doms = self.doms();
        let mut best: u8 = 0;
        let mut most = doms[0].count();
        for v in 1..self.vars() {
            let here = doms[v as usize].count();
            if most < here {
                most = here;
                best = v;
            }
        }
        best
    }

    /// Keeps its first half, and puts its second half into another box, whatever that box held. This is `split` in
    /// place, with one copy of the box.
    pub fn cut(&mut self, second: &mut VarBox)
        requires { 1 < length (points_in self.old) }
        ensures first { self.new ≡ first_half self.old }
        ensures second { second.new ≡ second_half self.old }
    {
        let v = self.widest();
        let (lower, upper) = halves(&self.doms()[v as usize]);
        *second = *self;
        second.set(v, &upper);
        self.set(v, &lower);
    }

    /// Its first and its second half. They divide the domain of the first variable that has the most values: the first
    /// half has the values up to the middle, and the second half those above it (domain splitting: Apt, "Principles of
    /// Constraint Programming", 2003).
    pub fn split(&self) -> (VarBox, VarBox)
        requires { 1 < length (points_in self.now) }
        ensures first { result.0 ≡ first_half self.now }
        ensures second { result.1 ≡ second_half self.now }
    {
        let mut first = *self;
        let mut second = *self;
        first.cut(&mut second);
        (first, second)
    }
}
