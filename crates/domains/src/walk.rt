//! The points of a box, one after the other, for plain enumeration.
ghost use Rattle.std.specs.Prelude.{◌≡◌, ◌∷◌, [], length, MatchBool};
ghost use Rattle.std.specs.Iterator.{YieldsFirst, item_count};
ghost use Rattle.domains.specs.Points.{points_after};
ghost use Rattle.domains.specs.VarBoxes.{points_in};

use crate::volume::lowest_of;
use crate::{Point, VarBox};
use std::marker::Model;

/// The points of a box that are still to come, in lexicographic order, the first variable first. Clauses see
/// the list of them.
#[derive(Drop)]
pub struct Points {
    doms: VarBox,
    next: Point,
    more: bool,
}

impl Model for Points {
    ghost use Rattle.std.specs.Prelude.{◌≡◌, List, ℤ, length};
    ghost use Rattle.domains.specs.VarBoxes.{points_left};

    ghost Value = { List (List ℤ) };

    ghost view = { λ s. points_left s.doms s.next s.more };

    ghost invariant = { λ s. length s.next ≡ length s.doms };
}

/// Replaces a point by the next one in a box, and says whether there is one.
fn advance(b: &VarBox, p: &mut Point) -> bool
    requires { length p.old ≡ length b.now }
    ensures long { length p.new ≡ length p.old }
    ensures next { MatchBool result (points_after b.now p.old ≡ p.new ∷ points_after b.now p.new)
        (points_after b.now p.old ≡ []) }
{
    let doms = b.doms();
    let mut v = b.vars();
    while v > 0 {
        v -= 1;
        let d = &doms[v as usize];
        let x = p.value(v);
        if x < d.hi {
            p.put(v, x + 1);
            return true;
        }
        p.put(v, d.lo);
    }
    false
}

impl VarBox {
    /// Its points, in lexicographic order, the first variable first.
    pub fn points(&self) -> Points
        ensures { result ≡ points_in self.now }
    {
        Points {
            doms: *self,
            next: lowest_of(self),
            more: self.vars() > 0,
        }
    }
}

impl Iterator for Points {
    type Item = Point;

    ghost next_gives = { YieldsFirst (λ s. s) };

    ghost remaining = { item_count (λ s. s) };

    fn next(&mut self) -> Option<Point> {
        if !self.more {
            return None;
        }
        let point = self.next;
        self.more = advance(&self.doms, &mut self.next);
        Some(point)
    }
}
