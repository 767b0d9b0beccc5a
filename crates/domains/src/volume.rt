//! How many points a box has, its lowest corner, and its one point. `walk` begins at the lowest corner.
ghost use Rattle.std.specs.Prelude.{◌≡◌, ◌≢◌, ◌<◌, ◌^◌, ◌∷◌, [], length, slice_get, IfSome, MatchOption};
ghost use Rattle.std.specs.List.{list_all};
ghost use Rattle.domains.specs.Values.{has_one_value};
ghost use Rattle.domains.specs.VarBoxes.{points_in, lowest};

use crate::{Dom, Point, VarBox};

/// Whether no domain has two values.
fn have_one_value(doms: &[Dom]) -> bool
    ensures { result ≡ list_all has_one_value doms.now }
{
    doms.iter().all(|d| d.hi <= d.lo)
}

/// The least value of each variable.
pub(crate) fn lowest_of(b: &VarBox) -> Point
    ensures { result ≡ lowest b.now }
{
    let mut corner = Point::empty();
    for d in b.doms() {
        corner.push(d.lo);
    }
    corner
}

impl VarBox {
    /// The number of its points, if they are fewer than 2^128.
    pub fn volume(&self) -> u128
        requires { length (points_in self.now) < 2 ^ 128 }
        ensures { result ≡ length (points_in self.now) }
    {
        if self.vars() == 0 {
            return 0;
        }
        let mut points: u128 = 1;
        for d in self.doms() {
            points *= u128::from(d.count());
        }
        points
    }

    /// Its lowest corner, which is the first of its points. `None` exactly if it is empty.
    pub fn least(&self) -> Option<Point>
        ensures first { result ≡ slice_get (points_in self.now) 0 }
        ensures corner { IfSome result (λ p. p ≡ lowest self.now) }
    {
        if self.vars() == 0 {
            return None;
        }
        Some(lowest_of(self))
    }

    /// Its point, if it has exactly one, and otherwise `None`.
    pub fn point(&self) -> Option<Point>
        ensures { MatchOption result (length (points_in self.now) ≢ 1)
            (λ p. points_in self.now ≡ p ∷ []) }
    {
        if have_one_value(self.doms()) {
            self.least()
        } else {
            None
        }
    }
}
