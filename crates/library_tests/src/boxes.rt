//! Domains, boxes and points: one example of each call.
ghost use Rattle.std.specs.Prelude.{◌≡◌, ◌∷◌, [], ◌≤◌, ◌<◌, length, IfOk};
ghost use Rattle.domains.specs.Points.{points_of};

use domains::{Dom, Point, VarBox};
use std::alloc::{AllocError, Global};
use std::cmp::Ordering;
use std::test::Fail;

/// A domain.
fn d(lo: i32, hi: i32) -> Dom
    ensures lo { result.lo ≡ lo }
    ensures hi { result.hi ≡ hi }
{
    Dom { lo, hi }
}

/// A point of two variables.
fn pair(x: i32, y: i32) -> Point
    ensures { result ≡ x ∷ y ∷ [] }
{
    let mut point = Point::of(x);
    point.push(y);
    point
}

/// The halves of the box of these domains, if it has two points.
fn halves_of(doms: &[Dom]) -> Option<(VarBox, VarBox)>
    requires some { 0 < length doms.now }
    requires few { length doms.now ≤ 8 }
{
    let b = VarBox::new(doms);
    if b.is_empty() || b.point().is_some() {
        None
    } else {
        Some(b.split())
    }
}

/// The points of the box of these domains.
fn points_of_box(alloc: Global, doms: &[Dom]) -> Result<Vec<Point>, AllocError>
    requires some { 0 < length doms.now }
    requires few { length doms.now ≤ 8 }
    ensures { IfOk result (λ points. points.items ≡ points_of doms.now) }
{
    VarBox::new(doms).points().collect(alloc)
}

#[test]
fn makes_and_shows_boxes(rt: HostRuntime) {
    assert_eq!(rt; d(-3, 0).count(), 4);
    assert_eq!(rt; d(i32::MIN, i32::MAX).count(), 4_294_967_296);
    let b = VarBox::new(&[d(-3, 0), d(7, 7)]);
    assert_eq!(rt; (b.vars(), b.is_empty(), b.doms().len()), (2, false, 2));
    assert_eq!(rt; (b.dom(0), b.dom(2)), (Some(d(-3, 0)), None));
    assert_eq!(rt; (b.least(), b.point()), (Some(pair(-3, 7)), None));
    let one = b.with(0, d(-1, -1));
    assert_eq!(rt; one.point(), Some(pair(-1, 7)));
    assert_eq!(rt; b.with(1, d(1, 0)), VarBox::empty());
}

#[test]
fn splits_boxes(rt: HostRuntime) {
    // -7 + 2 / 2 = -6: the first half has the middle value
    let halves = Some((
        VarBox::new(&[d(3, 3), d(-7, -6)]),
        VarBox::new(&[d(3, 3), d(-5, -5)]),
    ));
    assert_eq!(rt; halves_of(&[d(3, 3), d(-7, -5)]), halves);
    assert_eq!(rt; VarBox::new(&[d(0, 1), d(10, 13), d(5, 8)]).widest(), 1);
    // 7 values in 3 strips: 0, 7 / 3 = 2, 14 / 3 = 4, 7
    let b = VarBox::new(&[d(-2, 4), d(0, 1)]);
    let n = b.strips(3);
    assert_eq!(rt; n, 3);
    assert_eq!(rt; b.strip(n - 1, n), VarBox::new(&[d(2, 4), d(0, 1)]));
}

#[test]
fn lists_and_compares_points(rt: HostRuntime) -> Result<(), Fail> {
    let points = points_of_box(rt.alloc(), &[d(-1, 0), d(5, 6)])?;
    let wanted = [pair(-1, 5), pair(-1, 6), pair(0, 5), pair(0, 6)];
    assert!(rt; points.as_slice() == &wanted[..]);
    assert_eq!(rt; pair(0, 9).cmp(&pair(1, 0)), Ordering::Less);
    let mut p = pair(4, -5);
    p.put(0, i32::MIN);
    assert_eq!(rt; (p.vars(), p.value(0), p.value(1)), (2, i32::MIN, -5));
    Ok(())
}
