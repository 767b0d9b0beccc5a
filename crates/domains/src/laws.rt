//! What boxes, halves, strips and points are, in the words of the subject. Each law is the contract of a
//! function that does nothing. `query_model` calls those that its own laws and the box of a query need.

ghost use Rattle.std.specs.Prelude.{◌≡◌, ◌↔◌, ◌^◌, ◌+◌, ◌<◌, ◌≤◌, ℕ, ℤ, List, length, true, AllPairs, Contains, flat_map, filter, map, Bool, ◌++◌, IsPermutation, All};
ghost use Rattle.std.specs.Ordering.{int_cmp};
ghost use Rattle.std.specs.declared.cmp.Ordering.TheVariants.{Equal};
ghost use Rattle.std.specs.Cmp.{IsTotalOrder};
ghost use Rattle.std.specs.Cmp.Lexicographic.{slice_cmp};
ghost use Rattle.lists.specs.Numbers.{HaveSameItems};
ghost use Rattle.domains.specs.declared.dom.Dom.{Dom as DomOf};
ghost use Rattle.domains.specs.Points.{points_of, IsInBox, is_in_box, ComesBefore, AllComeBefore, point_cmp};
ghost use Rattle.domains.specs.VarBoxes.{IsBox, points_in, size_product, box_from};
ghost use Rattle.domains.specs.Splits.{SharesOut, HaveOneValueBefore, first_half, second_half, widest, measure_of, bits_for};
ghost use Rattle.domains.specs.Strips.{strip_count, strip_of, strips_of};
ghost use Rattle.domains.specs.Within.{IsBoxWithin, width_of};

use crate::Point;

/// The points of some domains are exactly those with each value within its domain.
pub fn points_are_in_box()
    ensures domains { (ds : List DomOf) (p : List ℤ) → Contains (points_of ds) p ↔ IsInBox ds p }
    ensures boxes { (b : List DomOf) (p : List ℤ) → Contains (points_in b) p ↔ (IsInBox b p × (0 < length b)) }
{}

/// The test says whether each value of a point is within its domain.
pub fn points_in_box_are_tested()
    ensures { (ds : List DomOf) (p : List ℤ) → (is_in_box ds p ≡ true) ↔ IsInBox ds p }
{}

/// There are as many points as the product of the sizes of the domains. So a caller who knows the product knows whether
/// `volume` may be called.
pub fn points_are_counted()
    ensures domains { (ds : List DomOf) → length (points_of ds) ≡ size_product ds }
    ensures boxes { (b : List DomOf) → 0 < length b → length (points_in b) ≡ size_product b }
{}

/// Each point of some domains, or of a box, has as many values as there are domains.
pub fn points_have_all_values()
    ensures domains { (ds : List DomOf) → All (λ p. length p ≡ length ds) (points_of ds) }
    ensures boxes { (b : List DomOf) → All (λ p. length p ≡ length b) (points_in b) }
{}

/// The points of a box rise strictly: each comes before all later ones, in lexicographic order with the first
/// variable first. So none is there twice.
pub fn points_rise()
    ensures domains { (ds : List DomOf) → AllPairs ComesBefore (points_of ds) }
    ensures boxes { (b : List DomOf) → AllPairs ComesBefore (points_in b) }
{}

/// The box of some domains has the points of these domains. If one of them has no value, there are none.
pub fn boxes_have_the_points_of_their_domains()
    ensures { (ds : List DomOf) → 0 < length ds → points_in (box_from ds) ≡ points_of ds }
{}

/// Lying within is an order of boxes: each lies within itself, one that lies within a second lies within all that the
/// second lies within, and two that lie within each other are equal.
pub fn boxes_are_ordered()
    ensures reflexive { (b : List DomOf) → IsBoxWithin b b }
    ensures transitive { (a b c : List DomOf) → IsBoxWithin a b → IsBoxWithin b c → IsBoxWithin a c }
    ensures antisymmetric { (a b : List DomOf) → IsBoxWithin a b → IsBoxWithin b a → a ≡ b }
{}

/// A box that lies within another is at most as wide, and as wide only if they are equal.
pub fn boxes_within_are_narrower()
    ensures narrower { (a b : List DomOf) → IsBox a → IsBoxWithin a b → width_of a ≤ width_of b }
    ensures equal { (a b : List DomOf) → IsBox a → IsBox b → IsBoxWithin a b → (width_of a ≡ width_of b) ↔ (a ≡ b) }
{}

/// A box lies within another exactly if each of its points is a point of the other. Its points are those of the other
/// that it has, in the same order.
pub fn boxes_within_have_points_within()
    ensures each { (a b : List DomOf) → IsBox a → IsBoxWithin a b ↔ ((p : List ℤ) → Contains (points_in a) p → Contains (points_in b) p) }
    ensures order { (a b : List DomOf) → IsBoxWithin a b → points_in a ≡ filter (is_in_box a) (points_in b) }
{}

/// Lists of points that are equal up to order. Appending, filtering and mapping keep this. It means that each point is in
/// both lists as often, by `==` of points. Such lists are equal if both rise strictly. A permutation of a list has its
/// points.
pub fn points_are_equal_up_to_order()
    ensures reflexive { (ps : List (List ℤ)) → HaveSameItems ps ps }
    ensures symmetric { (ps qs : List (List ℤ)) → HaveSameItems ps qs → HaveSameItems qs ps }
    ensures transitive { (ps qs rs : List (List ℤ)) → HaveSameItems ps qs → HaveSameItems qs rs → HaveSameItems ps rs }
    ensures appended { (ps qs rs ss : List (List ℤ)) → HaveSameItems ps qs → HaveSameItems rs ss → HaveSameItems (ps ++ rs) (qs ++ ss) }
    ensures filtered { (test : List ℤ → Bool) (ps qs : List (List ℤ)) → HaveSameItems ps qs → HaveSameItems (filter test ps) (filter test qs) }
    ensures mapped { (f : List ℤ → List ℤ) (ps qs : List (List ℤ)) → HaveSameItems ps qs → HaveSameItems (map f ps) (map f qs) }
    ensures counted { (ps qs : List (List ℤ)) → HaveSameItems ps qs
        ↔ ((p : List ℤ) → length (filter (⟦<Point as PartialEq>⟧.eq p) ps) ≡ length (filter (⟦<Point as PartialEq>⟧.eq p) qs)) }
    ensures rising { (ps qs : List (List ℤ)) → AllPairs ComesBefore ps → AllPairs ComesBefore qs → HaveSameItems ps qs → ps ≡ qs }
    ensures permuted { (ps qs : List (List ℤ)) → IsPermutation ps qs → HaveSameItems ps qs }
{}

/// The halves of a box share no point and lose none.
pub fn halves_share_out()
    ensures { (b : List DomOf) → IsBox b → 1 < length (points_in b)
        → SharesOut b (first_half b) (second_half b) }
{}

/// All points of the first half come before all points of the second half exactly if the box is split on the first
/// variable that has several values.
pub fn halves_in_order()
    ensures { (b : List DomOf) → IsBox b → 1 < length (points_in b)
        → AllComeBefore (points_in (first_half b)) (points_in (second_half b)) ↔ HaveOneValueBefore b (widest b) }
{}

/// Each half of a box has a point, fewer points than the box, and a smaller measure.
pub fn halves_are_smaller()
    ensures boxes { (b : List DomOf) → IsBox b → 1 < length (points_in b)
        → IsBox (first_half b) × IsBox (second_half b) }
    ensures points { (b : List DomOf) → IsBox b → 1 < length (points_in b)
        → (0 < length (points_in (first_half b))) × (0 < length (points_in (second_half b)))
        × (length (points_in (first_half b)) + length (points_in (second_half b)) ≡ length (points_in b)) }
    ensures measure { (b : List DomOf) → IsBox b → 1 < length (points_in b)
        → (measure_of (first_half b) < measure_of b) × (measure_of (second_half b) < measure_of b) }
{}

/// The measure counts for each variable the least k with at most 2^k values.
pub fn measure_is_least()
    ensures enough { (n : ℕ) → n ≤ 2 ^ bits_for n }
    ensures least { (n k : ℕ) → n ≤ 2 ^ k → bits_for n ≤ k }
{}

/// The strips of a box, one after the other, have the points of the box in their order. So they share no point and lose
/// none. Each strip of a box that is not empty has a point.
pub fn strips_share_out()
    ensures points { (b : List DomOf) (asked : ℕ) → IsBox b → 0 < asked
        → flat_map points_in (strips_of b (strip_count b asked)) ≡ points_in b }
    ensures order { (b : List DomOf) (asked i j : ℕ) → IsBox b → i < j → j < strip_count b asked
        → AllComeBefore (points_in (strip_of b i (strip_count b asked))) (points_in (strip_of b j (strip_count b asked))) }
    ensures boxes { (b : List DomOf) (asked i : ℕ) → IsBox b → i < strip_count b asked
        → IsBox (strip_of b i (strip_count b asked)) }
{}

/// Points are in a total order that agrees with `==`. For points with the same number of variables, it is the
/// lexicographic order of the values, the first variable first. For others, zeros are added after the values of the
/// shorter point, and the shorter point comes first if the values are then equal.
pub fn points_are_ordered()
    ensures rule { (p q : List ℤ) → ⟦<Point as Ord>⟧.cmp p q ≡ point_cmp p q }
    ensures total { IsTotalOrder ⟦<Point as Ord>⟧.cmp }
    ensures values { (p q : List ℤ) → length p ≡ length q → ⟦<Point as Ord>⟧.cmp p q ≡ slice_cmp int_cmp p q }
    ensures ties { (p q : List ℤ) → (⟦<Point as Ord>⟧.cmp p q ≡ Equal) ↔ (p ≡ q) }
    ensures equal { (p q : List ℤ) → (⟦<Point as PartialEq>⟧.eq p q ≡ true) ↔ (p ≡ q) }
{}
