//! What an answer is, in the words of the subject. Each law is the contract of a function that only calls other laws.
//! They say in plain words what follows from `specs/Answer` and `specs/Constraint`. No crate calls them yet.

ghost use Rattle.std.specs.Prelude.{◌≡◌, ◌<◌, ◌≤◌, ◌↔◌, ◌++◌, ℕ, pos, false, List, [], length, filter, flat_map, AllPairs, Contains};
ghost use Rattle.std.specs.List.{AllPass};
ghost use Rattle.cells.specs.Array.{Array, is_proper, present_cells};
ghost use Rattle.lists.specs.Numbers.{sum_of, count_of, HaveSameItems};
ghost use Rattle.cells.specs.declared.side.Side.{Side};
ghost use Rattle.domains.specs.declared.dom.Dom.{Dom as DomOf};
ghost use Rattle.domains.specs.Points.{Point, ComesBefore, IsInBox, is_in_box};
ghost use Rattle.domains.specs.Splits.{first_half, second_half};
ghost use Rattle.domains.specs.Strips.{strip_count, strips_of};
ghost use Rattle.domains.specs.VarBoxes.{IsBox, points_in, box_from};
ghost use Rattle.domains.specs.Within.{IsBoxWithin};
ghost use Rattle.query_model.specs.declared.query.Query.{Query};
ghost use Rattle.query_model.specs.declared.parts.Agg.{Agg};
ghost use Rattle.query_model.specs.declared.parts.Compare.{Compare};
ghost use Rattle.query_model.specs.declared.parts.Fraction.{Fraction};
ghost use Rattle.query_model.specs.Constraint.{holds, aggregate_holds, scaled};
ghost use Rattle.query_model.specs.Answer.{answer, box_of, solutions_in};

use domains::laws::{
    boxes_have_the_points_of_their_domains, boxes_within_have_points_within, halves_share_out,
    points_are_in_box, points_rise, strips_share_out,
};

/// The points of an answer rise strictly: each comes before all later ones, in lexicographic order with
/// the first variable first. So none is there twice.
pub fn answer_rises()
    ensures { (a : Array) (q : Query) → AllPairs ComesBefore (answer a q) }
{
    points_rise();
}

/// A point is in the answer exactly if it is in the box of the variables' ranges and every constraint holds at it.
/// Source: a solution satisfies all constraints (Apt, "Principles of Constraint Programming", 2003).
pub fn answer_is_all_solutions()
    ensures { (a : Array) (q : Query) (p : Point) → Contains (answer a q) p ↔ (IsInBox (box_of q) p × AllPass (holds a q p) q.constraints) }
{
    points_are_in_box();
}

/// The answer of a query is the solutions in its root, the box that `Query::root` gives.
pub fn answer_is_in_the_root()
    ensures { (a : Array) (q : Query) → 0 < length q.variables → answer a q ≡ solutions_in a q (box_from (box_of q)) }
{
    boxes_have_the_points_of_their_domains();
}

/// The empty box has no solution.
pub fn empty_box_has_no_solution()
    ensures { (a : Array) (q : Query) → solutions_in a q [] ≡ [] }
{}

/// The solutions in the two halves of a box are, up to their order, the solutions in the box.
pub fn halves_share_out_the_solutions()
    ensures { (a : Array) (q : Query) (b : List DomOf) → IsBox b → 1 < length (points_in b)
        → HaveSameItems (solutions_in a q b) (solutions_in a q (first_half b) ++ solutions_in a q (second_half b)) }
{
    halves_share_out();
}

/// The solutions in the strips of a box, one strip after the other, are the solutions in the box, in order.
pub fn strips_share_out_the_solutions()
    ensures { (a : Array) (q : Query) (b : List DomOf) (asked : ℕ) → IsBox b → 0 < asked
        → flat_map (solutions_in a q) (strips_of b (strip_count b asked)) ≡ solutions_in a q b }
{
    strips_share_out();
}

/// The solutions in a box that lies within another are those solutions in the other that the box has, in the same
/// order.
pub fn boxes_within_have_solutions_within()
    ensures { (a : Array) (q : Query) (b c : List DomOf) → IsBoxWithin b c → solutions_in a q b ≡ filter (is_in_box b) (solutions_in a q c) }
{
    boxes_within_have_points_within();
}

/// A constraint on an average holds for the same regions with equal fractions: p / q, and both numbers k times as
/// large.
pub fn averages_go_by_the_fraction()
    ensures { (a : Array) (sides : List Side) (c : Compare) (to : Fraction) (k : ℕ) → 1 ≤ k →
        aggregate_holds a sides Agg.Avg c (scaled k to) ≡ aggregate_holds a sides Agg.Avg c to }
{}

/// No aggregate constraint holds at a region that is not proper.
pub fn improper_regions_fail()
    ensures { (a : Array) (sides : List Side) (agg : Agg) (c : Compare) (to : Fraction) →
        is_proper a.extents sides ≡ false → aggregate_holds a sides agg c to ≡ false }
{}

/// If a region has no present cell, their sum and their number are 0.
pub fn nothing_sums_to_zero()
    ensures { (a : Array) (sides : List Side) → present_cells a sides ≡ [] →
        (sum_of (present_cells a sides) ≡ pos 0) × (count_of (present_cells a sides) ≡ pos 0) }
{}

/// If a region has no present cell, no constraint on its least, its greatest or its average holds.
pub fn undefined_aggregates_fail()
    ensures { (a : Array) (sides : List Side) (c : Compare) (to : Fraction) → present_cells a sides ≡ [] →
        (aggregate_holds a sides Agg.Min c to ≡ false)
        × (aggregate_holds a sides Agg.Max c to ≡ false)
        × (aggregate_holds a sides Agg.Avg c to ≡ false) }
{}
