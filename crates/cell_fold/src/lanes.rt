//! The record of many cells, eight at a time, in lanes.
//! Used in this crate by `region`.
ghost use Rattle.std.specs.Prelude.{◌≡◌, ◌≤◌, ◌<◌, ◌+◌, ◌-◌, ◌*◌, ◌%◌, ◌^◌, ◌+ℤ◌, pos, List, [], ℕ, ◌++◌, max, min, length, map, filter_map, FitsSigned, IfSome, IfNone};
ghost use Rattle.std.specs.Int.{w32};
ghost use Rattle.std.specs.Simd.Lanes.{zip2, sum_l, Each1};
ghost use Rattle.cells.specs.Cells.{cell_value};
ghost use Rattle.cell_fold.specs.Lanes.{biased, cells_of_eights, lowered, upper_half, greatest_of_lanes, least_of_lanes, AddsUp, SumsUp, SumsUpPresent};
ghost use Rattle.cell_fold.specs.declared.lanes.TheConstants.{MOST};
ghost use Rattle.lists.specs.Numbers.{IsWithin};
ghost use Rattle.cells.specs.Records.{record_of};

use crate::fold;
use cells::{Cell, NOTHING, Record, merge};
use std::simd::prelude::*;

/// The number of cells of a block. They take 2 KiB, which fit in the processor's nearest cache.
const BLOCK: usize = 512;

/// The largest number of cells that are folded at a time after the first empty one: as many as a `LaneSum` can add up.
const MOST: usize = 65536;

/// The record of these cells, at most 2^26, as `fold` gives it, in eight lanes. As long as no cell was empty, it goes
/// block by block, and assumes that the next block has no empty cell either, which takes fewer steps. A block that has
/// one is folded again with all steps, and so are the cells after it.
pub fn fold_lanes(cells: &[Cell]) -> Record
    requires { length cells.now ≤ 2 ^ 26 }
    ensures record { result ≡ record_of (filter_map cell_value cells.now) }
    ensures few { result.count ≤ length cells.now }
    ensures each { IsWithin result.sum (2 ^ 31 * result.count) }
    ensures within { IsWithin result.sum (2 ^ 57) }
{
    let mut all = NOTHING;
    let mut done = 0;
    while done < cells.len() {
        let present = all.count as usize == done;
        let most = if present { BLOCK } else { MOST };
        let n = most.min(cells.len() - done);
        let one = part_record(&cells[done..done + n], present && done > 0);
        all = merge(all, one);
        done += n;
    }
    all
}

/// The record of these cells. If `present`, it first tries whether none of them is empty. Fewer than 24 cells are left
/// to `fold`, since lanes are slower for them.
fn part_record(cells: &[Cell], present: bool) -> Record
    requires { length cells.now ≤ MOST }
    ensures record { result ≡ record_of (filter_map cell_value cells.now) }
    ensures few { result.count ≤ length cells.now }
    ensures each { IsWithin result.sum (2 ^ 31 * result.count) }
{
    if cells.len() < 24 {
        fold(cells)
    } else {
        let (eights, rest) = cells.as_chunks::<8>();
        merge(eights_record(eights, present), fold(rest))
    }
}

/// The sum of at most 2^16 numbers of 32 bits, in eight lanes: the lower 32 bits of the sum, and the sum of the
/// numbers' upper halves. 2^16 times the second is less than 2^32 below the whole sum, so the two determine it.
#[derive(Clone, Copy)]
struct LaneSum {
    low: u32x8,
    halves: u32x8,
}

impl LaneSum {
    /// The sum of no numbers.
    fn new() -> LaneSum
        ensures value { AddsUp result [] }
        ensures halves { sum_l result.halves ≡ 0 }
    {
        LaneSum {
            low: u32x8::splat(0),
            halves: u32x8::splat(0),
        }
    }

    /// The sum with eight more numbers.
    fn with(self, eight: u32x8) -> LaneSum
        requires { sum_l self.halves + 8 * (2 ^ 16 - 1) < 2 ^ 32 }
        ensures value { (ns : List ℕ) → AddsUp self ns → AddsUp result (ns ++ eight) }
        ensures halves { sum_l result.halves ≤ sum_l self.halves + 8 * (2 ^ 16 - 1) }
    {
        LaneSum {
            low: added_wrapping(self.low, eight),
            halves: added(self.halves, upper_half(eight)),
        }
    }

    /// The whole sum.
    fn total(self) -> u64
        requires { sum_l self.halves < 2 ^ 32 }
        ensures value { (ns : List ℕ) → AddsUp self ns → length ns ≤ 2 ^ 16 → result ≡ sum_l ns }
        ensures within { result < 2 ^ 49 }
    {
        let halves = total(self.halves);
        halves as u64 * 65536
            + total_wrapping(self.low).wrapping_sub(halves.wrapping_mul(65536)) as u64
    }
}

/// The sums of biased cells in eight lanes: the least of the cells lowered by one, the greatest cell, how many cells
/// are not 0, and their sum.
#[derive(Clone, Copy)]
struct Lanes {
    least: u32x8,
    greatest: u32x8,
    count: u32x8,
    sum: LaneSum,
}

impl Lanes {
    /// The lanes of no cells.
    fn new() -> Lanes
        ensures value { SumsUp result [] }
        ensures count { sum_l result.count ≡ 0 }
        ensures halves { sum_l result.sum.halves ≡ 0 }
    {
        Lanes {
            least: u32x8::splat(u32::MAX),
            greatest: u32x8::splat(0),
            count: u32x8::splat(0),
            sum: LaneSum::new(),
        }
    }

    /// The lanes with eight more biased cells.
    fn with(self, eight: u32x8) -> Lanes
        requires count { sum_l self.count + 8 < 2 ^ 32 }
        requires halves { sum_l self.sum.halves + 8 * (2 ^ 16 - 1) < 2 ^ 32 }
        ensures value { (ns : List ℕ) → SumsUp self ns → SumsUp result (ns ++ eight) }
        ensures count { sum_l result.count ≤ sum_l self.count + 8 }
        ensures halves { sum_l result.sum.halves ≤ sum_l self.sum.halves + 8 * (2 ^ 16 - 1) }
    {
        Lanes {
            least: smaller(self.least, lowered(eight)),
            greatest: larger(self.greatest, eight),
            count: added(self.count, smaller(eight, u32x8::splat(1))),
            sum: self.sum.with(eight),
        }
    }
}

/// The record of the cells of these eights, at most 2^13. If `present`, it first tries whether none of them is empty.
fn eights_record(eights: &[[Cell; 8]], present: bool) -> Record
    requires some { 0 < length eights.now }
    requires few { length eights.now ≤ 2 ^ 13 }
    ensures record { result ≡ record_of (filter_map cell_value (cells_of_eights eights.now)) }
    ensures few { result.count ≤ 8 * length eights.now }
    ensures each { IsWithin result.sum (2 ^ 31 * result.count) }
{
    let of_present = if present {
        present_record(eights)
    } else {
        None
    };
    match of_present {
        Some(record) => record,
        None => mixed_record(eights),
    }
}

/// The record of the cells of these eights, at most 2^13, or `None` exactly if one of them is empty.
fn present_record(eights: &[[Cell; 8]]) -> Option<Record>
    requires some { 0 < length eights.now }
    requires few { length eights.now ≤ 2 ^ 13 }
    ensures record { IfSome result (λ r. r ≡ record_of (filter_map cell_value (cells_of_eights eights.now))) }
    ensures count { IfSome result (λ r. r.count ≡ 8 * length eights.now) }
    ensures each { IfSome result (λ r. IsWithin r.sum (2 ^ 31 * r.count)) }
    ensures none { IfNone result (least_of_lanes (map biased (cells_of_eights eights.now)) ≡ 0) }
{
    let all = present_lanes(eights);
    let least = least_of_lanes(&all.least.to_array());
    if least == 0 {
        return None;
    }
    let count = 8 * eights.len() as u32;
    Some(Record {
        least: number(least),
        greatest: number(greatest_of_lanes(&all.greatest.to_array())),
        sum: unbiased_sum(all.sum.total(), count),
        count,
    })
}

/// The record of the cells of these eights, at most 2^13.
fn mixed_record(eights: &[[Cell; 8]]) -> Record
    requires { length eights.now ≤ 2 ^ 13 }
    ensures record { result ≡ record_of (filter_map cell_value (cells_of_eights eights.now)) }
    ensures few { result.count ≤ 8 * length eights.now }
    ensures each { IsWithin result.sum (2 ^ 31 * result.count) }
{
    let all = eights_lanes(eights);
    let count = total(all.count);
    if count == 0 {
        NOTHING
    } else {
        Record {
            least: number(least_of_lanes(&all.least.to_array()) + 1),
            greatest: number(greatest_of_lanes(&all.greatest.to_array())),
            sum: unbiased_sum(all.sum.total(), count),
            count,
        }
    }
}

/// The sums of biased cells none of which is empty, in eight lanes: the least, the greatest and the sum.
#[derive(Clone, Copy)]
struct PresentLanes {
    least: u32x8,
    greatest: u32x8,
    sum: LaneSum,
}

impl PresentLanes {
    /// The lanes of no cells.
    fn new() -> PresentLanes
        ensures value { SumsUpPresent result [] }
        ensures halves { sum_l result.sum.halves ≡ 0 }
    {
        PresentLanes {
            least: u32x8::splat(u32::MAX),
            greatest: u32x8::splat(0),
            sum: LaneSum::new(),
        }
    }

    /// The lanes with eight more biased cells.
    fn with(self, eight: u32x8) -> PresentLanes
        requires { sum_l self.sum.halves + 8 * (2 ^ 16 - 1) < 2 ^ 32 }
        ensures value { (ns : List ℕ) → SumsUpPresent self ns → SumsUpPresent result (ns ++ eight) }
        ensures halves { sum_l result.sum.halves ≤ sum_l self.sum.halves + 8 * (2 ^ 16 - 1) }
    {
        PresentLanes {
            least: smaller(self.least, eight),
            greatest: larger(self.greatest, eight),
            sum: self.sum.with(eight),
        }
    }
}

/// The lanes of the cells of these eights, at most 2^13, as if none of them were empty.
fn present_lanes(eights: &[[Cell; 8]]) -> PresentLanes
    requires { length eights.now ≤ 2 ^ 13 }
    ensures value { SumsUpPresent result (map biased (cells_of_eights eights.now)) }
    ensures fits { Each1 (λ c. FitsSigned w32 c.0) (cells_of_eights eights.now) }
    ensures halves { sum_l result.sum.halves ≤ 8 * (2 ^ 16 - 1) * length eights.now }
{
    let mut all = PresentLanes::new();
    for eight in eights {
        all = all.with(biased_of(eight));
    }
    all
}

/// The lanes of the cells of these eights, at most 2^13.
fn eights_lanes(eights: &[[Cell; 8]]) -> Lanes
    requires { length eights.now ≤ 2 ^ 13 }
    ensures value { SumsUp result (map biased (cells_of_eights eights.now)) }
    ensures fits { Each1 (λ c. FitsSigned w32 c.0) (cells_of_eights eights.now) }
    ensures count { sum_l result.count ≤ 8 * length eights.now }
    ensures halves { sum_l result.sum.halves ≤ 8 * (2 ^ 16 - 1) * length eights.now }
{
    let mut all = Lanes::new();
    for eight in eights {
        all = all.with(biased_of(eight));
    }
    all
}

/// How far a cell is above -2^31, so that an empty cell is 0: its bits with the top bit flipped.
fn biased(c: Cell) -> u32
    ensures value { result ≡ biased c }
    ensures fits { FitsSigned w32 c.0 }
{
    c.0.cast_unsigned().wrapping_add(2147483648)
}

/// The number of the cell that is this far above -2^31.
fn number(n: u32) -> i32
    ensures { result +ℤ pos (2 ^ 31) ≡ pos n }
{
    n.wrapping_sub(2147483648).cast_signed()
}

/// Eight cells, biased.
fn biased_of(cells: &[Cell; 8]) -> u32x8
    ensures value { result ≡ map biased cells.now }
    ensures fits { Each1 (λ c. FitsSigned w32 c.0) cells.now }
{
    u32x8::from_array([
        biased(cells[0]),
        biased(cells[1]),
        biased(cells[2]),
        biased(cells[3]),
        biased(cells[4]),
        biased(cells[5]),
        biased(cells[6]),
        biased(cells[7]),
    ])
}

/// The larger number in each lane.
fn larger(a: u32x8, b: u32x8) -> u32x8
    ensures { greatest_of_lanes result ≡ max (greatest_of_lanes a) (greatest_of_lanes b) }
{
    a.simd_lt(b).select(b, a)
}

/// The smaller number in each lane.
fn smaller(a: u32x8, b: u32x8) -> u32x8
    ensures lanes { result ≡ zip2 min a b }
    ensures least_of_lanes { least_of_lanes result ≡ min (least_of_lanes a) (least_of_lanes b) }
{
    a.simd_lt(b).select(a, b)
}

/// One less in each lane; 2^32 - 1 in place of one less than 0.
fn lowered(a: u32x8) -> u32x8
    ensures { result ≡ map lowered a }
{
    a - u32x8::splat(1)
}

/// The sum in each lane.
fn added(a: u32x8, b: u32x8) -> u32x8
    requires { sum_l a + sum_l b < 2 ^ 32 }
    ensures { sum_l result ≡ sum_l a + sum_l b }
{
    a.strict_add(b)
}

/// The sum in each lane, modulo 2^32.
fn added_wrapping(a: u32x8, b: u32x8) -> u32x8
    ensures { sum_l result % 2 ^ 32 ≡ (sum_l a + sum_l b) % 2 ^ 32 }
{
    a + b
}

/// The upper half of the bits in each lane, as a number.
fn upper_half(a: u32x8) -> u32x8
    ensures { result ≡ map upper_half a }
{
    a >> u32x8::splat(16)
}

/// The sum of all lanes, modulo 2^32.
fn total_wrapping(a: u32x8) -> u32
    ensures { result ≡ sum_l a % 2 ^ 32 }
{
    a.reduce_sum()
}

/// The sum of all lanes.
fn total(a: u32x8) -> u32
    requires { sum_l a < 2 ^ 32 }
    ensures { result ≡ sum_l a }
{
    a.strict_reduce_sum()
}

/// The sum of `count` numbers, if `sum` is the sum of these numbers biased.
fn unbiased_sum(sum: u64, count: u32) -> i64
    requires { sum < 2 ^ 63 }
    ensures { result +ℤ pos (2 ^ 31 * count) ≡ pos sum }
{
    sum as i64 - count as i64 * 2147483648
}

/// The largest number, 0 if there is none.
fn greatest_of_lanes(numbers: &[u32]) -> u32
    ensures { result ≡ greatest_of_lanes numbers.now }
{
    let mut all = 0;
    for n in numbers {
        if *n > all {
            all = *n;
        }
    }
    all
}

/// The smallest number, 2^32 - 1 if there is none.
fn least_of_lanes(numbers: &[u32]) -> u32
    ensures { result ≡ least_of_lanes numbers.now }
{
    let mut all = u32::MAX;
    for n in numbers {
        if *n < all {
            all = *n;
        }
    }
    all
}
