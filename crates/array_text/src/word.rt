//! The number or the cell that a word writes. It is read while the word is scanned.
//! Used in this crate by `text`.
ghost use Rattle.std.specs.Prelude.{◌≡◌, ◌+◌, ◌<◌, ◌≤◌, ◌∷◌, length, drop, option_map, IfSome, MatchOption};
ghost use Rattle.array_text.specs.Words.{first_word, after_word};
ghost use Rattle.array_text.specs.Numbers.{digit_of, number_written, number_up_to, digits_from, cell_of, positive_cell};
ghost use Rattle.array_text.specs.Reads.{leading};

use crate::bytes::is_blank;
use cells::{Cell, EMPTY};

/// The greatest number of digits of a number.
const MOST_DIGITS: usize = 10;

/// The greatest absolute value of a cell's number.
const MOST_CELL: u32 = 2147483647;

/// The number that the first word writes, if it writes one that is at most `most`, and the bytes after the word.
pub(crate) fn leading_number(bytes: &[u8], most: u32) -> Option<(u32, &[u8])>
    ensures number { option_map (λ r. (r.0, r.1.now)) result ≡ leading (number_up_to most) bytes.now }
    ensures few { IfSome result (λ r. r.0 ≤ most) }
    ensures shorter { IfSome result (λ r. length r.1.now < length bytes.now) }
{
    let Some((value, count)) = leading_digits(bytes) else {
        return None;
    };
    if count == 0 {
        return None;
    }
    if value > u64::from(most) {
        return None;
    }
    Some((value as u32, &bytes[count..]))
}

/// The value of a digit.
fn digit(b: u8) -> Option<u8>
    ensures digit { result ≡ digit_of b }
    ensures few { IfSome result (λ d. d < 10) }
{
    if b.is_ascii_digit() {
        Some(b - b'0')
    } else {
        None
    }
}

/// The number that the first word writes with up to ten digits, and how many digits these are.
fn leading_digits(bytes: &[u8]) -> Option<(u64, usize)>
    ensures digits { MatchOption result (number_written (first_word bytes.now) ≡ None)
        (λ r. digits_from 0 (first_word bytes.now) ≡ Some r.0) }
    ensures count { IfSome result (λ r. r.1 ≡ length (first_word bytes.now)) }
    ensures few { IfSome result (λ r. r.1 ≤ 10) }
    ensures fits { IfSome result (λ r. r.1 ≤ length bytes.now) }
    ensures after { IfSome result (λ r. after_word bytes.now ≡ drop r.1 bytes.now) }
{
    let mut value = 0;
    for (i, b) in bytes.iter().enumerate() {
        if is_blank(*b) {
            return Some((value, i));
        }
        if i == MOST_DIGITS {
            return None;
        }
        let Some(d) = digit(*b) else {
            return None;
        };
        value = 10 * value + u64::from(d);
    }
    Some((value, bytes.len()))
}

/// The cell that the first word writes, if it writes one, and the bytes after the word.
pub(crate) fn leading_cell(bytes: &[u8]) -> Option<(Cell, &[u8])>
    ensures cell { option_map (λ r. (r.0, r.1.now)) result ≡ leading cell_of bytes.now }
    ensures shorter { IfSome result (λ r. length r.1.now < length bytes.now) }
{
    let Some((first, rest)) = bytes.split_first() else {
        return None;
    };
    if *first == b'.' {
        leading_empty(rest)
    } else if *first == b'-' {
        leading_negative(rest)
    } else {
        leading_positive(bytes)
    }
}

/// The empty cell, if the word that began with `.` ends before these bytes, and these bytes.
fn leading_empty(rest: &[u8]) -> Option<(Cell, &[u8])>
    ensures cell { option_map (λ r. (r.0, r.1.now)) result ≡ leading cell_of (46 ∷ rest.now) }
    ensures shorter { IfSome result (λ r. length r.1.now ≤ length rest.now) }
{
    let Some((b, _)) = rest.split_first() else {
        return Some((EMPTY, rest));
    };
    if is_blank(*b) {
        Some((EMPTY, rest))
    } else {
        None
    }
}

/// The cell below 0 whose word began with `-` and continues here, and the bytes after the word.
fn leading_negative(rest: &[u8]) -> Option<(Cell, &[u8])>
    ensures cell { option_map (λ r. (r.0, r.1.now)) result ≡ leading cell_of (45 ∷ rest.now) }
    ensures shorter { IfSome result (λ r. length r.1.now ≤ length rest.now) }
{
    let Some((n, after)) = leading_number(rest, MOST_CELL) else {
        return None;
    };
    Some((Cell(-(n as i32)), after))
}

/// The cell that the digits of the first word write, and the bytes after the word.
fn leading_positive(bytes: &[u8]) -> Option<(Cell, &[u8])>
    ensures cell { option_map (λ r. (r.0, r.1.now)) result ≡ leading positive_cell bytes.now }
    ensures shorter { IfSome result (λ r. length r.1.now < length bytes.now) }
{
    let Some((n, after)) = leading_number(bytes, MOST_CELL) else {
        return None;
    };
    Some((Cell(n as i32), after))
}
