//! The rest of a text, read word by word.
//! Used in this crate by `cells`, `layout` and `read`.
ghost use Rattle.std.specs.Prelude.{◌≡◌, ◌+◌, ◌<◌, ◌≤◌, length, IfOk};
ghost use Rattle.array_text.specs.Numbers.{layout_number, cell_of};
ghost use Rattle.array_text.specs.Reads.{Shows, rest_of};
ghost use Rattle.array_text.specs.Walk.{word, this_word, level_or_cells, dimension};

use crate::TextRefusal;
use crate::bytes::{skip_blanks, split_word};
use crate::word::{leading_cell, leading_number};
use cells::Cell;

/// The rest of a text.
#[derive(Clone, Copy)]
pub(crate) struct Text<'a> {
    /// The bytes that are left.
    pub bytes: &'a [u8],
    /// The number of the next word.
    pub next: u64,
    ghost few: { next + length bytes.now ≤ 1073741825 },
}

/// Reads one word and no other.
pub(crate) fn read_word<'a>(text: Text<'a>, expected: &[u8]) -> Result<Text<'a>, TextRefusal>
    ensures { Shows (λ t. (tt, rest_of t.next t.bytes.now)) (word (this_word expected.now) (rest_of text.entry.next text.entry.bytes.now)) result }
{
    let bytes = skip_blanks(text.bytes);
    if bytes.is_empty() {
        return Err(TextRefusal::Missing { n: text.next });
    }
    let (word, after) = split_word(bytes);
    if word != expected {
        return Err(TextRefusal::Word { n: text.next });
    }
    Ok(Text {
        bytes: after,
        next: text.next + 1,
    })
}

/// Reads `level` or `cells`, and says whether it is `level`.
pub(crate) fn read_level_or_cells(text: Text<'_>) -> Result<(bool, Text<'_>), TextRefusal>
    ensures { Shows (λ r. (r.0, rest_of r.1.next r.1.bytes.now)) (word level_or_cells (rest_of text.entry.next text.entry.bytes.now)) result }
{
    let bytes = skip_blanks(text.bytes);
    if bytes.is_empty() {
        return Err(TextRefusal::Missing { n: text.next });
    }
    let (word, after) = split_word(bytes);
    let is_level = word == b"level".as_slice();
    if !is_level && word != b"cells".as_slice() {
        return Err(TextRefusal::Word { n: text.next });
    }
    let text = Text {
        bytes: after,
        next: text.next + 1,
    };
    Ok((is_level, text))
}

/// Reads a number of a layout.
pub(crate) fn read_number(text: Text<'_>) -> Result<(u32, Text<'_>), TextRefusal>
    ensures { Shows (λ r. (r.0, rest_of r.1.next r.1.bytes.now)) (word layout_number (rest_of text.entry.next text.entry.bytes.now)) result }
{
    let bytes = skip_blanks(text.bytes);
    if bytes.is_empty() {
        return Err(TextRefusal::Missing { n: text.next });
    }
    let Some((n, after)) = leading_number(bytes, u32::MAX) else {
        return Err(TextRefusal::Word { n: text.next });
    };
    let text = Text {
        bytes: after,
        next: text.next + 1,
    };
    Ok((n, text))
}

/// Reads a cell.
pub(crate) fn read_cell(text: Text<'_>) -> Result<(Cell, Text<'_>), TextRefusal>
    ensures walk { Shows (λ r. (r.0, rest_of r.1.next r.1.bytes.now)) (word cell_of (rest_of text.entry.next text.entry.bytes.now)) result }
    ensures shorter { IfOk result (λ r. length r.1.bytes.now < length text.entry.bytes.now) }
{
    let bytes = skip_blanks(text.bytes);
    if bytes.is_empty() {
        return Err(TextRefusal::Missing { n: text.next });
    }
    let Some((cell, after)) = leading_cell(bytes) else {
        return Err(TextRefusal::Word { n: text.next });
    };
    let text = Text {
        bytes: after,
        next: text.next + 1,
    };
    Ok((cell, text))
}
