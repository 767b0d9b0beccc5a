//! The cells of a text.
//! Used in this crate by `read`.
ghost use Rattle.std.specs.Prelude.{◌≡◌, [], length, IfOk};
ghost use Rattle.array_text.specs.Reads.{Gives, rest_of};
ghost use Rattle.array_text.specs.Walk.{cells_from};

use crate::TextFault;
use crate::text::{Text, read_cell};
use cells::Cell;
use std::alloc::Global;

/// Reads this many cells.
pub(crate) fn read_cells(
    alloc: Global,
    text: Text<'_>,
    count: u32,
) -> Result<(Vec<Cell>, Text<'_>), TextFault>
    ensures walk { Gives (λ r. (r.0.items, rest_of r.1.next r.1.bytes.now)) (cells_from count [] (rest_of text.entry.next text.entry.bytes.now)) result }
    ensures count { IfOk result (λ r. length r.0.items ≡ count) }
{
    let room = text.bytes.len().min(count as usize);
    let Ok(mut cells) = Vec::with_capacity(alloc, room) else {
        return Err(TextFault::NoMemory);
    };
    let mut text = text;
    for _ in 0..count {
        match read_cell(text) {
            Err(refusal) => return Err(TextFault::Refused(refusal)),
            Ok((cell, after)) => {
                cells.push_reserved(cell);
                text = after;
            }
        }
    }
    Ok((cells, text))
}
