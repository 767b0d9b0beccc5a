//! Reading an array text.
//! Used by `search_run`.
ghost use Rattle.std.specs.Prelude.{◌≡◌, ℕ, ◌<◌, ◌≤◌, ◌^◌, List, length, Err, IfOk, OnOk, IfErr};
ghost use Rattle.lists.specs.Numbers.{product};
ghost use Rattle.lists.specs.Rules.{first_broken};
ghost use Rattle.layouts.specs.Rules.{layout_rules};
ghost use Rattle.array_text.specs.Reads.{Gives, Shows, rest_of};
ghost use Rattle.array_text.specs.Words.{words};
ghost use Rattle.array_text.specs.Walk as walk;
ghost use Rattle.array_text.specs.declared.fault.TextRefusal.TheVariants.{TooLong};

use crate::bytes::skip_blanks;
use crate::cell_words::read_cells;
use crate::layout::read_layout;
use crate::text::Text;
use crate::{TextFault, TextRefusal};
use cells::Cell;
use layouts::{Layout, LayoutNumbers};
use std::alloc::Global;

/// 2^30, the largest size of an array text in bytes.
const MOST_TEXT_BYTES: u64 = 1073741824;

/// What an array text states: the layout, and a cell for each place of the array, in row-major order.
#[derive(Debug, Drop)]
pub struct ArrayText {
    /// The layout.
    pub layout: Layout,
    /// The cells.
    pub cells: Vec<Cell>,
}

/// The layout with these numbers, or the first rule that they break.
fn layout_of(numbers: LayoutNumbers) -> Result<Layout, TextRefusal>
    ensures walk { Shows (λ _. tt) (walk.unless_broken (first_broken (layout_rules numbers))) result }
    ensures layout { IfOk result (λ l. l ≡ numbers) }
{
    match Layout::new(numbers) {
        Ok(layout) => Ok(layout),
        Err(refusal) => Err(TextRefusal::Layout(refusal)),
    }
}

/// Checks that no word is left.
fn check_end(text: Text<'_>) -> Result<(), TextRefusal>
    ensures { Shows (λ _. tt) (walk.end_from text.entry.next (words text.entry.bytes.now)) result }
{
    let bytes = skip_blanks(text.bytes);
    if bytes.is_empty() {
        Ok(())
    } else {
        Err(TextRefusal::Extra { n: text.next })
    }
}

/// Reads the cells of a layout, and the end after them.
#[tactic(auto, unfolding(crate::specs::Walk::array_from))]
fn read_array(alloc: Global, numbers: LayoutNumbers, text: Text<'_>) -> Result<ArrayText, TextFault>
    ensures exactly { Gives (λ a. (a.layout, a.cells.items)) (walk.array_from numbers (rest_of text.entry.next text.entry.bytes.now)) result }
    ensures count { IfOk result (λ a. length a.cells.items ≡ product a.layout.extents) }
{
    let layout = layout_of(numbers)?;
    let (cells, text) = read_cells(alloc, text, layout.cells())?;
    check_end(text)?;
    Ok(ArrayText { layout, cells })
}

/// Reads the array that a text states. The text is not too long.
#[tactic(auto, unfolding(crate::specs::Walk::read_words))]
fn read_short_text(alloc: Global, bytes: &[u8]) -> Result<ArrayText, TextFault>
    requires { length bytes.now ≤ 2 ^ 30 }
    ensures exactly { Gives (λ a. (a.layout, a.cells.items)) (walk.read_words (words bytes.now)) result }
    ensures count { IfOk result (λ a. length a.cells.items ≡ product a.layout.extents) }
{
    let text = Text { bytes, next: 1 };
    let (numbers, text) = read_layout(text)?;
    read_array(alloc, numbers, text)
}

/// Refuses the size of a text in bytes if it is too large. Such a text need not be read: whatever its bytes are, its
/// first refusal is this one.
#[tactic(auto, unfolding(crate::specs::Walk::stated_array))]
pub fn check_size(size: u64) -> Result<(), TextRefusal>
    ensures small { OnOk result (size ≤ 2 ^ 30) }
    ensures large { IfErr result (λ r. (2 ^ 30 < size) × (r ≡ TooLong size)) }
    ensures unread { IfErr result (λ r. (bytes : List ℕ) → length bytes ≡ size → walk.stated_array bytes ≡ Err r) }
{
    if size > MOST_TEXT_BYTES {
        return Err(TextRefusal::TooLong { size });
    }
    Ok(())
}

/// Reads the array that a text states: its layout, and its cells in row-major order. `Refused` exactly if the text
/// breaks a rule of array texts, with the first refusal in the order of the words. `NoMemory` if memory ran out.
#[tactic(auto, unfolding(crate::specs::Walk::stated_array))]
pub fn read_array_text(alloc: Global, bytes: &[u8]) -> Result<ArrayText, TextFault>
    ensures exactly { Gives (λ a. (a.layout, a.cells.items)) (walk.stated_array bytes.now) result }
    ensures count { IfOk result (λ a. length a.cells.items ≡ product a.layout.extents) }
{
    check_size(bytes.len() as u64)?;
    read_short_text(alloc, bytes)
}
