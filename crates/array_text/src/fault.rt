//! Why an array text is not read.
//! Used in this crate by `cells`, `layout`, `read` and `text`, and by `search_run`.
ghost use Rattle.std.specs.Prelude.{◌≡◌};
ghost use Rattle.array_text.specs.declared.fault.TextFault.TheVariants.{Refused};

use layouts::LayoutRefusal;

/// Why the words of a text do not state an array: the first fault of the words, in their order. `docs/ARRAY-TEXT.md`
/// states each. Words count from 1.
#[derive(Clone, Copy, Debug, PartialEq, Eq)]
pub enum TextRefusal {
    /// The text has too many bytes. None of them was looked at.
    TooLong { size: u64 },
    /// Word n is not allowed at its position.
    Word { n: u64 },
    /// Word n is needed, and the text has fewer words.
    Missing { n: u64 },
    /// Word n follows the last cell.
    Extra { n: u64 },
    /// The layout breaks a rule.
    Layout(LayoutRefusal),
}

/// Why no array was read.
#[derive(Clone, Copy, Debug, PartialEq, Eq)]
pub enum TextFault {
    /// The text is refused.
    Refused(TextRefusal),
    /// Memory ran out.
    NoMemory,
}

impl From<TextRefusal> for TextFault {
    ghost from_gives = { λ r e. e ≡ Refused r };

    fn from(refusal: TextRefusal) -> TextFault {
        TextFault::Refused(refusal)
    }
}
