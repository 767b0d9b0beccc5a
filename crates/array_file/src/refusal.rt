//! Why an array file is refused.
//! Used in this crate by `header`, and by `search_run`.
use layouts::LayoutRefusal;

/// The first rule that an array file breaks, in the order of the variants; `docs/ARRAY-FILE.md` states each.
#[derive(Clone, Copy, Debug, PartialEq, Eq)]
pub enum FileRefusal {
    /// The file has fewer bytes than a header.
    Short { size: u64 },
    /// The file does not begin with the magic word.
    Magic,
    /// The version is not 1.
    Version { n: u32 },
    /// The numbers in the header break a rule of layouts.
    Layout(LayoutRefusal),
    /// The size in bytes is not the one that the header states.
    WrongLength { stated: u64, found: u64 },
}
