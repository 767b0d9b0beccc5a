//! The array text: a layout and the cells of an array, as words. It says exactly which texts are refused, by the number
//! of the first word that is wrong. Of every other text it gives the layout and the cells. The bytes are read once. No
//! list of words is made, and the cells are in one vector, which is reserved once.
//! Definitions: `specs/Words` (the words of a text), `specs/Numbers` (the numbers and cells that words write),
//! `specs/Walk` (the walk over the words: what a text states, or its first refusal), `specs/Reads` (what
//! `read_array_text` answers), `specs/Contents` (what the words of a text stand for) and `specs/PlainText` (the plain
//! text of an array). `laws` says what the words of every text are, that digits write their number, that a text is read
//! as the array that its words state, and as no other, and that every plain text is read back.
//! Stands on `layouts` and `cells`; used by `search_run`.
#![tactic(auto)]

mod bytes;
mod cell_words;
mod fault;
pub mod laws;
mod layout;
mod read;
mod text;
mod word;

pub use crate::fault::{TextFault, TextRefusal};
pub use crate::read::{ArrayText, check_size, read_array_text};
