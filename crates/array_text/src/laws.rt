//! What the words of a text are, what the digits of a number are as a word, and that a text is read as the layout and
//! the cells that its words state.
//! No code calls them.
ghost use Rattle.std.specs.Prelude.{◌≡◌, ℕ, ℤ, ◌<◌, ◌≤◌, ◌^◌, List, [], ◌∷◌, ◌++◌, All, length, true, Ok, FitsSigned};
ghost use Rattle.std.specs.Fmt.{decimal, signed_decimal};
ghost use Rattle.std.specs.Int.{w32};
ghost use Rattle.lists.specs.Numbers.{IsWithin, product};
ghost use Rattle.cells.specs.declared.cell.Cell.{Cell};
ghost use Rattle.layouts.specs.Rules.{IsLayout};
ghost use Rattle.layouts.specs.declared.numbers.LayoutNumbers.{LayoutNumbers};
ghost use Rattle.array_text.specs.Contents.{WordsState};
ghost use Rattle.array_text.specs.Numbers.{layout_number, cell_of, stored};
ghost use Rattle.array_text.specs.PlainText.{plain_text};
ghost use Rattle.array_text.specs.Walk.{stated_array};
ghost use Rattle.array_text.specs.Words.{is_blank, words, IsWord};

use layouts::laws::rules_make_a_layout;

/// No bytes have no words.
pub fn nothing_has_no_words()
    ensures { words [] ≡ [] }
{}

/// A blank at the beginning adds no word.
pub fn a_blank_adds_no_word()
    ensures { (b : ℕ) (bytes : List ℕ) → is_blank b ≡ true → words (b ∷ bytes) ≡ words bytes }
{}

/// A word goes up to the first blank.
pub fn a_word_goes_up_to_a_blank()
    ensures { (word : List ℕ) (b : ℕ) (bytes : List ℕ) → IsWord word → is_blank b ≡ true
        → words (word ++ b ∷ bytes) ≡ word ∷ words bytes }
{}

/// If no blank follows, it goes up to the end.
pub fn a_word_goes_up_to_the_end()
    ensures { (word : List ℕ) → IsWord word → words word ≡ word ∷ [] }
{}

/// A number below 2^32 is what its digits write.
pub fn digits_write_the_number()
    ensures { (n : ℕ) → n < 4294967296 → layout_number (decimal n) ≡ Some n }
{}

/// A cell's number is what its digits write, after `-` if it is below 0.
pub fn digits_write_the_cell()
    ensures { (z : ℤ) → IsWithin z 2147483647 → cell_of (signed_decimal z) ≡ Some (stored z) }
{}

/// If a text is read, its words state the layout and the cells that are read.
pub fn what_is_read_is_stated()
    ensures { (bytes : List ℕ) (l : LayoutNumbers) (cells : List Cell) → stated_array bytes ≡ Ok (l, cells) → WordsState (words bytes) l cells }
{
    rules_make_a_layout();
}

/// A text of at most 2^30 bytes is read as the layout and the cells that its words state.
pub fn what_is_stated_is_read()
    ensures { (bytes : List ℕ) (l : LayoutNumbers) (cells : List Cell) → length bytes ≤ 2 ^ 30 → WordsState (words bytes) l cells
        → stated_array bytes ≡ Ok (l, cells) }
{}

/// The plain text of a layout and the cells of its array, each a number of 32 bits, is read as these. It is never too
/// long.
pub fn plain_texts_are_read_back()
    ensures { (l : LayoutNumbers) (cells : List Cell) → IsLayout l → length cells ≡ product l.extents → All (λ c. FitsSigned w32 c.0) cells
        → stated_array (plain_text l cells) ≡ Ok (l, cells) }
{}

/// If a text is read as a layout and cells, so is their plain text.
pub fn what_is_read_has_a_plain_text()
    ensures { (bytes : List ℕ) (l : LayoutNumbers) (cells : List Cell) → stated_array bytes ≡ Ok (l, cells) → stated_array (plain_text l cells) ≡ Ok (l, cells) }
{
    rules_make_a_layout();
}
