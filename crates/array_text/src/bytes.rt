//! The first word of bytes, and the bytes after it.
//! Used in this crate by `read`, `text` and `word`.
ghost use Rattle.std.specs.Prelude.{◌≡◌, ◌+◌, ◌<◌, ◌≤◌, length};
ghost use Rattle.array_text.specs.Words as words;

/// Whether a byte is a blank.
pub(crate) fn is_blank(b: u8) -> bool
    ensures { result ≡ words.is_blank b }
{
    b == b' ' || b == b'\t' || b == b'\r' || b == b'\n'
}

/// The bytes from the first word on.
pub(crate) fn skip_blanks(bytes: &[u8]) -> &[u8]
    ensures words { words.words bytes.now ≡ words.words_at result.now }
    ensures some { 0 < length result.now → 0 < length (words.first_word result.now) }
    ensures shorter { length result.now ≤ length bytes.now }
{
    for (i, b) in bytes.iter().enumerate() {
        if !is_blank(*b) {
            return &bytes[i..];
        }
    }
    &bytes[bytes.len()..]
}

/// The bytes before the first blank, and the bytes from it on.
pub(crate) fn split_word(bytes: &[u8]) -> (&[u8], &[u8])
    ensures word { result.0.now ≡ words.first_word bytes.now }
    ensures after { result.1.now ≡ words.after_word bytes.now }
    ensures lengths { length result.0.now + length result.1.now ≡ length bytes.now }
{
    for (i, b) in bytes.iter().enumerate() {
        if is_blank(*b) {
            return bytes.split_at(i);
        }
    }
    bytes.split_at(bytes.len())
}
