//! Which words each command takes, without a word of `clap`. No code calls the laws: they are for the reader.
ghost use Rattle.std.specs.Prelude.{◌≡◌, List, option_map, true};
ghost use Rattle.clap.specs.Words.{Text};
ghost use Rattle.command_words.specs.Parameters.{Parameter, are_sound};
ghost use Rattle.command_words.specs.Rules.{app_by};
ghost use Rattle.command_words.specs.Rows.{rows_in, texts_found};
ghost use Rattle.command_words.specs.Texts.{AreUtf8, given_in, texts_given};
ghost use Rattle.command_words.specs.Solo.{solo_in, solo_of, solo_parameters};
ghost use Rattle.command_words.specs.Verify.{verify_in, verify_of, verify_parameters};
ghost use Rattle.command_words.specs.Pack.{pack_in, pack_of, pack_parameters};
ghost use Rattle.command_words.specs.Info.{info_in, info_of, info_parameters};
ghost use Rattle.command_words.specs.Search.{search_in, search_of, search_parameters};

/// What `clap` finds in words by the rules of any parameters is what the words give to them.
pub fn words_give_to_parameters()
    ensures { (name : Text) (ps : List Parameter) (words : List Text) → are_sound ps ≡ true → AreUtf8 words
        → option_map (texts_found ps) (rows_in (app_by name ps) words) ≡ option_map (texts_given ps) (given_in ps words) }
{}

/// The words after `solo` are two texts, ARRAY and QUERY.
pub fn solo_takes_two_texts()
    ensures { (words : List Text) → AreUtf8 words → solo_in words ≡ option_map solo_of (given_in solo_parameters words) }
{}

/// The words after `verify` are two texts, ARRAY and QUERY.
pub fn verify_takes_two_texts()
    ensures { (words : List Text) → AreUtf8 words → verify_in words ≡ option_map verify_of (given_in verify_parameters words) }
{}

/// The words after `pack` are two texts, TEXT and ARRAY.
pub fn pack_takes_two_texts()
    ensures { (words : List Text) → AreUtf8 words → pack_in words ≡ option_map pack_of (given_in pack_parameters words) }
{}

/// The words after `info` are one text, ARRAY.
pub fn info_takes_one_text()
    ensures { (words : List Text) → AreUtf8 words → info_in words ≡ option_map info_of (given_in info_parameters words) }
{}

/// The words after `search` are two texts, ARRAY and QUERY, and its options.
pub fn search_takes_two_texts_and_options()
    ensures { (words : List Text) → AreUtf8 words → search_in words ≡ option_map search_of (given_in search_parameters words) }
{}
