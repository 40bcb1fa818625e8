//! Comparing words of a line with keywords.

ghost use Rattle.std.specs.Prelude.{◌≡◌};
ghost use Rattle.std.specs.Str.{bytes_eq};
ghost use Rattle.shogi_sfen.specs.Words.{words};
ghost use Rattle.usi_lines.specs.CommandLines.{has_word};

use shogi_sfen::words;

/// Whether the word is `name`, byte for byte.
pub fn is(word: &[u8], name: &[u8]) -> bool
    ensures { result ≡ bytes_eq word.now name.now }
{
    word == name
}

/// Whether the text has the word `name`.
pub fn has_word(text: &[u8], name: &[u8]) -> bool
    ensures { result ≡ has_word name.now (words text.now) }
{
    let mut rest = words(text);
    while let Some(word) = rest.next() {
        if is(word, name) {
            return true;
        }
    }
    false
}
