//! Splits a text into words.

ghost use Rattle.std.specs.Prelude.{◌≡◌};

use crate::word::Words;

/// Iterates over the words of the text: its maximal runs of bytes other than space and tab.
pub fn words(text: &[u8]) -> Words<'_>
    ensures { result ≡ text.now }
{
    Words::new(text)
}
