//! Reads numbers in decimal.

ghost use Rattle.std.specs.Prelude.{◌≡◌};
ghost use Rattle.shogi_sfen.specs.Numbers.{is_number, capped_number};

/// The number that the digits write, at most `most`; `None` if the word is empty or has another
/// byte than a digit. Any number of digits is read.
pub fn read_number(word: &[u8], most: u32) -> Option<u32>
    ensures { result ≡ capped_number most word.now }
{
    if word.is_empty() {
        return None;
    }
    let most = most as u64;
    let mut number = 0;
    for byte in word {
        if !byte.is_ascii_digit() {
            return None;
        }
        number = most.min(number * 10 + (*byte - b'0') as u64);
    }
    Some(number as u32)
}

/// Whether the word is one or more digits and nothing else.
pub fn is_number(word: &[u8]) -> bool
    ensures { result ≡ is_number word.now }
{
    read_number(word, 0).is_some()
}
