//! Names for the bytes of texts.

pub const TAB: u8 = b'\t';

pub const SPACE: u8 = b' ';

/// Stands before the letter of a promoted piece.
pub const PLUS: u8 = b'+';

/// Stands between two ranks.
pub const SLASH: u8 = b'/';

/// The digit 0; the other digits follow by value.
pub const ZERO: u8 = b'0';

/// File 1 of a square; the other files follow by value.
pub const FIRST_FILE: u8 = b'1';

/// Rank 1 of a square; the other ranks follow by value.
pub const FIRST_RANK: u8 = b'a';

/// Stands between the letter of a dropped piece and its square.
pub const STAR: u8 = b'*';

/// The first lower-case letter; all upper-case letters are lower in value.
pub const LOWER_CASE: u8 = b'a';

/// The letter of a king.
pub const KING: u8 = b'K';

/// The difference between a lower-case letter and its upper-case one.
pub const TO_LOWER_CASE: u8 = b'a' - b'A';
