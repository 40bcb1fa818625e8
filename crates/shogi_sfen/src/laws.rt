//! Laws of the constants.

ghost use Rattle.shogi_sfen.specs.Characters.{AreCharacters};

/// The byte constants are the characters of USI and SFEN; a board has 81 squares, nine on a rank.
pub fn characters()
    ensures { AreCharacters }
{}
