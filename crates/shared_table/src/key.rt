//! The key of an entry: the whole position, the evaluation and the depth, packed.

ghost use Rattle.std.specs.Prelude.{◌≡◌, ◌↔◌, IsTrue};
ghost use Rattle.shared_table.specs.Keys.{key_of};
ghost use Rattle.shared_table.specs.Packed.{key_in, words_of};

use crate::packing::{hand_word, last_word, pair, place_cells, side_of, with_counts};
use shogi_core::{Board, Color, Hands, Position};
use shogi_eval::Eval;
use std::hash::{Hash, Hasher};
use std::marker::Model;

/// The key of an entry: ten words that hold the whole position, the evaluation and the depth, so a
/// hash collision cannot give a wrong entry. Contracts see the three values.
#[derive(Clone, Copy, Debug)]
pub struct TableKey {
    words: [u64; 10],
}

impl Model for TableKey {
    ghost use Rattle.shared_table.specs.Keys.{Key};
    ghost use Rattle.shared_table.specs.Packed.{AreWords, key_in, words_of};

    ghost Value = { Key };

    ghost view = { λ key. key_in key.words };

    ghost invariant = { λ key. AreWords key.words };

    ghost inverse = { λ key. record { words = words_of key } };

    ghost use Rattle.std.proofs.Common.{ap};
    ghost use Rattle.std.specs.Prelude.{List, ℕ};

    ghost inverse_ok = { λ key h. ap (λ (words : List ℕ). record { words = words }) h.same };
}

impl TableKey {
    /// The key of the position under the evaluation at the depth.
    pub fn of(position: &Position, eval: Eval, depth: u8) -> TableKey
        ensures { result ≡ key_of position.now eval depth }
    {
        position.reveal_invariant();
        let board = position.as_board().words();
        let hands = position.hands();
        TableKey {
            words: [
                board[0],
                board[1],
                board[2],
                board[3],
                board[4],
                board[5],
                board[6],
                hand_word(hands, Color::Black),
                hand_word(hands, Color::White),
                last_word(position.side(), eval, depth),
            ],
        }
    }

    /// The position, unpacked from the words.
    pub fn position(&self) -> Position
        ensures { result ≡ self.now.position }
    {
        let mut cells = [None; 81];
        place_cells(&mut cells, 0, 12, self.words[0]);
        place_cells(&mut cells, 12, 24, self.words[1]);
        place_cells(&mut cells, 24, 36, self.words[2]);
        place_cells(&mut cells, 36, 48, self.words[3]);
        place_cells(&mut cells, 48, 60, self.words[4]);
        place_cells(&mut cells, 60, 72, self.words[5]);
        place_cells(&mut cells, 72, 81, self.words[6]);
        let black = with_counts(Hands::none(), Color::Black, self.words[7]);
        let hands = with_counts(black, Color::White, self.words[8]);
        Position::of_valid(Board::of(cells), hands, side_of(self.words[9]))
    }

    /// The evaluation, unpacked from the last word.
    pub fn eval(&self) -> Eval
        ensures { result ≡ self.now.eval }
    {
        let number = self.words[9] / 2 % 3;
        if number == 0 {
            Eval::Plain
        } else if number == 1 {
            Eval::Hand
        } else {
            Eval::Exchange
        }
    }

    /// The ten words, from which position, evaluation and depth can be unpacked.
    pub fn words(&self) -> [u64; 10]
        ensures words { result ≡ words_of self.now }
        ensures key { key_in result ≡ self.now }
    {
        let TableKey { words } = *self;
        words
    }

    /// Whether position, evaluation and depth are equal: exactly if the words are.
    pub fn is_same(&self, other: &TableKey) -> bool
        ensures equal { IsTrue result ↔ (self.now ≡ other.now) }
        ensures words { IsTrue result ↔ (words_of self.now ≡ words_of other.now) }
    {
        self.words() == other.words()
    }
}

impl PartialEq for TableKey {
    ghost use Rattle.shared_table.specs.Keys.{is_same_key};
    ghost use Rattle.shared_table.specs.KeyLaws.{key_partial_equivalence};

    ghost eq = { is_same_key };

    ghost laws = { key_partial_equivalence };

    fn eq(&self, other: &TableKey) -> bool {
        self.words == other.words
    }
}

impl Eq for TableKey {
    ghost use Rattle.shared_table.specs.KeyLaws.{key_equivalence};

    ghost laws = { key_equivalence };
}

impl Hash for TableKey {
    ghost use Rattle.shared_table.specs.KeyLaws.{key_same};
    ghost use Rattle.shared_table.specs.Packed.{writes_of};
    ghost use Rattle.std.specs.Hash as fed;

    ghost hash_input = { λ key. writes_of (words_of key) };

    ghost respects_eq = { (fed.same_Alike _ key_same).fed };

    fn hash<H: Hasher>(&self, state: &mut H) {
        state.write_u128(pair(self.words[0], self.words[1]));
        state.write_u128(pair(self.words[2], self.words[3]));
        state.write_u128(pair(self.words[4], self.words[5]));
        state.write_u128(pair(self.words[6], self.words[7]));
        state.write_u128(pair(self.words[8], self.words[9]));
    }
}
