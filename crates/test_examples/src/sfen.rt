//! A use of `shogi_sfen`.

ghost use Rattle.std.specs.Prelude.{◌≡◌, IfSome, IsSome, IsSomeAnd, true};
ghost use Rattle.shogi_moves.specs.After.{after};
ghost use Rattle.shogi_moves.specs.Legal.{is_legal};
ghost use Rattle.shogi_sfen.specs.MoveTexts.{move_of_text};

use shogi_core::Position;
use shogi_moves::play;
use shogi_sfen::read_move;

/// The position after a move given by its text, as `7g7f` or `P*5e`; none where the text is no move's
/// or the move is not legal.
pub fn play_text(p: &Position, text: &[u8]) -> Option<Position>
    ensures law { IsSome result → IsSomeAnd (move_of_text text.now) (λ m. is_legal p.now m ≡ true) }
    ensures next { IfSome result
        (λ q. IsSomeAnd (move_of_text text.now) (λ m. q ≡ after p.now m)) }
{
    play(p, read_move(text)?)
}
