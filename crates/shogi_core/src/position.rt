//! Valid positions.

ghost use Rattle.std.specs.Prelude.{◌≡◌, ◌↔◌, true, IsTrue, Ok, Err, None, Some, MatchOption, IfSome, IsNone};
ghost use Rattle.shogi_core.specs.Cell.{is_king, HasNoKing, HasNoOtherKing};
ghost use Rattle.shogi_core.specs.Movement.{reaches, piece_at};
ghost use Rattle.shogi_core.specs.Position.{count_in_hand, with_piece_moved, with_piece_dropped};
ghost use Rattle.shogi_core.specs.Same.{is_same_position};
ghost use Rattle.shogi_core.specs.Start.{start};
ghost use Rattle.shogi_core.specs.Validity.{IsPositionOf, IsValid, fault_of};

use crate::bits::lowest;
use crate::board::Board;
use crate::hands::Hands;
use crate::piece::{Color, Kind, Piece};
use crate::square::Square;
use crate::validity::{PositionFault, fault};
use std::marker::Model;

/// A valid position: the board, the hands, and the side to move.
#[derive(Clone, Copy, Debug, PartialEq, Eq, Hash)]
pub struct Position {
    board: Board,
    hands: Hands,
    side: Color,
}

impl Model for Position {
    ghost use Rattle.shogi_core.specs.Position.{Shogi};
    ghost use Rattle.shogi_core.specs.Validity.{IsValid};

    ghost Value = { Shogi };

    ghost view = { λ p. record { cells = p.board; hands = p.hands; side = p.side } };

    ghost invariant = { λ p. IsValid (record { cells = p.board; hands = p.hands; side = p.side }) };

    ghost inverse = { λ p. record { board = p.cells; hands = p.hands; side = p.side } };
}

impl Position {
    /// The position with these parts, or its first fault in the order of `PositionFault`. A side
    /// may have no king (own choice).
    pub fn new(
        cells: [Option<Piece>; 81],
        hands: Hands,
        side: Color,
    ) -> Result<Position, PositionFault>
        ensures { IsPositionOf (record { cells = cells; hands = hands; side = side }) result }
    {
        match fault(&cells, hands, side) {
            Some(fault) => Err(fault),
            None => Ok(Position {
                board: Board::of(cells),
                hands,
                side,
            }),
        }
    }

    /// The opening position.
    #[tactic(auto, using(crate::proofs::Opening::start_fine))]
    pub fn start() -> Position
        ensures { result ≡ start }
    {
        Position::of_valid(Board::start(), Hands::none(), Color::Black)
    }

    /// The position with these parts, which must have no fault.
    pub fn of_valid(board: Board, hands: Hands, side: Color) -> Position
        requires { fault_of (record { cells = board; hands = hands; side = side }) ≡ None }
        ensures { result ≡ record { cells = board; hands = hands; side = side } }
    {
        Position { board, hands, side }
    }

    /// Plays a board move: empties `from`, puts `piece` on `to`, sets the hands and passes the
    /// turn. The result must be without a fault.
    pub fn move_piece(&mut self, from: Square, to: Square, piece: Option<Piece>, hands: Hands)
        requires { fault_of (with_piece_moved self.old from to piece hands) ≡ None }
        ensures { self.new ≡ with_piece_moved self.old from to piece hands }
    {
        let Position {
            board,
            hands: held,
            side,
        } = self;
        board.set(from, None);
        board.set(to, piece);
        *held = hands;
        *side = side.opponent();
    }

    /// Plays a drop: puts `dropped` on `to`, sets the hands and passes the turn. The result must be
    /// without a fault.
    pub fn drop_piece(&mut self, to: Square, dropped: Option<Piece>, hands: Hands)
        requires { fault_of (with_piece_dropped self.old to dropped hands) ≡ None }
        ensures { self.new ≡ with_piece_dropped self.old to dropped hands }
    {
        let Position {
            board,
            hands: held,
            side,
        } = self;
        board.set(to, dropped);
        *held = hands;
        *side = side.opponent();
    }

    /// A copy of the board.
    pub fn board(&self) -> Board
        ensures { result ≡ self.now.cells }
    {
        self.board
    }

    /// A reference to the board.
    pub fn as_board(&self) -> &Board
        ensures { result.now ≡ self.now.cells }
    {
        &self.board
    }

    /// Both hands.
    pub fn hands(&self) -> Hands
        ensures { result ≡ self.now.hands }
    {
        self.hands
    }

    /// The side to move.
    pub fn side(&self) -> Color
        ensures { result ≡ self.now.side }
    {
        self.side
    }

    /// The side's count of the kind in hand.
    pub fn hand(&self, color: Color, kind: Kind) -> u8
        ensures { result ≡ count_in_hand self.now.hands color kind }
    {
        self.hands.count(color, kind)
    }

    /// The piece on the square, if any.
    pub fn at(&self, square: Square) -> Option<Piece>
        ensures { result ≡ piece_at self.now.cells square }
    {
        self.board.at(square)
    }

    /// The square of the side's king, if it has one.
    #[inline(always)]
    #[tactic(auto, using(crate::proofs::Kings::one_king))]
    pub fn king(&self, side: Color) -> Option<Square>
        ensures king { IfSome result (λ k. is_king side (piece_at self.now.cells k) ≡ true) }
        ensures lone { IfSome result (HasNoOtherKing self.now.cells side) }
        ensures if_none { IsNone result → HasNoKing self.now.cells side }
    {
        self.reveal_invariant();
        let kings = self.board.kings(side).bits;
        if kings == 0 {
            return None;
        }
        Some(Square::of_index(lowest(kings)))
    }

    /// Whether the piece on `from` has a step, a jump or a free slide to `to`; false if `from` is
    /// empty.
    pub fn reaches(&self, from: Square, to: Square) -> bool
        ensures { result ≡ reaches self.now.cells from to }
    {
        self.board.reaches(from, to)
    }

    /// Whether the positions are equal: board, hands and side to move.
    pub fn is_same(&self, other: &Position) -> bool
        ensures equal { IsTrue result ↔ (self.now ≡ other.now) }
        ensures test { result ≡ is_same_position self.now other.now }
    {
        self == other
    }

    /// Tells the prover that the position is valid; does nothing at run time.
    pub fn reveal_invariant(&self)
        ensures { IsValid self.now }
    {
        let _ = &self.board;
    }
}
