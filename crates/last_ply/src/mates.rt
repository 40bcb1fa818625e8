//! Whether a legal move mates: it leaves the opponent without a legal move, in check or not.

ghost use Rattle.std.specs.Prelude.{[], ◌≢◌, ◌≡◌, ◌<◌, true, false, ℕ, bit_and};
ghost use Rattle.std.proofs.Props.{props};
ghost use Rattle.shogi_core.specs.Bits.{has_bit};
ghost use Rattle.shogi_moves.specs.Destinations.{is_own, AreDropSquares, IsWithin};
ghost use Rattle.shogi_moves.specs.LegalMoves.{legal_codes};
ghost use Rattle.shogi_moves.specs.Legal.{is_legal};
ghost use Rattle.shogi_replies.specs.ReplyInfo.{HasOthers, IsAnswered, IsUnseen};
ghost use Rattle.last_ply.specs.LastPly.{AllDropsLeaveSome, BoardLeavesSome, OnEach, Outside, HasMate, HasNoMate, IsMate, IsNoMate, IsPieceMoved, AreLegalEnds, LeaveSomeFrom, DropsLeaveSome, IsOutOfReach};
ghost use Rattle.last_ply.specs.FrontierNodes.{FrontierAnsweredOff, FrontierDoubtfulEnds, FrontierDropsAnsweredOff, FrontierLeavesSomeAmong};

use crate::frontier::FrontierNode;
use shogi_core::zones::promoting_squares;
use shogi_core::{Kind, Move, Piece, Position, Role, Square, Squares, line_mask, step_squares};
use shogi_moves::{Destinations, KnownDrops, Origin, OwnPiece, drop_squares, has_legal, is_legal};
use shogi_replies::{KnownReplies, ReplyInfo, has_two, king_takes, some_escapes};

/// A frontier node with its known replies: after most moves the opponent surely has a legal reply.
#[derive(Clone, Copy)]
pub struct MateSearch<'a> {
    pub frontier: FrontierNode<'a>,
    /// The known replies, with the first three escapes of the opponent's king, or fewer if there
    /// are no more.
    pub replies: KnownReplies<'a>,
    /// The empty squares on which a piece in hand may be dropped.
    pub squares: Squares,
    /// Whether the opponent surely has a legal reply to every move that gives no check.
    pub spared: bool,
    ghost same: { replies.position.now ≡ frontier.node.now.position },
    ghost dropping: { AreDropSquares frontier.node.now.position squares.bits } by { Prim.hlevel props },
    ghost others: { spared ≡ true → HasOthers replies.info.free_movers.bits },
}

/// The pieces of the side to move, without its king, next to `to` or a knight's jump from it.
fn pieces_near(p: &Position, to: Square) -> Squares {
    let side = p.side();
    let king = Piece {
        color: side,
        role: Role::King,
    };
    let knight = Piece {
        color: side.opponent(),
        role: Role::Knight,
    };
    let near = step_squares(king, to) | step_squares(knight, to);
    let board = p.as_board();
    (board.own(side) & near).without(board.kings(side))
}

/// Whether the piece on `from` may legally capture on `to` by a step without promotion.
fn takes_legally(p: &Position, from: Square, to: Square) -> bool
    ensures { result ≡ true → legal_codes p.now ≢ [] }
{
    let Some(piece) = p.at(from) else {
        return false
    };
    let m = Move::Board {
        from,
        to,
        promote: false,
    };
    step_squares(piece, from).has(to) && is_legal(p, m)
}

/// True only if a piece near the move's destination may legally recapture there. The position is
/// the one after the move.
fn retakes(p: &Position, m: &Move) -> bool
    ensures { result ≡ true → legal_codes p.now ≢ [] }
{
    let to = m.to();
    let mut left = pieces_near(p, to).iter();
    'pieces: while let Some(from) = left.next() {
        if takes_legally(p, from, to) {
            return true;
        }
    }
    false
}

/// A superset of the squares from which the piece reaches `square`, whatever stands between.
fn closing_squares(piece: Piece, square: Square) -> Squares
    ensures { Outside result.bits (λ n. IsOutOfReach piece n square) }
{
    let back = Piece {
        color: piece.color.opponent(),
        role: piece.role,
    };
    let steps = step_squares(back, square);
    if piece.role.is_sliding() {
        steps | line_mask(square)
    } else {
        steps
    }
}

impl FrontierNode<'_> {
    /// Whether the legal move mates. Captures of the moved piece, by the king and by pieces near
    /// it, are tried before all replies.
    pub fn mates(&self, m: &Move) -> bool
        requires { is_legal self.now.node.now.position m.now ≡ true }
        ensures mated { result ≡ true → IsMate self.now.node.now.position m.now }
        ensures some { result ≡ true → HasMate self.now.node.now.position }
        ensures if_none { result ≡ false → IsNoMate self.now.node.now.position m.now }
    {
        m.reveal_invariant();
        if king_takes(self.node.as_position(), m) {
            return false;
        }
        let next = self.node.play(*m);
        if retakes(next.as_position(), m) {
            return false;
        }
        !has_legal(next.as_position())
    }

    /// Whether some legal move mates.
    pub fn has_mate(&self) -> bool
        ensures some { result ≡ true → HasMate self.now.node.now.position }
        ensures if_none { result ≡ false → HasNoMate self.now.node.now.position }
    {
        let mate_search = MateSearch::of(self);
        mate_search.has_board_mate() || mate_search.has_drop_mate()
    }
}

impl MateSearch<'_> {
    /// The mate search of the node.
    #[inline(always)]
    pub fn of<'a>(frontier: &FrontierNode<'a>) -> MateSearch<'a>
        ensures { result.frontier.node.now ≡ frontier.now.node.now }
    {
        let p = frontier.node.as_position();
        let info = ReplyInfo::of(p);
        MateSearch {
            frontier: *frontier,
            replies: info.at(p, some_escapes(p)),
            squares: drop_squares(&frontier.known),
            spared: has_two(info.free_movers),
        }
    }

    /// True only if the opponent's king has an escape after the legal move.
    fn leaves_way(&self, m: &Move) -> bool
        ensures { result ≡ true → IsAnswered self.now.frontier.node.now.position m.now }
    {
        self.replies.leaves_escape(m) || self.replies.leaves_king_move(m)
    }

    /// Whether the legal move mates. Returns early if an escape of the king is certain.
    #[inline(always)]
    fn tries(&self, m: &Move) -> bool
        requires { is_legal self.now.frontier.node.now.position m.now ≡ true }
        ensures mated { result ≡ true → IsMate self.now.frontier.node.now.position m.now }
        ensures some { result ≡ true → HasMate self.now.frontier.node.now.position }
        ensures if_none { result ≡ false → IsNoMate self.now.frontier.node.now.position m.now }
    {
        m.reveal_invariant();
        if self.leaves_way(m) {
            return false;
        }
        self.frontier.mates(m)
    }

    /// Whether the legal move mates. Returns early if the move gives no check and leaves a known
    /// reply.
    pub fn mates_past(&self, m: &Move) -> bool
        requires { is_legal self.now.frontier.node.now.position m.now ≡ true }
        ensures mated { result ≡ true → IsMate self.now.frontier.node.now.position m.now }
        ensures if_none { result ≡ false → IsNoMate self.now.frontier.node.now.position m.now }
    {
        m.reveal_invariant();
        !self.replies.guarantees_reply(m) && self.tries(m)
    }

    /// Whether a legal move of `origin` to one of `ends` mates.
    #[inline(always)]
    fn mates_among(&self, origin: &Origin, ends: Squares) -> bool
        requires { AreLegalEnds self.now.frontier.node.now.position origin.now ends.bits }
        ensures some { result ≡ true → HasMate self.now.frontier.node.now.position }
        ensures if_none { result ≡ false
            → FrontierLeavesSomeAmong self.now.frontier origin.now ends.bits }
    {
        let mut left = ends.iter();
        'ends: while let Some(to) = left.next() {
            let m = origin.to(to);
            m.reveal_invariant();
            if self.tries(&m) {
                return true;
            }
        }
        false
    }

    /// Whether neither `from` nor any of `ends` is in the king view and the opponent has a reply to
    /// every move without check.
    fn is_unseen(&self, from: Square, ends: Squares) -> bool
        ensures others { result ≡ true → HasOthers self.now.replies.info.free_movers.bits }
        ensures unseen { result ≡ true → IsUnseen self.now.replies.info from ends.bits }
    {
        self.spared && self.replies.info.is_unseen(from, ends)
    }

    /// The `ends` on which `piece`, come from `from`, occupies or may reach every escape off the
    /// lines through `from`, and those on a king. From the others the king keeps an escape. All
    /// `ends` if there is no king.
    #[inline(always)]
    fn closing_ends(&self, from: Square, promote: bool, piece: Piece, ends: Squares) -> Squares
        requires { IsPieceMoved self.now.frontier.node.now.position from promote piece }
        ensures within { IsWithin result.bits ends.bits }
        ensures answered { FrontierAnsweredOff self.now.frontier
            from promote ends.bits result.bits }
    {
        let _ = promote;
        from.reveal_invariant();
        let p = self.frontier.node.as_position();
        let kings = p.as_board().kings(p.side().opponent());
        if kings.is_empty() {
            return ends;
        }
        let mut kept = ends;
        let mut left = self.replies.escapes.without(line_mask(from)).iter();
        'escapes: while let Some(escape) = left.next() {
            if kept.is_empty() {
                break;
            }
            kept = kept & (closing_squares(piece, escape) | kings.with(escape));
        }
        kept
    }

    /// The `ends` at which the opponent may be without a legal reply once `piece` has moved there
    /// from `from`.
    fn doubtful_among(&self, from: Square, promote: bool, piece: Piece, ends: Squares) -> Squares
        requires { IsPieceMoved self.now.frontier.node.now.position from promote piece }
        ensures within { IsWithin result.bits ends.bits }
        ensures answered { FrontierAnsweredOff self.now.frontier
            from promote ends.bits result.bits }
    {
        let closing = self.closing_ends(from, promote, piece, ends);
        let origin = Origin::Board { from, promote };
        closing.without(self.replies.non_checking_destinations(&origin, closing))
    }

    /// The destinations of the piece on `from` at which the opponent may be without a legal reply,
    /// whether the move itself is legal or not.
    fn doubtful_ends(&self, from: Square) -> Destinations
        ensures non_promoting { FrontierDoubtfulEnds self.now.frontier
            from false result.non_promoting.bits }
        ensures promoting { FrontierDoubtfulEnds self.now.frontier from true result.promoting.bits }
    {
        from.reveal_invariant();
        let p = self.frontier.node.as_position();
        let ends = self.frontier.targets(from);
        if self.is_unseen(from, ends) {
            return Destinations {
                non_promoting: Squares::none(),
                promoting: Squares::none(),
            };
        }
        let cell = p.at(from);
        let promotions = ends & promoting_squares(cell, from);
        let Some(piece) = cell else {
            return Destinations {
                non_promoting: ends,
                promoting: promotions,
            }
        };
        let non_promoting = self.doubtful_among(from, false, piece, ends);
        if promotions.is_empty() {
            return Destinations {
                non_promoting,
                promoting: Squares::none(),
            };
        }
        let promoted = Piece {
            color: piece.color,
            role: piece.role.promoted(),
        };
        let promoting = self.doubtful_among(from, true, promoted, promotions);
        Destinations {
            non_promoting,
            promoting,
        }
    }

    /// Whether a legal move of the piece on `from` mates.
    fn mates_from(&self, from: Square) -> bool
        requires own { is_own self.now.frontier.node.now.position from ≡ true }
        ensures some { result ≡ true → HasMate self.now.frontier.node.now.position }
        ensures if_none { result ≡ false → LeaveSomeFrom self.now.frontier.node.now.position from }
    {
        from.reveal_invariant();
        let doubtful = self.doubtful_ends(from);
        let among = doubtful.non_promoting | doubtful.promoting;
        if among.is_empty() {
            return false;
        }
        let piece = OwnPiece {
            known: &self.frontier.known,
            from,
        };
        let ends = piece.legal_destinations(among);
        let plain = Origin::Board {
            from,
            promote: false,
        };
        let promoting = Origin::Board {
            from,
            promote: true,
        };
        self.mates_among(&plain, ends.non_promoting & doubtful.non_promoting)
            || self.mates_among(&promoting, ends.promoting & doubtful.promoting)
    }

    /// Pieces of the side to move far from the opponent's king, whose every move surely leaves a
    /// legal reply.
    fn non_mating_pieces(&self) -> Squares
        ensures { OnEach result.bits (LeaveSomeFrom self.now.frontier.node.now.position) }
    {
        self.replies.distant_pieces()
    }

    /// Whether a legal move on the board mates.
    fn has_board_mate(&self) -> bool
        ensures some { result ≡ true → HasMate self.now.frontier.node.now.position }
        ensures if_none { result ≡ false → BoardLeavesSome self.now.frontier.node.now.position }
    {
        let mut left = self
            .frontier
            .movable()
            .without(self.non_mating_pieces())
            .iter();
        'pieces: while let Some(from) = left.next() {
            if self.mates_from(from) {
                return true;
            }
        }
        false
    }

    /// The `squares` off the escapes from which a dropped piece of the kind may reach every escape.
    /// From others the king keeps an escape or captures the piece. All `squares` if there is no
    /// king.
    fn closing_drops(&self, kind: Kind, squares: Squares) -> Squares
        ensures among { IsWithin result.bits squares.bits }
        ensures answered { FrontierDropsAnsweredOff self.now.frontier
            kind squares.bits result.bits }
    {
        let p = self.frontier.node.as_position();
        let side = p.side();
        if p.as_board().kings(side.opponent()).is_empty() {
            return squares;
        }
        let piece = Piece {
            color: side,
            role: Role::from(kind),
        };
        let escapes = self.replies.escapes;
        let mut kept = squares.without(escapes);
        let mut left = escapes.iter();
        'escapes: while let Some(escape) = left.next() {
            if kept.is_empty() {
                break;
            }
            kept = kept & closing_squares(piece, escape);
        }
        kept
    }

    /// Whether a legal drop of the kind mates. `mates_by` asks this only for a kind in hand.
    #[inline(never)]
    fn mates_by_held(&self, kind: Kind) -> bool
        ensures some { result ≡ true → HasMate self.now.frontier.node.now.position }
        ensures if_none { result ≡ false → DropsLeaveSome self.now.frontier.node.now.position kind }
    {
        let closing = self.closing_drops(kind, self.squares);
        if closing.is_empty() {
            return false;
        }
        let origin = Origin::Drop { kind };
        let doubtful = closing.without(self.replies.non_checking_destinations(&origin, closing));
        if doubtful.is_empty() {
            return false;
        }
        let p = self.frontier.node.as_position();
        let drops = KnownDrops {
            position: p,
            squares: self.squares,
        };
        let ends = drops.legal(kind);
        self.mates_among(&origin, ends & doubtful)
    }

    /// Whether a legal drop of the kind mates.
    #[inline(always)]
    fn mates_by(&self, kind: Kind) -> bool
        ensures some { result ≡ true → HasMate self.now.frontier.node.now.position }
        ensures if_none { result ≡ false → DropsLeaveSome self.now.frontier.node.now.position kind }
    {
        let p = self.frontier.node.as_position();
        if p.hand(p.side(), kind) == 0 {
            return false;
        }
        self.mates_by_held(kind)
    }

    /// Whether a legal drop of any kind mates.
    #[tactic(auto, using(crate::proofs::AllKinds::drops_of_all_kinds))]
    fn has_drop_mate(&self) -> bool
        ensures some { result ≡ true → HasMate self.now.frontier.node.now.position }
        ensures if_none { result ≡ false → AllDropsLeaveSome self.now.frontier.node.now.position }
    {
        self.mates_by(Kind::Pawn)
            || self.mates_by(Kind::Lance)
            || self.mates_by(Kind::Knight)
            || self.mates_by(Kind::Silver)
            || self.mates_by(Kind::Gold)
            || self.mates_by(Kind::Bishop)
            || self.mates_by(Kind::Rook)
    }
}
