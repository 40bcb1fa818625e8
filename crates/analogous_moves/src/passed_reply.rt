//! What the side to move can do after a pass and a reply, found on squares; legality is not tested.

ghost use Rattle.std.specs.Prelude.{◌≡◌, ◌<◌, ℕ, true, false, None, Some, IfSome, slice_set};
ghost use Rattle.std.proofs.Props.{props};
ghost use Rattle.shogi_core.specs.Bits.{has_bit};
ghost use Rattle.shogi_core.specs.Movement.{piece_at};
ghost use Rattle.shogi_core.specs.Zones.{may_promote};
ghost use Rattle.analogous_moves.specs.Analogies.{AreCapturesAbove, CoversMove, IsOnSquares, ExposesOwnKing, KingHasReplies, LeavesReplySquare, lifted};

use shogi_core::bits::lowest;
use shogi_core::zones::{dead_squares, is_promotable, promoting_squares, squares_near_zone};
use shogi_core::{Board, Color, Kind, Move, Piece, Position, Square, Squares, line_mask};
use shogi_eval::{Eval, Node, promotion_gain, taken_gain};
use shogi_moves::{dropped, piece_moved};
use shogi_replies::squares_between;

/// The squares of a move and those between them.
pub fn squares_touched(reply: &Move) -> Squares
    ensures spared { CoversMove reply.now result.bits }
    ensures on_board { IsOnSquares reply.now }
{
    match reply {
        Move::Board { from, to, .. } => {
            from.reveal_invariant();
            to.reveal_invariant();
            squares_between(*from, *to).with(*from).with(*to)
        }
        Move::Drop { to, .. } => {
            to.reveal_invariant();
            Squares::none().with(*to)
        }
    }
}

/// Squares from which `piece` attacks all of `squares`; if replies have to be quiet, it also covers
/// the square on which it stands.
pub fn covering_squares(board: &Board, piece: Piece, squares: Squares, quiet_only: bool) -> Squares
    ensures { (n : ℕ) → n < 81 → has_bit result.bits n ≡ false
        → LeavesReplySquare quiet_only board.now (Some piece) n squares.bits }
{
    let back = Piece {
        color: piece.color.opponent(),
        role: piece.role,
    };
    let mut covered = Squares::all();
    let mut left = squares.iter();
    'squares: while let Some(to) = left.next() {
        if covered.is_empty() {
            return covered;
        }
        let targets = board.targets_of(back, to);
        let closing = if quiet_only {
            targets.with(to)
        } else {
            targets
        };
        covered = covered & closing;
    }
    covered
}

/// Enemy pieces whose capture gains more than `most`.
pub fn captures_above(board: &Board, side: Color, eval: Eval, most: u32) -> Squares
    ensures { AreCapturesAbove board.now side eval most result.bits }
{
    let foes = board.own(side.opponent());
    foes.sift(|square| taken_gain(eval, board.at(square)) > most)
}

/// Destinations at which a move of a piece is a threat, without and with promotion.
#[derive(Clone, Copy)]
pub struct ForbiddenSquares {
    pub non_promoting: Squares,
    pub promoting: Squares,
}

impl ForbiddenSquares {
    /// The forbidden ones among `targets` for this piece on `from`.
    fn among(&self, piece: Piece, from: Square, targets: Squares) -> Squares
        ensures within { (n : ℕ) → has_bit result.bits n ≡ true → has_bit targets.bits n ≡ true }
        ensures non_promoting { (n : ℕ) → has_bit targets.bits n ≡ true
            → has_bit result.bits n ≡ false → has_bit self.now.non_promoting.bits n ≡ false }
        ensures promoting { (n : ℕ) → n < 81 → has_bit targets.bits n ≡ true
            → has_bit result.bits n ≡ false → may_promote (Some piece) from n ≡ true
            → has_bit self.now.promoting.bits n ≡ false }
    {
        let promoting = self.promoting & promoting_squares(Some(piece), from);
        targets & (self.non_promoting | promoting)
    }
}

/// What a refutation relies on: pieces that have to stay, and squares that have to stay empty so
/// that attacks on our king stand.
#[derive(Clone, Copy)]
pub struct ReliedOn {
    pub pieces: Squares,
    pub empty: Squares,
}

/// The position after our pass and the opponent's reply; one piece of ours may be lifted from
/// `board`. `king` is the opponent's only king, and `kingless` the board without it. While one of
/// `squares` is not attacked by us, the opponent has a reply. We may gain up to `gains` points;
/// `captures` are the enemy pieces worth more.
#[derive(Clone, Copy)]
pub struct PassedReply {
    pub node: Node,
    pub board: Board,
    pub king: Square,
    pub kingless: Board,
    pub squares: Squares,
    pub gains: u32,
    pub captures: Squares,
    /// Whether the opponent's reply must neither capture nor promote.
    pub quiet_only: bool,
    ghost is_kingless: { kingless ≡ slice_set board king None } by { Prim.hlevel props },
    ghost has_replies: { KingHasReplies quiet_only (record { cells = board; hands = node.position.hands; side = node.position.side }) king squares.bits } by { Prim.hlevel props },
    ghost are_captures_above: { AreCapturesAbove board node.position.side node.eval gains captures.bits } by { Prim.hlevel props },
}

impl PassedReply {
    ghost use Rattle.analogous_moves.specs.PassedReplies.{AllowsIn, AreUnthreateningDropsIn, AreUnthreateningEnds, IsUnthreateningFrom, AreUnthreateningIn, AreOffLinesIn, ExposeOwnKingIn, KingHasRepliesEachLifted, AreTargetsIn, IsAlike, IsUnthreateningIn, IsOwnIn, HasNoThreatsIn, HasNoThreatsWithout, KingHasRepliesLifted, CoversOpenLinesIn, DropsAreNoThreatIn, DropsGetNoThreatsIn, PieceHasNoThreatIn, PieceGetsNoThreatsIn, PieceGetsNoThreatIn, PiecesHaveNoThreatIn, PiecesGetNoThreatsIn, PromotionsAllowedIn, place_in};

    /// The side to move: ours.
    fn side(&self) -> Color
        ensures { result ≡ self.now.node.position.side }
    {
        self.node.as_position().side()
    }

    /// Destinations at which a promotion of the piece gains too much or covers all of `squares`.
    fn forbidden_promotions(&self, piece: Piece, squares: Squares) -> Squares
        ensures { PromotionsAllowedIn self.now piece squares.bits result.bits }
    {
        let more = promotion_gain(Some(piece), true);
        if more > self.gains {
            return Squares::all();
        }
        let promoted = Piece {
            color: piece.color,
            role: piece.role.promoted(),
        };
        let captures = captures_above(
            &self.board,
            self.side(),
            self.node.eval(),
            self.gains - more,
        );
        captures | covering_squares(&self.kingless, promoted, squares, self.quiet_only)
    }

    /// Destinations at which a move of the piece gains too much or covers all of `squares`. Without
    /// `promotes`, all promotions count as forbidden, since none can occur.
    fn forbidden_squares(&self, piece: Piece, squares: Squares, promotes: bool) -> ForbiddenSquares
        ensures { AllowsIn self.now piece squares.bits result }
    {
        let promoting = if promotes {
            self.forbidden_promotions(piece, squares)
        } else {
            Squares::all()
        };
        ForbiddenSquares {
            non_promoting: self.captures
                | covering_squares(&self.kingless, piece, squares, self.quiet_only),
            promoting,
        }
    }

    /// An enemy piece that attacks our king after the move from `from` to `to`, with the king and
    /// the squares between. `None` if there is none, so that the move may be legal.
    fn attacker_path(&self, piece: Piece, from: Square, to: Square) -> Option<Squares>
        requires stands { piece_at self.now.board from ≡ Some piece }
        ensures { IfSome result (λ path. ExposesOwnKing (place_in self.now) path.bits from to) }
    {
        from.reveal_invariant();
        to.reveal_invariant();
        let side = self.side();
        let moved = self.board.put(from, None).put(to, Some(piece));
        let kings = moved.kings(side);
        if kings.is_empty() {
            return None;
        }
        let home = Square::of_index(lowest(kings.bits));
        let foes = moved.own(side.opponent());
        let foe = foes.find(|foe| moved.targets(foe).has(home))?;
        Some(squares_touched(&Move::Board {
            from: foe,
            to: home,
            promote: false,
        }))
    }

    /// `attacker_path` of all moves from `from` to `ends`; `None` if one has none.
    fn attacker_paths(&self, piece: Piece, from: Square, ends: Squares) -> Option<Squares>
        requires stands { piece_at self.now.board from ≡ Some piece }
        ensures { IfSome result (λ paths. ExposeOwnKingIn self.now from ends.bits paths.bits) }
    {
        let mut kept_empty = Squares::none();
        let mut left = ends.iter();
        'ends: while let Some(to) = left.next() {
            kept_empty = kept_empty | self.attacker_path(piece, from, to)?;
        }
        Some(kept_empty)
    }

    /// Whether our piece on `a` has to block our slider on `from`, which would make a threat on
    /// squares beyond.
    fn blocks(
        &self,
        piece: Piece,
        from: Square,
        targets: Squares,
        squares: Squares,
        forbidden: &ForbiddenSquares,
        promotes: bool,
        a: Square,
    ) -> bool
        requires stands { piece_at self.now.board from ≡ Some piece }
        requires targets { AreTargetsIn self.now piece from targets.bits }
        requires squares { AreOffLinesIn self.now from squares.bits }
        requires allowed { AllowsIn self.now piece squares.bits forbidden.now }
        ensures { result ≡ false → IsOwnIn self.now a → PieceGetsNoThreatIn self.now from a }
    {
        from.reveal_invariant();
        a.reveal_invariant();
        let opened = self.kingless.put(a, None).targets_of(piece, from);
        let others = (self.board.own(self.side()) | targets).except(a);
        let ends = opened.without(others);
        let more = !promotes && !(ends & promoting_squares(Some(piece), from)).is_empty();
        let sets = if more {
            self.forbidden_squares(piece, squares, true)
        } else {
            *forbidden
        };
        !sets.among(piece, from, ends).is_empty()
    }

    /// Our pieces that have to block our slider on `from`.
    fn blockers(
        &self,
        piece: Piece,
        from: Square,
        targets: Squares,
        squares: Squares,
        forbidden: &ForbiddenSquares,
        promotes: bool,
    ) -> Squares
        requires stands { piece_at self.now.board from ≡ Some piece }
        requires targets { AreTargetsIn self.now piece from targets.bits }
        requires squares { AreOffLinesIn self.now from squares.bits }
        requires allowed { AllowsIn self.now piece squares.bits forbidden.now }
        ensures { (a : ℕ) → a < 81 → has_bit targets.bits a ≡ true → has_bit result.bits a ≡ false
            → IsOwnIn self.now a → PieceGetsNoThreatIn self.now from a }
    {
        let own = self.board.own(self.side());
        (targets & own).sift(|a| {
            self.blocks(piece, from, targets, squares, forbidden, promotes, a)
        })
    }

    /// What must not change so that no move of the piece on `from` is a threat, unless it exposes
    /// our own king; `None` if a move is one. Only reply squares off the lines through `from`
    /// count, since leaving `from` may open an attack on the others.
    fn relied_on_for_piece(&self, from: Square) -> Option<ReliedOn>
        ensures no_threat { IfSome result (λ relied.
            PieceHasNoThreatIn self.now relied.empty.bits from) }
        ensures relied { IfSome result (λ relied.
            PieceGetsNoThreatsIn self.now from relied.pieces.bits) }
    {
        from.reveal_invariant();
        let piece = self.board.at(from)?;
        let targets = self.kingless.targets_of(piece, from);
        let squares = self.squares.without(line_mask(from));
        let ends = targets & promoting_squares(Some(piece), from);
        let promotes = !ends.is_empty();
        let sets = self.forbidden_squares(piece, squares, promotes);
        let forbidden = sets.among(piece, from, targets);
        let kept_empty = self.attacker_paths(
            piece,
            from,
            forbidden.without(self.board.own(self.side())),
        )?;
        let pieces = if piece.role.is_sliding() {
            self.blockers(piece, from, targets, squares, &sets, promotes)
        } else {
            forbidden
        };
        Some(ReliedOn {
            pieces,
            empty: kept_empty,
        })
    }

    /// What must not change so that no board move of ours is a threat.
    fn relied_on_for_pieces(&self) -> Option<ReliedOn>
        ensures no_threat { IfSome result (λ relied.
            PiecesHaveNoThreatIn self.now relied.empty.bits) }
        ensures relied { IfSome result (λ relied.
            PiecesGetNoThreatsIn self.now relied.pieces.bits) }
    {
        let mut pieces = Squares::none();
        let mut kept_empty = Squares::none();
        let mut left = self.board.own(self.side()).iter();
        'pieces: while let Some(from) = left.next() {
            let relied = self.relied_on_for_piece(from)?;
            pieces = pieces | relied.pieces;
            kept_empty = kept_empty | relied.empty;
        }
        Some(ReliedOn {
            pieces,
            empty: kept_empty,
        })
    }

    /// The occupied squares on which a drop of the kind would cover every reply square, if they
    /// became empty. `None` if it does so on an empty square; none if no such piece is in hand.
    fn relied_on_for_kind(&self, kind: Kind) -> Option<Squares>
        ensures no_threat { IfSome result (λ relied. DropsAreNoThreatIn self.now kind) }
        ensures relied { IfSome result (λ relied. DropsGetNoThreatsIn self.now kind relied.bits) }
    {
        let side = self.side();
        if self.node.as_position().hand(side, kind) == 0 {
            return Some(Squares::none());
        }
        let piece = dropped(side, kind)?;
        let covered = covering_squares(
            &self.kingless,
            piece,
            self.squares,
            self.quiet_only,
        ).without(dead_squares(Some(piece)));
        if !(covered & self.board.free()).is_empty() {
            return None;
        }
        Some(covered)
    }

    /// `relied_on_for_kind` of all kinds together.
    fn relied_on_for_kinds(&self) -> Option<Squares>
        ensures no_threat { IfSome result (λ relied. (kind : Kind)
            → DropsAreNoThreatIn self.now kind) }
        ensures relied { IfSome result (λ relied. (kind : Kind)
            → DropsGetNoThreatsIn self.now kind relied.bits) }
    {
        let pawn = self.relied_on_for_kind(Kind::Pawn)?;
        let lance = self.relied_on_for_kind(Kind::Lance)?;
        let knight = self.relied_on_for_kind(Kind::Knight)?;
        let silver = self.relied_on_for_kind(Kind::Silver)?;
        let gold = self.relied_on_for_kind(Kind::Gold)?;
        let bishop = self.relied_on_for_kind(Kind::Bishop)?;
        let rook = self.relied_on_for_kind(Kind::Rook)?;
        Some(pawn | lance | knight | silver | gold | bishop | rook)
    }

    /// The squares on open lines with the enemy king or a reply square: a piece of ours that leaves
    /// one could open an attack.
    fn open_lines(&self) -> Squares
        ensures { CoversOpenLinesIn self.now result.bits }
    {
        let seen = self
            .squares
            .union(|square| self.kingless.open_lines(square));
        seen | self.kingless.open_lines(self.king)
    }

    /// What must not change so that we have no threat, even after one of our pieces outside the
    /// result has left its square; `None` if we have a threat.
    pub fn relied_on(&self) -> Option<ReliedOn>
        ensures no_threats { IfSome result (λ relied. HasNoThreatsIn self.now relied.empty.bits) }
        ensures relied { IfSome result (λ relied.
            HasNoThreatsWithout self.now relied.empty.bits relied.pieces.bits) }
    {
        self.king.reveal_invariant();
        let relied = self.relied_on_for_pieces()?;
        let kinds = self.relied_on_for_kinds()?;
        Some(ReliedOn {
            pieces: relied.pieces | relied.empty | kinds | self.open_lines(),
            empty: relied.empty,
        })
    }

    /// Whether the piece on `to` attacks neither the enemy king nor a reply square, and no next
    /// move of it is a threat.
    fn is_unthreatening(&self, piece: Piece, forbidden: &ForbiddenSquares, to: Square) -> bool
        requires allowed { AllowsIn self.now piece self.now.squares.bits forbidden.now }
        ensures { result ≡ true → IsUnthreateningIn self.now (Some piece) to }
    {
        let reach = self.kingless.targets_of(piece, to);
        if self.squares.has(to) || !(reach & self.squares.with(self.king)).is_empty() {
            return false;
        }
        let targets = reach.without(self.board.own(self.side()));
        forbidden.among(piece, to, targets).is_empty()
    }

    /// The `squares` on which the piece makes no threat.
    pub fn unthreatening_squares(&self, piece: Piece, squares: Squares) -> Squares
        ensures among { (n : ℕ) → has_bit result.bits n ≡ true → has_bit squares.bits n ≡ true }
        ensures unthreatening { AreUnthreateningIn self.now (Some piece) result.bits }
    {
        let near_zone = squares & squares_near_zone(self.side());
        let promotes = is_promotable(piece.role)
            && (piece.role.is_sliding() || !near_zone.is_empty());
        let forbidden = self.forbidden_squares(piece, self.squares, promotes);
        squares.sift(|to| self.is_unthreatening(piece, &forbidden, to))
    }

    /// The `squares` on which a dropped piece of the kind makes no threat; all of them if none is
    /// in hand.
    pub fn unthreatening_drops(&self, kind: Kind, squares: Squares) -> Squares
        ensures among { (n : ℕ) → has_bit result.bits n ≡ true → has_bit squares.bits n ≡ true }
        ensures unthreatening { AreUnthreateningDropsIn self.now kind result.bits }
    {
        let side = self.side();
        if self.node.as_position().hand(side, kind) == 0 {
            return squares;
        }
        match dropped(side, kind) {
            Some(piece) => self.unthreatening_squares(piece, squares),
            None => Squares::none(),
        }
    }

    /// The position without the piece on `from`.
    fn lifted(&self, from: Square) -> PassedReply
        requires king_replies { KingHasRepliesLifted self.now from }
        ensures board { place_in result ≡ lifted (place_in self.now) from }
        ensures unchanged { IsAlike self.now result }
    {
        PassedReply {
            node: self.node,
            board: self.board.put(from, None),
            king: self.king,
            kingless: self.kingless.put(from, None),
            squares: self.squares,
            gains: self.gains,
            captures: self.captures,
            quiet_only: self.quiet_only,
        }
    }

    /// `ends` without those of `targets` on which the piece from `from` makes a threat.
    fn unthreatening_ends_of(&self, from: Square, targets: Squares, ends: Squares) -> Squares
        requires king_replies { KingHasRepliesLifted self.now from }
        ensures among { (n : ℕ) → has_bit result.bits n ≡ true → has_bit ends.bits n ≡ true }
        ensures unthreatening { IsUnthreateningFrom self.now from targets.bits result.bits }
    {
        match self.board.at(from) {
            Some(piece) => {
                let met = targets & ends;
                if met.is_empty() {
                    return ends;
                }
                let unthreatening = self.lifted(from).unthreatening_squares(piece, met);
                ends.without(targets) | unthreatening
            }
            None => Squares::none(),
        }
    }

    /// The `ends` on which each of `pieces` that could move there in `before` makes no threat. One
    /// set serves all pieces: a set for each would save little.
    pub fn unthreatening_ends(&self, before: &Position, pieces: Squares, ends: Squares) -> Squares
        requires king_replies { KingHasRepliesEachLifted self.now pieces.bits }
        ensures among { (n : ℕ) → has_bit result.bits n ≡ true → has_bit ends.bits n ≡ true }
        ensures unthreatening { AreUnthreateningEnds self.now before.now.cells pieces.bits result.bits }
    {
        let mut kept = ends;
        let mut left = pieces.iter();
        'pieces: while let Some(from) = left.next() {
            kept = self.unthreatening_ends_of(from, before.as_board().targets(from), kept);
        }
        kept
    }
}
