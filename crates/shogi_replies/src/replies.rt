//! Whether the opponent surely has a legal reply after a move, found without making it.

ghost use Rattle.std.specs.Prelude.{◌≡◌, ◌≢◌, [], true, false, bit_and};
ghost use Rattle.std.proofs.Props.{props};
ghost use Rattle.shogi_core.specs.Bits.{has_bit};
ghost use Rattle.shogi_core.specs.Pieces.{opponent_of};
ghost use Rattle.shogi_moves.specs.After.{after};
ghost use Rattle.shogi_moves.specs.Destinations.{IsWithin};
ghost use Rattle.shogi_moves.specs.Escapes.{AreEscapes};
ghost use Rattle.shogi_moves.specs.Legal.{is_legal};
ghost use Rattle.shogi_moves.specs.Origins.{put_from};
ghost use Rattle.shogi_replies.specs.ReplyInfo.{AreQuietSteps, ChecksAmong, HasOthers, LeaveFreeMovers, holds_free, Sees, Aligns, IsReplyInfoOf, IsUnseen, HasQuietReply, IsHarmless, StaysCovered, DiscoversNoCheck, AreGuaranteed, AreDistant, GuaranteesReplies, PromotesWithin, DiscoversChecksWithin, OpensChecksWithin, AreOpen, AreAmong, ChecksWithin, GuaranteeReplies, AreAlwaysGuaranteed};
ghost use Rattle.shogi_replies.specs.Threats.{KeepsThreats, MayRetake};

use crate::far::non_checking_pieces;
use crate::move_filter::MoveFilter;
use shogi_core::bits::{lowest, without_lowest};
use shogi_core::zones::{dead_squares, promoting_squares};
use shogi_core::{Color, Kind, Move, Piece, Position, Square, Squares, line_mask, step_squares};
use shogi_moves::{Origin, dropped, matching_destinations, piece_moved};

/// What shows, after most moves, that the opponent is in no check and has a legal quiet reply: no
/// capture, no promotion. `free_movers` holds pieces with steps to empty squares, or all empty
/// squares if a piece in hand may be dropped on each. While one of them is not the move's
/// destination, such a step or drop remains.
#[derive(Clone, Copy, Debug)]
pub struct ReplyInfo {
    pub king_view: Squares,
    pub free_movers: Squares,
}

/// A position with its reply info and some squares to which the opponent's king may go if a move
/// gives it check.
#[derive(Clone, Copy)]
pub struct KnownReplies<'a> {
    pub position: &'a Position,
    pub info: ReplyInfo,
    pub escapes: Squares,
    ghost right: { IsReplyInfoOf info position.now } by { Prim.hlevel props },
    ghost escaping: { AreEscapes position.now escapes.bits } by { Prim.hlevel props },
}

/// The squares of the side's kings, of open lines with them, and a knight's jump away.
#[tactic(auto, using(crate::proofs::ReplyLaws::seeing))]
fn king_view_squares(p: &Position, side: Color) -> Squares
    ensures { Sees p.now.cells side 0 result.bits }
{
    let board = p.as_board();
    let kings = board.kings(side);
    let mut king_view = kings;
    let mut left = kings.iter();
    'kings: while let Some(king) = left.next() {
        king_view = king_view | board.queen_and_knight_view(king);
    }
    king_view
}

/// The squares of the side's kings and of all lines with them, whatever stands between.
#[tactic(auto, using(crate::proofs::ReplyLaws::seeing))]
pub fn king_line_mask(p: &Position, side: Color) -> Squares
    ensures { Aligns p.now.cells side 0 result.bits }
{
    let kings = p.as_board().kings(side);
    let mut lines = kings;
    let mut left = kings.iter();
    'kings: while let Some(king) = left.next() {
        lines = lines | line_mask(king);
    }
    lines
}

/// Whether the piece on `from` may block a slider from a king of `side`: such a slider is on a line
/// with the king and on an open line with `from`.
fn may_discover_check(p: &Position, side: Color, from: Square) -> bool
    ensures { result ≡ false → StaysCovered p.now.cells side from }
{
    let snipers = p.as_board().snipers(side) & line_mask(from);
    !snipers.is_empty() && !(p.as_board().open_lines(from) & snipers).is_empty()
}

/// Whether another piece of the side to move attacks the opponent's king once the piece on `from`
/// has gone to `to`.
#[inline(never)]
fn discovers_check(p: &Position, from: Square, to: Square) -> bool
    ensures { result ≡ false → DiscoversNoCheck p.now from to }
{
    p.reveal_invariant();
    from.reveal_invariant();
    to.reveal_invariant();
    match p.king(p.side().opponent()) {
        None => false,
        Some(king) => {
            king.reveal_invariant();
            let board = p.as_board();
            let others = board.own(p.side()).except(from);
            let occupied = board.occupied().except(from).with(to);
            board.is_attacked_among(king, others, occupied)
        }
    }
}

/// The empty squares to which the piece on `from` steps and from which it can move again without
/// promotion.
pub fn quiet_steps(p: &Position, from: Square) -> Squares
    ensures { AreQuietSteps p.now.cells from result.bits }
{
    let cell = p.at(from);
    match cell {
        None => Squares::none(),
        Some(piece) => {
            let steps = step_squares(piece, from) & p.as_board().free();
            steps.without(dead_squares(cell))
        }
    }
}

/// Whether the set has two squares or more.
pub fn has_two(squares: Squares) -> bool
    ensures { result ≡ true → HasOthers squares.bits }
{
    if squares.is_empty() {
        return false;
    }
    without_lowest(squares.bits, lowest(squares.bits)) != 0
}

/// Pieces of the side that have a quiet step and are off all lines with its own king, which they
/// therefore never expose. It stops at two pieces with two end squares, as one move can end on only
/// one of each. With a single end square the result is empty.
fn free_moving_pieces(p: &Position, side: Color, lines: Squares) -> Squares
    requires { Aligns p.now.cells side 0 lines.bits }
    ensures { LeaveFreeMovers p.now.cells side result.bits }
{
    let mut left = p.as_board().own(side).without(lines).iter();
    let mut kept = Squares::none();
    let mut ends = Squares::none();
    'pieces: while let Some(from) = left.next() {
        let steps = quiet_steps(p, from);
        if !steps.is_empty() {
            kept = kept.with(from);
            ends = ends | steps;
            if has_two(kept) && has_two(ends) {
                return kept;
            }
        }
    }
    if has_two(ends) { kept } else { Squares::none() }
}

/// Whether the piece, put on `to`, attacks a king of `side`.
#[inline(never)]
fn attacks_king(p: &Position, side: Color, cell: Option<Piece>, to: Square) -> bool
    ensures { result ≡ false → IsHarmless p.now.cells side cell to }
{
    match cell {
        None => false,
        Some(piece) => {
            let board = p.as_board();
            !(board.targets_of(piece, to) & board.kings(side)).is_empty()
        }
    }
}

/// The squares from which the piece would attack a king of `side`: those that it would reach from
/// the king's square in the other colour.
fn check_squares(p: &Position, side: Color, cell: Option<Piece>) -> Squares
    ensures { ChecksWithin p.now.cells side cell result.bits }
{
    let Some(piece) = cell else {
        return Squares::none()
    };
    let back = Piece {
        color: piece.color.opponent(),
        role: piece.role,
    };
    let board = p.as_board();
    let mut left = board.kings(side).iter();
    let mut checks = Squares::none();
    'kings: while let Some(king) = left.next() {
        checks = checks | board.targets_of(back, king);
    }
    checks
}

/// Whether the side has a piece in hand that it may drop on every empty square when it is in no
/// check: a pawn, a lance or a knight cannot stand on each.
fn holds_free(p: &Position, side: Color) -> bool
    ensures { result ≡ holds_free p.now.hands side }
{
    p.hand(side, Kind::Silver) > 0
        || p.hand(side, Kind::Gold) > 0
        || p.hand(side, Kind::Bishop) > 0
        || p.hand(side, Kind::Rook) > 0
}

/// Whether `non_promoting` has all of `ends`, and `promoting` all at which a move from `from` may
/// promote.
#[inline(always)]
fn are_among(
    p: &Position,
    from: Square,
    ends: Squares,
    non_promoting: Squares,
    promoting: Squares,
) -> bool
    ensures non_promoting { result ≡ true → AreAmong ends.bits non_promoting.bits }
    ensures promoting { result ≡ true → PromotesWithin p.now.cells from ends.bits promoting.bits }
{
    if !ends.without(non_promoting).is_empty() {
        return false;
    }
    if ends.without(promoting).is_empty() {
        return true;
    }
    let promoted = ends & promoting_squares(p.at(from), from);
    promoted.without(promoting).is_empty()
}

impl ReplyInfo {
    /// The reply info of the position.
    pub fn of(p: &Position) -> ReplyInfo
        ensures { IsReplyInfoOf result p.now }
    {
        let opponent = p.side().opponent();
        let king_view = king_view_squares(p, opponent);
        let free_movers = if holds_free(p, opponent) {
            p.as_board().free()
        } else {
            free_moving_pieces(p, opponent, king_line_mask(p, opponent))
        };
        ReplyInfo {
            king_view,
            free_movers,
        }
    }

    /// Reply info that claims nothing: every square counts as seen, and no mover is known.
    pub fn unknown(p: &Position) -> ReplyInfo
        ensures { IsReplyInfoOf result p.now }
    {
        let _ = p;
        ReplyInfo {
            king_view: Squares::all(),
            free_movers: Squares::none(),
        }
    }

    /// The position with its own reply info and with escapes of the opponent's king.
    #[inline(always)]
    pub fn at(self, position: &Position, escapes: Squares) -> KnownReplies<'_>
        requires replies { IsReplyInfoOf self position.now }
        requires escapes { AreEscapes position.now escapes.bits }
        ensures position { result.position.now ≡ position.now }
        ensures info { result.info ≡ self }
        ensures escapes { result.escapes ≡ escapes }
    {
        KnownReplies {
            position,
            info: self,
            escapes,
        }
    }

    /// Whether neither `from` nor any of the `squares` is in the king view.
    #[inline(always)]
    pub fn is_unseen(&self, from: Square, squares: Squares) -> bool
        ensures { result ≡ true → IsUnseen self.now from squares.bits }
    {
        (squares & self.king_view).is_empty() && !self.king_view.has(from)
    }

    /// The squares outside `closed` on which a move may end and leave a free mover elsewhere.
    fn open_squares(&self, closed: Squares) -> Squares
        ensures { AreOpen closed.bits self.now.free_movers.bits result.bits }
    {
        if self.free_movers.is_empty() {
            return Squares::none();
        }
        let open = Squares::all().without(closed);
        let one = lowest(self.free_movers.bits);
        if without_lowest(self.free_movers.bits, one) != 0 {
            return open;
        }
        open.except(Square::of_index(one))
    }
}

impl KnownReplies<'_> {
    /// True only if the piece, put on `to`, attacks no king of the opponent.
    #[inline(always)]
    fn is_harmless(&self, cell: Option<Piece>, to: Square) -> bool
        ensures { result ≡ true → IsHarmless self.now.position.now.cells
            (opponent_of self.now.position.now.side) cell to }
    {
        to.reveal_invariant();
        if self.info.king_view.has(to) {
            let p = self.position;
            return !attacks_king(p, p.side().opponent(), cell, to);
        }
        true
    }

    /// The squares to which a move from `from` may discover a check. There are none if `from` is
    /// off the king view, and all if the piece may block a slider. A slider else has the king's
    /// lines, on which its own square may have blocked it.
    #[inline(always)]
    fn discovering_squares(&self, from: Square) -> Squares
        ensures { DiscoversChecksWithin self.now.position.now
            self.now.info.king_view.bits from result.bits }
    {
        from.reveal_invariant();
        if !self.info.king_view.has(from) {
            return Squares::none();
        }
        let p = self.position;
        let side = p.side().opponent();
        if may_discover_check(p, side, from) {
            return Squares::all();
        }
        if p.as_board().sliders().has(from) {
            king_line_mask(p, side)
        } else {
            Squares::none()
        }
    }

    /// Whether the piece on `from` may discover a check by its move to `to`.
    #[inline(always)]
    fn discovers(&self, from: Square, to: Square) -> bool
        ensures { result ≡ false → DiscoversNoCheck self.now.position.now from to }
    {
        self.position.reveal_invariant();
        from.reveal_invariant();
        to.reveal_invariant();
        if self.discovering_squares(from).has(to) {
            return discovers_check(self.position, from, to);
        }
        false
    }

    /// True only if after the legal move the opponent is in no check and has a quiet legal reply.
    /// It may then also carry out each threat that the move leaves, and capture on the move's
    /// destination.
    #[inline(always)]
    pub fn guarantees_reply(&self, m: &Move) -> bool
        requires legal { is_legal self.now.position.now m.now ≡ true }
        ensures replied { result ≡ true → HasQuietReply self.now.position.now m.now }
        ensures threats { result ≡ true → KeepsThreats self.now.position.now m.now }
        ensures retakes { result ≡ true → MayRetake self.now.position.now m.now }
    {
        let p = self.position;
        p.reveal_invariant();
        match m {
            Move::Board { from, to, promote } => {
                from.reveal_invariant();
                to.reveal_invariant();
                if !self.is_harmless(piece_moved(p.at(*from), *promote), *to) {
                    return false;
                }
                if self.discovers(*from, *to) {
                    return false;
                }
                !self.info.free_movers.except(*to).is_empty()
            }
            Move::Drop { kind, to } => {
                to.reveal_invariant();
                if !self.is_harmless(dropped(p.side(), *kind), *to) {
                    return false;
                }
                !self.info.free_movers.except(*to).is_empty()
            }
        }
    }

    /// True only if the legal move discovers no check. Every attack of the opponent on its
    /// destination may then capture there, even if the move gives check.
    pub fn discovers_no_check(&self, m: &Move) -> bool
        requires legal { is_legal self.now.position.now m.now ≡ true }
        ensures { result ≡ true → MayRetake self.now.position.now m.now }
    {
        let p = self.position;
        p.reveal_invariant();
        match m {
            Move::Board { from, to, .. } => {
                from.reveal_invariant();
                to.reveal_invariant();
                !self.info.king_view.has(*from)
                    || !may_discover_check(p, p.side().opponent(), *from)
            }
            Move::Drop { to, .. } => {
                to.reveal_invariant();
                true
            }
        }
    }

    /// The `destinations` on which the piece of the origin may give check.
    #[inline(always)]
    fn checking_squares(&self, origin: &Origin, destinations: Squares) -> Squares
        ensures { ChecksAmong self.now.position.now
            (put_from self.now.position.now origin.now) destinations.bits result.bits }
    {
        let seen = destinations & self.info.king_view;
        if seen.is_empty() {
            return Squares::none();
        }
        let p = self.position;
        seen & check_squares(p, p.side().opponent(), origin.put(p))
    }

    /// Pieces of the side to move far from the opponent's kings, whose every move of the kind is in
    /// the filter, leaves a legal reply and gives no check. The result is empty unless the filter
    /// has all destinations of the kind.
    pub fn non_checking_pieces(&self, capture: bool, move_filter: &MoveFilter) -> Squares
        ensures { GuaranteeReplies self.now.position.now capture
            move_filter.now self.now.escapes.bits result.bits }
    {
        let p = self.position;
        p.reveal_invariant();
        let open = self.info.open_squares(Squares::none());
        if !Squares::all().without(open).is_empty() {
            return Squares::none();
        }
        let ends = matching_destinations(p, capture);
        if !ends.without(move_filter.squares).is_empty() {
            return Squares::none();
        }
        non_checking_pieces(p, self.info.king_view, move_filter.promotes) & move_filter.pieces
    }

    /// Pieces of the side to move far from the opponent's kings, whose every move, promoting or
    /// not, leaves a legal reply.
    pub fn distant_pieces(&self) -> Squares
        ensures { AreDistant self.now.position.now result.bits }
    {
        self.position.reveal_invariant();
        let open = self.info.open_squares(Squares::none());
        if !Squares::all().without(open).is_empty() {
            return Squares::none();
        }
        non_checking_pieces(self.position, self.info.king_view, true)
    }

    /// True only if the filter has each move of the kind from `from`, and each leaves a legal reply
    /// and, without escapes, gives no check. Legality of the moves themselves is not tested.
    #[inline(always)]
    pub fn guarantees_replies(&self, capture: bool, move_filter: &MoveFilter, from: Square) -> bool
        ensures { result ≡ true → GuaranteesReplies self.now.position.now capture
            move_filter.now self.now.escapes.bits from }
    {
        let p = self.position;
        p.reveal_invariant();
        from.reveal_invariant();
        if !move_filter.pieces.has(from) {
            return false;
        }
        let promotions = move_filter.promotions();
        let ends = p.as_board().targets(from) & matching_destinations(p, capture);
        if self.info.is_unseen(from, ends) {
            let guaranteed = self.unseen_destinations(from, ends);
            return are_among(
                p,
                from,
                ends,
                move_filter.squares & guaranteed,
                promotions & guaranteed,
            );
        }
        let promoting = ends & promoting_squares(p.at(from), from);
        if !(ends.without(move_filter.squares) | promoting.without(promotions)).is_empty() {
            return false;
        }
        let promote = false;
        let guaranteed = self.guaranteed_destinations(&Origin::Board { from, promote }, ends);
        if !ends.without(guaranteed).is_empty() {
            return false;
        }
        let promote = true;
        let promoted = self.guaranteed_destinations(&Origin::Board { from, promote }, promoting);
        let uncertain = ends.without(move_filter.squares & guaranteed)
            | promoting.without(promotions & promoted);
        uncertain.is_empty()
    }

    /// The `destinations` to which the piece on `from` surely leaves a legal reply and gives no
    /// check, given that neither `from` nor these are in the king view.
    #[inline(always)]
    fn unseen_destinations(&self, from: Square, destinations: Squares) -> Squares
        requires { IsUnseen self.now.info from destinations.bits }
        ensures among { IsWithin result.bits destinations.bits }
        ensures guaranteed { AreAlwaysGuaranteed self.now.position.now from result.bits }
    {
        self.position.reveal_invariant();
        from.reveal_invariant();
        destinations & self.info.open_squares(Squares::none())
    }

    /// The squares to which a move of the origin may discover a check; none for a drop.
    #[inline(always)]
    fn discovering_from(&self, origin: &Origin) -> Squares
        ensures { OpensChecksWithin self.now.position.now
            self.now.info.king_view.bits origin.now result.bits }
    {
        match origin {
            Origin::Board { from, .. } => {
                from.reveal_invariant();
                self.discovering_squares(*from)
            }
            Origin::Drop { .. } => Squares::none(),
        }
    }

    /// The `destinations` at which a move of the origin surely leaves a legal reply and gives no
    /// check.
    #[inline(always)]
    pub fn non_checking_destinations(&self, origin: &Origin, destinations: Squares) -> Squares
        ensures among { IsWithin result.bits destinations.bits }
        ensures guaranteed { AreGuaranteed self.now.position.now 0 origin.now result.bits }
    {
        self.position.reveal_invariant();
        if destinations.is_empty() {
            return Squares::none();
        }
        let closed = self.checking_squares(origin, destinations) | self.discovering_from(origin);
        destinations & self.info.open_squares(closed)
    }

    /// The `destinations` at which a move of the origin surely leaves a legal reply: the opponent
    /// is in no check, or its king keeps one of the escapes.
    #[inline(always)]
    pub fn guaranteed_destinations(&self, origin: &Origin, destinations: Squares) -> Squares
        ensures among { IsWithin result.bits destinations.bits }
        ensures guaranteed { AreGuaranteed self.now.position.now
            self.now.escapes.bits origin.now result.bits }
    {
        let open = self.non_checking_destinations(origin, destinations);
        if open.bits == destinations.bits || self.escapes.is_empty() {
            return open;
        }
        open | self.escaped_destinations(origin, destinations.without(open))
    }
}
