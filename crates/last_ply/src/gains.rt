//! Upper bounds of the scores of a node's legal moves.

ghost use Rattle.std.specs.Prelude.{◌≡◌, ◌≤◌, ◌*◌, ◌≤ℤ◌, ◌<ℤ◌, true, bit_and};
ghost use Rattle.shogi_moves.specs.CheckInfo.{is_check};
ghost use Rattle.shogi_moves.specs.Destinations.{IsWithin};
ghost use Rattle.shogi_eval.specs.declared.gain.TheConstants.{PROMOTION_GAIN_MAX};
ghost use Rattle.shogi_eval.specs.declared.points.TheConstants.{PIECE_VALUE_MAX};
ghost use Rattle.last_ply.specs.LastPly.{base_of, HasReachers, NodeHasScore, NodeScoresAmongAtMost, NodeScoresAtMost, NodeScoresFromAtMost, NodeScoresToAtMost, NonSliderGainAtMost, OnEach, Outside, TakesLittle};
ghost use Rattle.last_ply.specs.FrontierNodes.{OthersCannotMove, OthersScoreAtMost, OthersTakeLittle};

use crate::frontier::FrontierNode;
use crate::moving_piece::MovingPiece;
use shogi_core::zones::{promoting_squares, squares_near_zone};
use shogi_core::{Color, Piece, Role, Square, Squares, line_mask, near_squares};
use shogi_eval::{Eval, PROMOTION_GAIN_MAX, promotion_gain, taken_gain};
use shogi_moves::takers;

/// The most points that the capture of a non-slider gains: those for a gold.
fn max_nonslider_gain(e: Eval) -> u32
    ensures most { NonSliderGainAtMost e result }
    ensures least { PROMOTION_GAIN_MAX ≤ result }
    ensures range { result ≤ 2 * PIECE_VALUE_MAX }
{
    let gold = Piece {
        color: Color::Black,
        role: Role::Gold,
    };
    taken_gain(e, Some(gold))
}

impl MovingPiece<'_> {
    /// The score of the piece's move to the square if it is legal and exceeds `floor`; `floor`
    /// otherwise.
    fn best_score_to(&self, to: Square, promote: bool, floor: i32) -> i32
        ensures least { floor ≤ℤ result }
        ensures at { NodeScoresToAtMost self.now.frontier.now.node.now
            result self.now.from to promote }
        ensures some { floor <ℤ result → NodeHasScore self.now.frontier.now.node.now result }
    {
        let raw = self.raw_to(to, promote);
        if raw <= floor {
            return floor;
        }
        if !self.is_end(to, promote) {
            return floor;
        }
        self.scored_to(to, promote, raw).score_above(floor)
    }

    /// The greatest score of the piece's legal moves to `squares`, promoting or not, or `floor` if
    /// none exceeds it.
    #[inline(always)]
    fn best_score_among(&self, promote: bool, squares: Squares, floor: i32) -> i32
        ensures least { floor ≤ℤ result }
        ensures all { NodeScoresAmongAtMost self.now.frontier.now.node.now
            self.now.from promote (bit_and self.now.targets.bits squares.bits) result }
        ensures some { floor <ℤ result → NodeHasScore self.now.frontier.now.node.now result }
    {
        let mut best = floor;
        let mut left = (self.targets & squares).iter();
        'ends: while let Some(to) = left.next() {
            best = self.best_score_to(to, promote, best);
        }
        best
    }

    /// The greatest score of the piece's legal captures and promotions, or `floor` if none exceeds
    /// it. Any other legal move scores the node's material.
    fn best_score(&self, floor: i32) -> i32
        ensures least { floor ≤ℤ result }
        ensures all { base_of self.now.frontier.now.node.now ≤ℤ floor
            → NodeScoresFromAtMost self.now.frontier.now.node.now result self.now.from }
        ensures some { floor <ℤ result → NodeHasScore self.now.frontier.now.node.now result }
    {
        let from = self.from;
        from.reveal_invariant();
        let foe = self.frontier.foe;
        let zone = promoting_squares(self.frontier.node.as_position().at(from), from);
        if (self.targets & foe | self.targets & zone).is_empty() {
            return floor;
        }
        let best = self.best_score_among(false, foe, floor);
        self.best_score_among(true, zone, best)
    }
}

impl FrontierNode<'_> {
    /// A superset of the squares whose pieces reach `square`.
    fn squares_reaching(&self, square: Square) -> Squares
        ensures { HasReachers self.now.node.now.position.cells result.bits square }
    {
        square.reveal_invariant();
        let board = self.node.as_position().as_board();
        near_squares(square) | board.sliders() & line_mask(square)
    }

    /// A superset of the squares whose pieces may capture on `square` for more than `floor`; none
    /// if no capture there scores more, even with the dearest promotion.
    fn squares_taking(&self, square: Square, floor: i32) -> Squares
        ensures { Outside result.bits (TakesLittle self.now.node.now floor square) }
    {
        let p = self.node.as_position();
        let taken = taken_gain(self.node.eval(), p.at(square));
        if self.node.score() + (taken + PROMOTION_GAIN_MAX) as i32 <= floor {
            return Squares::none();
        }
        self.squares_reaching(square)
    }

    /// The pieces of the side to move that may capture one of the `victims` and score more than
    /// `floor`.
    fn takers_above(&self, victims: Squares, floor: i32) -> Squares
        ensures within { IsWithin result.bits self.now.own.bits }
        ensures others { OthersTakeLittle self.now floor victims.bits result.bits }
    {
        let mut squares = Squares::none();
        let mut left = victims.iter();
        'victims: while let Some(square) = left.next() {
            squares = squares | self.squares_taking(square, floor);
        }
        self.own & squares
    }

    /// A superset of the squares whose pieces reach one of `squares`.
    fn squares_reaching_some(&self, squares: Squares) -> Squares
        ensures { OnEach squares.bits (HasReachers self.now.node.now.position.cells result.bits) }
    {
        let mut found = Squares::none();
        let mut left = squares.iter();
        'squares: while let Some(square) = left.next() {
            found = found | self.squares_reaching(square);
        }
        found
    }

    /// In check, the kings of the side to move and its pieces that may reach an evasion square; no
    /// other piece has a legal move.
    fn evaders(&self) -> Squares
        requires { is_check self.now.known.info ≡ true }
        ensures within { IsWithin result.bits self.now.own.bits }
        ensures others { OthersCannotMove self.now result.bits }
    {
        let p = self.node.as_position();
        p.reveal_invariant();
        let answers = self.known.info.squares().without(self.own);
        let reaching = self.squares_reaching_some(answers);
        self.own & (p.as_board().kings(p.side()) | reaching)
    }

    /// The pieces of the side to move; in check only those that may evade it.
    pub fn movable(&self) -> Squares
        ensures within { IsWithin result.bits self.now.own.bits }
        ensures others { OthersCannotMove self.now result.bits }
    {
        if self.known.info.is_check() {
            return self.evaders();
        }
        self.own
    }

    /// The pieces of the side to move that may score more than `floor`; in check, those that may
    /// evade it. They capture a slider, a piece dear enough or any piece, or only promote, as the
    /// gap from the node's material to `floor` allows.
    pub fn gainers(&self, floor: i32) -> Squares
        ensures within { IsWithin result.bits self.now.own.bits }
        ensures others { base_of self.now.node.now ≤ℤ floor
            → OthersScoreAtMost self.now floor result.bits }
    {
        if self.known.info.is_check() {
            return self.evaders();
        }
        let p = self.node.as_position();
        let sliders = p.as_board().sliders();
        let base = self.node.score();
        let still = max_nonslider_gain(self.node.eval());
        if base + (still + PROMOTION_GAIN_MAX) as i32 <= floor {
            return self.takers_above(self.foe & sliders, floor);
        }
        if base + still as i32 <= floor {
            return self.takers_above(self.foe, floor);
        }
        let takers = takers(p, self.own);
        if base + PROMOTION_GAIN_MAX as i32 <= floor {
            return takers;
        }
        takers | self.own & (squares_near_zone(p.side()) | sliders)
    }

    /// The greatest score of a legal move, or the greater of alpha and the node's material if none
    /// exceeds both. Stops at the first score of at least beta.
    pub fn best_score(&self, alpha: i32, beta: i32) -> i32
        ensures alpha { alpha ≤ℤ result }
        ensures base { base_of self.now.node.now ≤ℤ result }
        ensures all { result <ℤ beta → NodeScoresAtMost self.now.node.now result }
        ensures some { alpha <ℤ result
            → base_of self.now.node.now <ℤ result → NodeHasScore self.now.node.now result }
    {
        let floor = alpha.max(self.node.score());
        let mut best = floor;
        let mut left = self.gainers(floor).iter();
        'pieces: while let Some(from) = left.next() {
            best = self.moving_piece(from).best_score(best);
            if best >= beta {
                return best;
            }
        }
        best
    }
}
