//! Threats: gains of the opponent that stand after most moves.

ghost use Rattle.std.specs.Prelude.{◌≡◌, ◌≤◌, ◌<◌, ◌^◌, ◌⊎◌, ℕ, Bool, Some, true};
ghost use Rattle.std.specs.Option.{ForSome};
ghost use Rattle.shogi_core.specs.Cell.{is_slider};
ghost use Rattle.shogi_core.specs.Position.{Shogi};
ghost use Rattle.shogi_eval.specs.declared.eval.Eval.{Eval};
ghost use Rattle.shogi_replies.specs.Threats.{IsUnpinnable};
ghost use Rattle.search_nodes.specs.Threats.{AreNonInterfering, AreSomeThreats, AreThreatEnds, GainsAfter, HoldsPinning, IsCandidateIn, IsThreatIn, SurvivesAt, SurvivesMove};

use shogi_core::{Move, Piece, Position, Square, Squares, line_mask};
use shogi_eval::{Eval, promotion_gain, taken_gain};
use shogi_replies::{attacks_of, king_line_mask, squares_between, unpinnable_pieces};

/// A move of an unpinnable piece of the opponent to a square without a piece of its side, and its
/// gain; no move if the gain is 0.
#[derive(Clone, Copy)]
pub struct ThreatCandidate {
    pub gain: u32,
    pub from: Square,
    pub target: Square,
    pub promote: bool,
}

/// A threat with a gain. `way` has its squares and all between them, `line` those on which a new
/// slider might pin the attacker.
#[derive(Clone, Copy)]
pub struct Threat {
    pub way: Squares,
    pub line: Squares,
    pub gain: u32,
    pub from: Square,
    pub target: Square,
    pub promote: bool,
}

/// Squares on which an unpinnable piece may capture without promotion, and a threat of the greatest
/// gain.
#[derive(Clone, Copy)]
pub struct Threats {
    pub takes: Squares,
    pub greatest: Option<Threat>,
}

impl ThreatCandidate {
    /// No candidate.
    #[inline(always)]
    fn none() -> ThreatCandidate
        ensures { result.gain ≡ 0 }
    {
        let square = Square::of_index(0);
        ThreatCandidate {
            gain: 0,
            from: square,
            target: square,
            promote: false,
        }
    }

    /// The better one of this candidate and the piece's moves to `ends`.
    #[inline(always)]
    fn with_ends(
        self,
        p: &Position,
        e: Eval,
        from: Square,
        promote: bool,
        ends: Squares,
    ) -> ThreatCandidate
        requires candidate { IsCandidateIn p.now e self }
        requires ends { AreThreatEnds p.now from promote ends.bits }
        ensures { IsCandidateIn p.now e result }
    {
        if ends.is_empty() {
            return self;
        }
        let more = promotion_gain(p.at(from), promote);
        let mut greatest = self;
        let mut left = ends.iter();
        'targets: while let Some(target) = left.next() {
            let gain = taken_gain(e, p.at(target)) + more;
            if gain > greatest.gain {
                greatest = ThreatCandidate {
                    gain,
                    from,
                    target,
                    promote,
                };
            }
        }
        greatest
    }
}

/// Squares on which a new slider might pin the opponent's piece on `from` to its king: on a line
/// with both.
#[inline(always)]
fn pinning_squares(p: &Position, from: Square) -> Squares
    ensures { HoldsPinning p.now from result.bits }
{
    let lines = king_line_mask(p, p.side().opponent());
    from.reveal_invariant();
    if lines.has(from) {
        lines & line_mask(from)
    } else {
        Squares::none()
    }
}

/// The candidate as a threat, if it gains something.
#[inline(always)]
fn threat_by(p: &Position, e: Eval, candidate: ThreatCandidate) -> Option<Threat>
    requires { IsCandidateIn p.now e candidate }
    ensures { ForSome result (IsThreatIn p.now e) }
{
    let _ = e;
    if candidate.gain == 0 {
        return None;
    }
    let (from, target) = (candidate.from, candidate.target);
    let between = squares_between(from, target);
    Some(Threat {
        way: between.with(from).with(target),
        line: pinning_squares(p, from),
        gain: candidate.gain,
        from,
        target,
        promote: candidate.promote,
    })
}

/// The opponent's threats; `None` if the evaluation settles captures at the end of a line.
pub(crate) fn threats_of(p: &Position, e: Eval) -> Option<Threats>
    ensures { AreSomeThreats p.now e result }
{
    if e.resolves_captures() {
        return None;
    }
    let board = p.as_board();
    let own = board.own(p.side());
    let theirs = board.own(p.side().opponent());
    let mut takes = Squares::none();
    let mut greatest = ThreatCandidate::none();
    let mut left = unpinnable_pieces(p).iter();
    'attackers: while let Some(from) = left.next() {
        let attacks = attacks_of(p, from, board.targets(from));
        takes = takes | attacks.non_promoting;
        greatest = greatest.with_ends(p, e, from, false, own & attacks.non_promoting);
        greatest = greatest.with_ends(p, e, from, true, attacks.promoting.without(theirs));
    }
    Some(Threats {
        takes,
        greatest: threat_by(p, e, greatest),
    })
}

/// Whether there is a piece and it is a slider.
#[inline(always)]
pub(crate) fn slides(piece: Option<Piece>) -> bool
    ensures { result ≡ is_slider piece }
{
    match piece {
        Some(piece) => piece.role.is_sliding(),
        None => false,
    }
}

impl Threat {
    /// Destinations on which the moved piece leaves the attacker and its way. A slider also stays
    /// off squares from which it might pin the attacker.
    #[inline(always)]
    pub(crate) fn non_interfering_squares(&self, sliding: bool) -> Squares
        ensures { AreNonInterfering self.now sliding result.bits }
    {
        let line = if sliding { self.line } else { Squares::none() };
        Squares::all().without(self.way | line)
    }

    /// Whether putting the piece on `to` leaves the attacker and its way to the target.
    #[inline(always)]
    fn is_non_interfering(&self, to: Square, put: Option<Piece>) -> bool
        ensures { result ≡ true → SurvivesAt self.now put to }
    {
        self.non_interfering_squares(slides(put)).has(to)
    }

    /// Whether the move, which puts this piece on its destination, leaves the attacker, its way and
    /// the target.
    #[inline(always)]
    fn survives(&self, m: &Move, put: Option<Piece>) -> bool
        ensures { result ≡ true → SurvivesMove self.now put m.now }
    {
        match m {
            Move::Board { from, to, .. } => from.index() != self.target.index()
                && self.is_non_interfering(*to, put),
            Move::Drop { to, .. } => self.is_non_interfering(*to, put),
        }
    }
}

/// The threat's gain if it exceeds `least` and stands after the move, which puts this piece on its
/// destination; else `least`.
#[inline(always)]
pub(crate) fn gain_if_left(threat: &Option<Threat>, m: &Move, put: Option<Piece>, least: u32) -> u32
    ensures { (result ≡ least) ⊎ GainsAfter threat.now put m.now result }
{
    match threat {
        Some(threat) if threat.gain > least && threat.survives(m, put) => threat.gain,
        _ => least,
    }
}
