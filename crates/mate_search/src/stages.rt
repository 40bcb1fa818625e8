//! A way through the legal moves of a position: captures first, drops last.

ghost use Rattle.std.specs.Prelude.{◌≡◌, [], IfSome, true, false};
ghost use Rattle.shogi_moves.specs.Legal.{is_legal};
ghost use Rattle.shogi_moves.specs.Sweeps.{IsBoardSweep, drops_left, matching_drops, matching_from};
ghost use Rattle.shogi_moves.specs.Walks.{IsNextOf};
ghost use Rattle.shogi_replies.specs.Passes.{IsSkipped};
ghost use Rattle.mate_search.specs.Stages.{IsUnmating, IsStage, ordered_codes, stage_left};

use shogi_core::{Move, Position, Squares};
use shogi_moves::{BoardSweep, DropSweep, KnownPosition, check_info_of};
use shogi_replies::{KnownReplies, MoveFilter};

/// What comes next: captures, other moves on the board, or drops.
#[derive(Clone, Copy, Debug)]
pub enum Stage {
    Captures(BoardSweep),
    Quiets(BoardSweep),
    Drops(DropSweep),
}

/// The first drop, with the way behind it.
fn first_drop(known: &KnownPosition<'_>) -> (Option<Move>, Stage)
    ensures consistent { IsStage known.now.position.now result.1 }
    ensures next { IsNextOf result.0 (matching_drops known.now.position.now false)
        (stage_left known.now.position.now result.1) [] }
    ensures legal { IfSome result.0 (λ m. is_legal known.now.position.now m ≡ true) }
{
    let mut sweep = DropSweep::new(known);
    let found = sweep.next(known.position);
    (found, Stage::Drops(sweep))
}

/// The first move that takes nothing, with the way behind it.
fn first_quiet(known: &KnownPosition<'_>) -> (Option<Move>, Stage)
    ensures consistent { IsStage known.now.position.now result.1 }
    ensures next { IsNextOf result.0 (matching_from known.now.position.now false 0)
        (stage_left known.now.position.now result.1) [] }
    ensures legal { IfSome result.0 (λ m. is_legal known.now.position.now m ≡ true) }
{
    let mut sweep = BoardSweep::new(known, false);
    match sweep.next(known.position, false) {
        Some(m) => (Some(m), Stage::Quiets(sweep)),
        None => first_drop(known),
    }
}

impl Stage {
    /// Before the first move.
    pub fn first(p: &Position) -> Stage
        ensures consistent { IsStage p.now result }
        ensures all { stage_left p.now result ≡ ordered_codes p.now }
    {
        let known = check_info_of(p).at(p);
        Stage::Captures(BoardSweep::new(&known, true))
    }

    /// The next move, or `None` if none is left.
    pub fn next(&mut self, p: &Position) -> Option<Move>
        requires { IsStage p.now self.old }
        ensures consistent { IsStage p.now self.new }
        ensures next { IsNextOf result (stage_left p.now self.old) (stage_left p.now self.new) [] }
        ensures legal { IfSome result (λ m. is_legal p.now m ≡ true) }
    {
        match self {
            Stage::Drops(sweep) => sweep.next(p),
            Stage::Quiets(sweep) => {
                if let Some(m) = sweep.next(p, false) {
                    return Some(m);
                }
                let known = sweep.info.at(p);
                let (found, stage) = first_drop(&known);
                *self = stage;
                found
            }
            Stage::Captures(sweep) => {
                if let Some(m) = sweep.next(p, true) {
                    return Some(m);
                }
                let known = sweep.info.at(p);
                let (found, stage) = first_quiet(&known);
                *self = stage;
                found
            }
        }
    }

    /// Skips next moves that surely do not mate: after which the other side surely has a legal move and, if
    /// no escapes are given, is in no check. A look at squares alone decides, so there may be more.
    pub fn skip_unmating(&mut self, replies: &KnownReplies<'_>)
        requires consistent { IsStage replies.now.position.now self.old }
        ensures consistent { IsStage replies.now.position.now self.new }
        ensures skipped { IsSkipped
            (IsUnmating replies.now.position.now replies.now.escapes.bits)
            (stage_left replies.now.position.now self.old)
            (stage_left replies.now.position.now self.new) }
    {
        let all = MoveFilter {
            pieces: Squares::all(),
            squares: Squares::all(),
            promotes: true,
        };
        match self {
            Stage::Captures(sweep) => replies.skip_moves(true, &all, sweep),
            Stage::Quiets(sweep) => replies.skip_moves(false, &all, sweep),
            Stage::Drops(sweep) => replies.skip_drops(Squares::all(), sweep),
        }
    }
}
