//! The move picker: the order in which a node visits its moves.

ghost use Rattle.std.specs.Prelude.{◌≡◌, ◌<◌, Some, None, IfSome, true, false};
ghost use Rattle.shogi_core.specs.Attack.{in_check};
ghost use Rattle.shogi_core.specs.Codes.{code_of};
ghost use Rattle.shogi_moves.specs.Sweeps.{IsBoardSweep, IsDropSweep, board_left, drops_left};
ghost use Rattle.shogi_replies.specs.Passes.{IsSkipped};
ghost use Rattle.search_nodes.specs.Order.{codes_of, others_to_come, todo, todo_after, todo_from, IsAtCode, IsAtDrops, IsAtQuiets, IsAnalogousFrom, IsKept, SkipsAnalogous, SkipsDrops, SkipsQuiets, TakesBoardPick, TakesDropPick, TakesPriorityMove, TakesFirstDrop, TakesFirstQuiet, TakesFromSweep};

use crate::priority_moves::PriorityMoves;
use analogous_moves::AnalogousMoves;
use shogi_core::bits::lowest;
use shogi_core::{Kind, Move, Position, SQUARE_CODES, Squares};
use shogi_moves::{BoardSweep, DropSweep, KnownPosition, check_info_of};
use shogi_replies::{KnownReplies, MoveFilter};

/// The stage of a node's visits: the priority moves from an index on, then what is left of the
/// captures, of the quiet board moves, and of the drops.
#[derive(Clone, Copy, Debug)]
pub enum MovePicker {
    First(PriorityMoves, usize),
    Captures(PriorityMoves, BoardSweep),
    Quiets(PriorityMoves, BoardSweep),
    Drops(PriorityMoves, DropSweep),
    Done,
}

/// The next board move of the sweep that is no priority move.
#[inline(always)]
#[tactic(auto, using(crate::proofs::MatchingOthers::matching_others))]
fn next_board(
    p: &Position,
    priority_moves: &PriorityMoves,
    capture: bool,
    sweep: &mut BoardSweep,
) -> Option<Move>
    requires consistent { IsBoardSweep p.now capture sweep.old }
    ensures consistent { IsBoardSweep p.now capture sweep.new }
    ensures next { TakesBoardPick p.now (codes_of priority_moves.now) capture
        result sweep.old sweep.new }
{
    'moves: while let Some(m) = sweep.next(p, capture) {
        if !priority_moves.has_move(&m) {
            return Some(m);
        }
    }
    None
}

/// The next drop of the sweep that is no priority move.
#[inline(always)]
#[tactic(auto, using(crate::proofs::MatchingOthers::matching_others))]
fn next_drop(p: &Position, priority_moves: &PriorityMoves, sweep: &mut DropSweep) -> Option<Move>
    requires consistent { IsDropSweep p.now sweep.old }
    ensures consistent { IsDropSweep p.now sweep.new }
    ensures next { TakesDropPick p.now (codes_of priority_moves.now) result sweep.old sweep.new }
{
    'moves: while let Some(m) = sweep.next(p) {
        if !priority_moves.has_move(&m) {
            return Some(m);
        }
    }
    None
}

/// Skips destinations of the present piece up to the first that is not analogous.
fn skip_analogous_destinations(p: &Position, analogous: &AnalogousMoves, sweep: &mut BoardSweep)
    requires consistent { IsBoardSweep p.now false sweep.old }
    ensures consistent { IsBoardSweep p.now false sweep.new }
    ensures passed { IsSkipped (IsAnalogousFrom p.now analogous.now sweep.old.code)
        (board_left p.now false sweep.old) (board_left p.now false sweep.new) }
{
    sweep.from.reveal_invariant();
    if !analogous.pieces.has(sweep.from) {
        return;
    }
    let others = sweep.destinations.non_promoting.without(analogous.ends)
        | sweep.destinations.promoting;
    if others.is_empty() {
        sweep.skip_destinations(p, false, 81);
        return;
    }
    let to = lowest(others.bits);
    if sweep.from.index() as u16 * SQUARE_CODES + 2 * to as u16 > sweep.code {
        sweep.skip_destinations(p, false, to);
    }
}

/// Skips drops of the present kind up to the first that is not analogous.
fn skip_analogous_drops(p: &Position, analogous: &AnalogousMoves, sweep: &mut DropSweep)
    requires consistent { IsDropSweep p.now sweep.old }
    ensures consistent { IsDropSweep p.now sweep.new }
    ensures passed { IsSkipped (IsAnalogousFrom p.now analogous.now sweep.old.code)
        (drops_left p.now sweep.old) (drops_left p.now sweep.new) }
{
    let others = sweep.destinations.without(analogous.drops.of(sweep.kind));
    if others.is_empty() {
        sweep.skip_destinations(p, 81);
        return;
    }
    sweep.skip_destinations(p, lowest(others.bits));
}

impl MovePicker {
    /// A picker that has visited nothing; at depth 0 there is nothing to visit.
    pub(crate) fn new(depth: u8, priority_moves: PriorityMoves) -> MovePicker
        ensures leaf { depth ≡ 0 → result ≡ MovePicker.Done }
        ensures inner { 0 < depth → result ≡ MovePicker.First priority_moves 0 }
    {
        if depth == 0 {
            return MovePicker::Done;
        }
        MovePicker::First(priority_moves, 0)
    }

    /// Begins the drops.
    fn enter_drops(
        &mut self,
        known: &KnownPosition<'_>,
        priority_moves: PriorityMoves,
    ) -> Option<Move>
        ensures next { TakesFirstDrop known.now.position.now (codes_of priority_moves)
            result self.new }
        ensures consistent { IsKept known.now.position.now self.new }
    {
        let p = known.position;
        let mut sweep = DropSweep::new(known);
        match next_drop(p, &priority_moves, &mut sweep) {
            Some(m) => {
                *self = MovePicker::Drops(priority_moves, sweep);
                Some(m)
            }
            None => {
                *self = MovePicker::Done;
                None
            }
        }
    }

    /// Begins the quiet board moves, or the drops if there are none.
    fn enter_quiets(
        &mut self,
        known: &KnownPosition<'_>,
        priority_moves: PriorityMoves,
    ) -> Option<Move>
        ensures next { TakesFirstQuiet known.now.position.now (codes_of priority_moves)
            result self.new }
        ensures consistent { IsKept known.now.position.now self.new }
    {
        let p = known.position;
        let mut sweep = BoardSweep::new(known, false);
        match next_board(p, &priority_moves, false, &mut sweep) {
            Some(m) => {
                *self = MovePicker::Quiets(priority_moves, sweep);
                Some(m)
            }
            None => self.enter_drops(known, priority_moves),
        }
    }

    /// Begins the captures, or the quiet moves if there are none.
    #[tactic(auto, using(crate::proofs::MatchingOthers::no_capture_left))]
    fn enter_captures(&mut self, p: &Position, priority_moves: PriorityMoves) -> Option<Move>
        ensures next { TakesPriorityMove p.now
            result (others_to_come p.now (codes_of priority_moves)) self.new }
        ensures consistent { IsKept p.now self.new }
    {
        let known = check_info_of(p).at(p);
        let mut sweep = BoardSweep::new(&known, true);
        match next_board(p, &priority_moves, true, &mut sweep) {
            Some(m) => {
                *self = MovePicker::Captures(priority_moves, sweep);
                Some(m)
            }
            None => self.enter_quiets(&known, priority_moves),
        }
    }

    /// The next legal priority move from index `passed` on, or the first of the other moves.
    fn next_priority_move(
        &mut self,
        p: &Position,
        priority_moves: PriorityMoves,
        passed: usize,
    ) -> Option<Move>
        ensures next { TakesPriorityMove p.now
            result (todo_from p.now priority_moves passed) self.new }
        ensures consistent { IsKept p.now self.new }
    {
        let Some((m, n)) = priority_moves.next_legal(p, passed) else {
            return self.enter_captures(p, priority_moves);
        };
        *self = MovePicker::First(priority_moves, n);
        Some(m)
    }

    /// The next move of the sweep under way, which advances in place; `None` if the sweep has
    /// ended.
    #[inline(always)]
    #[tactic(auto, using(crate::proofs::MatchingOthers::no_capture_left))]
    fn next_in_sweep(&mut self, p: &Position) -> Option<Move>
        requires consistent { IsKept p.now self.old }
        ensures next { TakesFromSweep p.now result self.old self.new }
        ensures consistent { IsKept p.now self.new }
    {
        if let MovePicker::Drops(priority_moves, sweep) = self {
            return next_drop(p, priority_moves, sweep);
        }
        if let MovePicker::Captures(priority_moves, sweep) = self {
            return next_board(p, priority_moves, true, sweep);
        }
        if let MovePicker::Quiets(priority_moves, sweep) = self {
            return next_board(p, priority_moves, false, sweep);
        }
        None
    }

    /// Whether a sweep over the board has found the side to move in check; false during other
    /// stages. `p` serves the contract alone.
    pub(crate) fn is_checked(&self, p: &Position) -> bool
        requires consistent { IsKept p.now self.now }
        ensures { result ≡ true → in_check p.now.cells p.now.side ≡ true }
    {
        let _ = p;
        match self {
            MovePicker::Captures(_, sweep) | MovePicker::Quiets(_, sweep) => {
                sweep.info.is_check()
            }
            _ => false,
        }
    }

    /// Moves on from captures to quiet moves if no capture is left, or without `capture` from quiet
    /// board moves to drops. No move is picked, since pruning in bulk follows.
    #[inline(always)]
    #[tactic(auto, using(crate::proofs::MatchingOthers::matching_others, crate::proofs::MatchingOthers::no_capture_left))]
    pub(crate) fn turn_from(&mut self, p: &Position, capture: bool)
        requires consistent { IsKept p.now self.old }
        ensures consistent { IsKept p.now self.new }
        ensures unchanged { todo p.now self.new ≡ todo p.now self.old }
    {
        match self {
            MovePicker::Captures(priority_moves, sweep) if capture => {
                if !sweep.fill(p, true) {
                    let (priority_moves, known) = (*priority_moves, sweep.info.at(p));
                    *self = MovePicker::Quiets(priority_moves, BoardSweep::new(&known, false));
                }
            }
            MovePicker::Quiets(priority_moves, sweep) if !capture => {
                if !sweep.fill(p, false) {
                    let (priority_moves, known) = (*priority_moves, sweep.info.at(p));
                    *self = MovePicker::Drops(priority_moves, DropSweep::new(&known));
                }
            }
            _ => {}
        }
    }

    /// Moves on to the next kind of drops if none of the present kind is left; whether it did.
    #[tactic(auto, using(crate::proofs::MatchingOthers::matching_others))]
    pub(crate) fn turn_to_kind(&mut self, p: &Position) -> bool
        requires consistent { IsKept p.now self.old }
        ensures consistent { IsKept p.now self.new }
        ensures unchanged { todo p.now self.new ≡ todo p.now self.old }
    {
        let MovePicker::Drops(_, sweep) = self else {
            return false;
        };
        if !sweep.destinations.is_empty() {
            return false;
        }
        sweep.fill(p)
    }

    /// The code to continue from if quiet board moves are under way.
    pub(crate) fn quiets(&self) -> Option<u16>
        ensures { IfSome result (IsAtQuiets self.now) }
    {
        match self {
            MovePicker::Quiets(_, sweep) => Some(sweep.code),
            _ => None,
        }
    }

    /// Skips the next quiet board moves that the filter has and that guarantee a reply.
    #[tactic(auto, using(crate::proofs::MatchingOthers::passing_others))]
    pub(crate) fn skip_quiets(&mut self, replies: &KnownReplies<'_>, move_filter: &MoveFilter)
        requires consistent { IsKept replies.now.position.now self.old }
        ensures consistent { IsKept replies.now.position.now self.new }
        ensures passed { SkipsQuiets replies.now.position.now move_filter.now
            replies.now.escapes.bits self.old self.new }
    {
        if let MovePicker::Quiets(_, sweep) = self {
            replies.skip_moves(false, move_filter, sweep);
        }
    }

    /// The kind whose drops are under way, and the code to continue from.
    pub(crate) fn drops(&self) -> Option<(Kind, u16)>
        ensures { IfSome result (λ drops. IsAtDrops self.now drops.0 drops.1) }
    {
        match self {
            MovePicker::Drops(_, sweep) => Some((sweep.kind, sweep.code)),
            _ => None,
        }
    }

    /// Skips the next drops of the present kind that end on `squares` and guarantee a reply.
    #[tactic(auto, using(crate::proofs::MatchingOthers::passing_others))]
    pub(crate) fn skip_drops(&mut self, replies: &KnownReplies<'_>, squares: Squares)
        requires consistent { IsKept replies.now.position.now self.old }
        ensures consistent { IsKept replies.now.position.now self.new }
        ensures passed { SkipsDrops replies.now.position.now squares.bits
            replies.now.escapes.bits self.old self.new }
    {
        if let MovePicker::Drops(_, sweep) = self {
            replies.skip_drops(squares, sweep);
        }
    }

    /// The code to continue from if quiet board moves or drops are under way.
    pub(crate) fn quiet_code(&self) -> Option<u16>
        ensures { IfSome result (IsAtCode self.now) }
    {
        match self {
            MovePicker::Quiets(_, sweep) => Some(sweep.code),
            MovePicker::Drops(_, sweep) => Some(sweep.code),
            _ => None,
        }
    }

    /// Skips the next analogous quiet moves of the present piece, or drops of the present kind.
    #[tactic(auto, using(crate::proofs::MatchingOthers::passing_others))]
    pub(crate) fn skip_analogous(&mut self, p: &Position, analogous: &AnalogousMoves)
        requires consistent { IsKept p.now self.old }
        ensures consistent { IsKept p.now self.new }
        ensures passed { SkipsAnalogous p.now analogous.now self.old self.new }
    {
        if let MovePicker::Quiets(_, sweep) = self {
            skip_analogous_destinations(p, analogous, sweep);
            return;
        }
        if let MovePicker::Drops(_, sweep) = self {
            skip_analogous_drops(p, analogous, sweep);
        }
    }

    /// The first move of a later stage.
    #[inline(never)]
    fn next_after_sweep(&mut self, p: &Position) -> Option<Move>
        requires consistent { IsKept p.now self.old }
        ensures next { TakesPriorityMove p.now result (todo_after p.now self.old) self.new }
        ensures consistent { IsKept p.now self.new }
    {
        match *self {
            MovePicker::First(priority_moves, passed) => self.next_priority_move(
                p,
                priority_moves,
                passed,
            ),
            MovePicker::Captures(priority_moves, sweep) => self.enter_quiets(
                &sweep.info.at(p),
                priority_moves,
            ),
            MovePicker::Quiets(priority_moves, sweep) => self.enter_drops(
                &sweep.info.at(p),
                priority_moves,
            ),
            MovePicker::Drops(_, _) | MovePicker::Done => {
                *self = MovePicker::Done;
                None
            }
        }
    }

    /// The next move to visit.
    #[inline(always)]
    pub(crate) fn next(&mut self, p: &Position) -> Option<Move>
        requires consistent { IsKept p.now self.old }
        ensures next { TakesPriorityMove p.now result (todo p.now self.old) self.new }
        ensures consistent { IsKept p.now self.new }
    {
        let found = self.next_in_sweep(p);
        if found.is_some() {
            return found;
        }
        self.next_after_sweep(p)
    }
}
