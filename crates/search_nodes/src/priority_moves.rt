//! Priority moves: the hash move, refutation, killers and counter move, which a node visits first.

ghost use Rattle.std.specs.Prelude.{◌≡◌, ◌≤◌, [], true, false, take, IfSome, IsNone};
ghost use Rattle.shogi_core.specs.Codes.{code_of};
ghost use Rattle.shogi_moves.specs.LegalMoves.{legal_codes};
ghost use Rattle.shogi_moves.specs.Rising.{is_in};
ghost use Rattle.search_nodes.specs.declared.priority_moves.TheConstants.{PRIORITY_MOVES_MAX};
ghost use Rattle.search_nodes.specs.PriorityMoves.{is_distinct, with_each, with_priority_move, with_killer, with_some, IsNextPriorityMove};

use shogi_core::{Move, Position};
use shogi_moves::is_legal;

/// The most priority moves of a node.
pub const PRIORITY_MOVES_MAX: usize = 6;

/// How many killers each frame keeps: the last moves that caused a cutoff there.
pub const KILLERS: usize = 4;

/// The killers, the last one first, after `code` caused a cutoff: a killer moves to the front,
/// another move replaces the oldest.
pub(crate) fn with_killer(killers: &[u16; KILLERS], code: u16) -> [u16; KILLERS]
    ensures { result ≡ with_killer killers.now code }
{
    if killers[0] == code {
        return *killers;
    }
    if killers[1] == code {
        return [code, killers[0], killers[2], killers[3]];
    }
    if killers[2] == code {
        return [code, killers[0], killers[1], killers[3]];
    }
    [code, killers[0], killers[1], killers[2]]
}

/// Codes of the moves to visit first, if they are legal, in this order and without repetition.
#[derive(Clone, Copy, Debug)]
pub struct PriorityMoves {
    codes: [u16; PRIORITY_MOVES_MAX],
    len: usize,
    ghost fits: { len ≤ PRIORITY_MOVES_MAX },
    ghost distinct: { is_distinct (take len codes) ≡ true },
}

/// The move with the code, if it is legal.
#[tactic(auto, using(shogi_moves::proofs::LegalLaws::listing))]
fn legal_move_of(p: &Position, code: u16) -> Option<Move>
    ensures some { IfSome result (λ m. code_of m ≡ code) }
    ensures legal { IfSome result (λ _. is_in code (legal_codes p.now) ≡ true) }
    ensures if_none { IsNone result → is_in code (legal_codes p.now) ≡ false }
{
    let m = Move::of_code(code)?;
    let tried = m;
    if is_legal(p, tried) { Some(m) } else { None }
}

impl PriorityMoves {
    ghost use Rattle.search_nodes.specs.Order.{codes_of};

    /// No priority moves.
    pub fn none() -> PriorityMoves
        ensures { codes_of result ≡ [] }
    {
        PriorityMoves {
            codes: [0; PRIORITY_MOVES_MAX],
            len: 0,
        }
    }

    /// Whether the move with the code is a priority move.
    #[inline(always)]
    fn has(&self, code: u16) -> bool
        ensures { result ≡ is_in code (codes_of self.now) }
    {
        let mut n = 0;
        'codes: while n < self.len {
            if self.codes[n] == code {
                return true;
            }
            n += 1;
        }
        false
    }

    /// Whether the move is a priority move.
    #[inline(always)]
    pub(crate) fn has_move(&self, m: &Move) -> bool
        ensures { result ≡ is_in (code_of m.now) (codes_of self.now) }
    {
        self.has(m.code())
    }

    /// Appends the code, unless it is in the list or the list is full.
    pub fn add(&mut self, code: u16)
        ensures { codes_of self.new ≡ with_priority_move (codes_of self.old) code }
    {
        if self.len == PRIORITY_MOVES_MAX || self.has(code) {
            return;
        }
        self.codes[self.len] = code;
        self.len += 1;
    }

    /// Appends the move's code like `add`, if there is a move.
    pub fn add_some(&mut self, m: Option<Move>)
        ensures { codes_of self.new ≡ with_some (codes_of self.old) m }
    {
        if let Some(m) = m {
            self.add(m.code());
        }
    }

    /// Appends each code like `add`.
    pub(crate) fn add_each(&mut self, codes: &[u16])
        ensures { codes_of self.new ≡ with_each (codes_of self.old) codes.now }
    {
        'codes: for code in codes {
            self.add(*code);
        }
    }

    /// The next legal priority move from index `from` on, with the index after it.
    pub(crate) fn next_legal(&self, p: &Position, from: usize) -> Option<(Move, usize)>
        ensures { IsNextPriorityMove p.now (codes_of self.now) from result }
    {
        let mut n = from;
        'codes: while n < self.len {
            let code = self.codes[n];
            n += 1;
            if let Some(m) = legal_move_of(p, code) {
                return Some((m, n));
            }
        }
        None
    }
}
