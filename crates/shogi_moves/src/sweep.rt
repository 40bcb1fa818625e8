//! Iterators over the legal moves of a kind, which hold the destinations left of the present piece.

ghost use Rattle.std.specs.Prelude.{◌≡◌, ◌≢◌, ◌<◌, ◌≤◌, ◌+◌, ◌*◌, ◌∷◌, [], true, false, IfSome, IsNone};
ghost use Rattle.shogi_core.specs.declared.moves.TheConstants.{FIRST_DROP};
ghost use Rattle.shogi_core.specs.declared.moves.Move.TheVariants as moves;
ghost use Rattle.shogi_core.specs.Cell.{is_piece_of};
ghost use Rattle.shogi_core.specs.Codes.{code_of};
ghost use Rattle.shogi_core.specs.Pieces.{kind_number};
ghost use Rattle.shogi_moves.specs.Legal.{is_legal};
ghost use Rattle.shogi_moves.specs.Sweeps.{drops_left, AreMatchingDestinations, IsBoardSweep, IsDropSweep, HasDestination, ContinuesBoard, ContinuesDrops, IsNextOnBoard, IsNextDrop, IsAtDrops, HasNoDestination};

use crate::check_info::{CheckInfo, KnownPosition};
use crate::destinations::{Destinations, OwnPiece, matching_destinations};
use crate::drops::KnownDrops;
use crate::movers::matching_movers;
use shogi_core::bits::{bits_above, bits_from, lowest, without_lowest};
use shogi_core::{FIRST_DROP, Kind, Move, Position, SQUARE_CODES, Square, Squares, is_piece_of};

/// The board moves of a kind still to come, in the order of codes: from `from` to `destinations`,
/// then from higher squares.
#[derive(Clone, Copy, Debug)]
pub struct BoardSweep {
    pub info: CheckInfo,
    pub destinations: Destinations,
    pub code: u16,
    pub from: Square,
}

/// The drops still to come, in the order of codes: of `kind` on `destinations`, then of later
/// kinds.
#[derive(Clone, Copy, Debug)]
pub struct DropSweep {
    pub squares: Squares,
    pub kind: Kind,
    pub destinations: Squares,
    pub code: u16,
}

/// The legal destinations for moves of the kind; none if no piece of the side to move stands on
/// `from`.
#[tactic(auto, using(crate::proofs::SweepLaws::no_piece))]
fn destinations_on(known: &KnownPosition<'_>, capture: bool, from: Square) -> Destinations
    ensures { AreMatchingDestinations known.now.position.now capture from result }
{
    let p = known.position;
    from.reveal_invariant();
    if is_piece_of(p.at(from), p.side()) {
        let among = p.as_board().targets(from) & matching_destinations(p, capture);
        OwnPiece { known, from }.legal_destinations(among)
    } else {
        Destinations {
            non_promoting: Squares::none(),
            promoting: Squares::none(),
        }
    }
}

impl BoardSweep {
    /// All board moves of the kind.
    #[tactic(auto, using(crate::proofs::SweepLaws::sweeping))]
    pub fn new(known: &KnownPosition<'_>, capture: bool) -> BoardSweep
        ensures consistent { IsBoardSweep known.now.position.now capture result }
        ensures code { result.code ≡ 0 }
    {
        let from = Square::of_index(0);
        BoardSweep {
            info: known.info,
            from,
            destinations: destinations_on(known, capture, from),
            code: 0,
        }
    }

    /// Goes on to the next piece that has a move of the kind, if there is one.
    #[inline(never)]
    #[tactic(auto, using(crate::proofs::SweepLaws::sweeping))]
    fn refill(&mut self, p: &Position, capture: bool) -> bool
        requires consistent { IsBoardSweep p.now capture self.old }
        requires if_none { HasNoDestination self.old }
        ensures consistent { IsBoardSweep p.now capture self.new }
        ensures some { result ≡ true → ContinuesBoard p.now capture self.old self.new }
        ensures end { result ≡ false → IsAtDrops p.now capture self.old }
        ensures unchanged { result ≡ false → self.new.code ≡ self.old.code }
    {
        p.reveal_invariant();
        let known = self.info.at(p);
        let matching = matching_destinations(p, capture);
        let board = p.as_board();
        let pieces = Squares {
            bits: bits_above(board.own(p.side()).bits, self.from.index()),
        };
        let mut left = matching_movers(p, capture, pieces).iter();
        'squares: while let Some(from) = left.next() {
            let among = board.targets(from) & matching;
            if !among.is_empty() {
                let piece = OwnPiece {
                    known: &known,
                    from,
                };
                let destinations = piece.legal_destinations(among);
                if !(destinations.non_promoting | destinations.promoting).is_empty() {
                    self.from = from;
                    self.destinations = destinations;
                    self.code = from.index() as u16 * SQUARE_CODES;
                    return true;
                }
            }
        }
        false
    }

    /// Goes on to the next piece with a move of the kind if the present one has none left; false if
    /// no move is left.
    #[inline(always)]
    pub fn fill(&mut self, p: &Position, capture: bool) -> bool
        requires consistent { IsBoardSweep p.now capture self.old }
        ensures consistent { IsBoardSweep p.now capture self.new }
        ensures some { result ≡ true → ContinuesBoard p.now capture self.old self.new }
        ensures end { result ≡ false → IsAtDrops p.now capture self.old }
        ensures unchanged { result ≡ false → self.new.code ≡ self.old.code }
    {
        if !(self.destinations.non_promoting | self.destinations.promoting).is_empty() {
            return true;
        }
        self.refill(p, capture)
    }

    /// Takes the next move; `None` if no board move of the kind is left.
    #[inline(always)]
    #[tactic(auto, using(crate::proofs::SweepLaws::sweeping))]
    pub fn next(&mut self, p: &Position, capture: bool) -> Option<Move>
        requires consistent { IsBoardSweep p.now capture self.old }
        ensures consistent { IsBoardSweep p.now capture self.new }
        ensures next { IsNextOnBoard p.now capture result self.old self.new }
        ensures legal { IfSome result (λ m. is_legal p.now m ≡ true) }
    {
        if !self.fill(p, capture) {
            return None;
        }
        let (from, non_promoting, promoting) = (
            self.from,
            self.destinations.non_promoting,
            self.destinations.promoting,
        );
        from.reveal_invariant();
        let lowest = lowest((non_promoting | promoting).bits);
        let to = Square::of_index(lowest);
        let promote = !non_promoting.has(to);
        let m = Move::Board { from, to, promote };
        self.code = m.code_above();
        if promote {
            self.destinations.promoting = Squares {
                bits: without_lowest(promoting.bits, lowest),
            };
        } else {
            self.destinations.non_promoting = Squares {
                bits: without_lowest(non_promoting.bits, lowest),
            };
        }
        Some(m)
    }

    /// Skips the present piece's moves to squares below `to`; 81 skips all of them. `p` and
    /// `capture` serve the contract alone.
    #[inline(always)]
    pub fn skip_destinations(&mut self, p: &Position, capture: bool, to: usize)
        requires consistent { IsBoardSweep p.now capture self.old }
        requires to { to ≤ 81 }
        requires ahead { self.old.code ≤ self.old.from * SQUARE_CODES + 2 * to }
        ensures consistent { IsBoardSweep p.now capture self.new }
        ensures code { self.new.code ≡ self.old.from * SQUARE_CODES + 2 * to }
    {
        let _ = p;
        let _ = capture;
        self.from.reveal_invariant();
        self.destinations.non_promoting = Squares {
            bits: bits_from(self.destinations.non_promoting.bits, to),
        };
        self.destinations.promoting = Squares {
            bits: bits_from(self.destinations.promoting.bits, to),
        };
        self.code = self.from.index() as u16 * SQUARE_CODES + 2 * to as u16;
    }

    /// Skips the moves of all pieces on squares below `square`; 81 skips all board moves. `p` and
    /// `capture` serve the contract alone.
    #[inline(always)]
    pub fn skip_pieces(&mut self, p: &Position, capture: bool, square: usize)
        requires consistent { IsBoardSweep p.now capture self.old }
        requires ahead { self.old.from < square }
        requires square { square ≤ 81 }
        ensures consistent { IsBoardSweep p.now capture self.new }
        ensures code { self.new.code ≡ square * SQUARE_CODES }
    {
        let _ = p;
        let _ = capture;
        self.from = Square::of_index(square - 1);
        self.destinations = Destinations {
            non_promoting: Squares::none(),
            promoting: Squares::none(),
        };
        self.code = square as u16 * SQUARE_CODES;
    }
}

impl DropSweep {
    /// All drops.
    #[tactic(auto, using(crate::proofs::SweepLaws::keeps_kind))]
    pub fn new(known: &KnownPosition<'_>) -> DropSweep
        ensures consistent { IsDropSweep known.now.position.now result }
        ensures code { result.code ≡ FIRST_DROP }
    {
        let drops = known.drops();
        DropSweep {
            squares: drops.squares,
            kind: Kind::Pawn,
            destinations: drops.legal(Kind::Pawn),
            code: FIRST_DROP,
        }
    }

    /// The drops with a code above that of `kind` on `to`.
    pub fn above(known: &KnownPosition<'_>, kind: Kind, to: Square) -> DropSweep
        ensures consistent { IsDropSweep known.now.position.now result }
        ensures code { result.code ≡ code_of (moves.Drop kind to) + 1 }
    {
        to.reveal_invariant();
        let drops = known.drops();
        DropSweep {
            squares: drops.squares,
            kind,
            destinations: Squares {
                bits: bits_above(drops.legal(kind).bits, to.index()),
            },
            code: Move::Drop { kind, to }.code_above(),
        }
    }

    /// Goes on to the next kind that has a legal drop, if there is one.
    #[inline(never)]
    fn refill(&mut self, p: &Position) -> bool
        requires consistent { IsDropSweep p.now self.old }
        requires if_none { self.old.destinations.bits ≡ 0 }
        ensures consistent { IsDropSweep p.now self.new }
        ensures some { result ≡ true → ContinuesDrops p.now self.old self.new }
        ensures end { result ≡ false → drops_left p.now self.old ≡ [] }
        ensures unchanged { result ≡ false → self.new.code ≡ self.old.code }
    {
        let drops = KnownDrops {
            position: p,
            squares: self.squares,
        };
        let mut kind = self.kind;
        'kinds: while let Some(next) = kind.next() {
            let destinations = drops.legal(next);
            if !destinations.is_empty() {
                self.kind = next;
                self.destinations = destinations;
                self.code = FIRST_DROP + next.number() as u16 * 81;
                return true;
            }
            kind = next;
        }
        false
    }

    /// Goes on to the next kind with a legal drop if the present one has none left; false if no
    /// drop is left.
    #[inline(always)]
    pub fn fill(&mut self, p: &Position) -> bool
        requires consistent { IsDropSweep p.now self.old }
        ensures consistent { IsDropSweep p.now self.new }
        ensures some { result ≡ true → ContinuesDrops p.now self.old self.new }
        ensures end { result ≡ false → drops_left p.now self.old ≡ [] }
        ensures unchanged { result ≡ false → self.new.code ≡ self.old.code }
    {
        if !self.destinations.is_empty() {
            return true;
        }
        self.refill(p)
    }

    /// Takes the next drop; `None` if none is left.
    #[inline(always)]
    pub fn next(&mut self, p: &Position) -> Option<Move>
        requires consistent { IsDropSweep p.now self.old }
        ensures consistent { IsDropSweep p.now self.new }
        ensures next { IsNextDrop p.now result self.old self.new }
        ensures code { IfSome result (λ m. self.new.code ≡ code_of m + 1) }
        ensures end { IsNone result → drops_left p.now self.new ≡ [] }
        ensures legal { IfSome result (λ m. is_legal p.now m ≡ true) }
    {
        if !self.fill(p) {
            return None;
        }
        let (kind, destinations) = (self.kind, self.destinations.bits);
        let lowest = lowest(destinations);
        let to = Square::of_index(lowest);
        let m = Move::Drop { kind, to };
        self.code = m.code_above();
        self.destinations = Squares {
            bits: without_lowest(destinations, lowest),
        };
        Some(m)
    }

    /// Skips the drops of the present kind on squares below `to`; 81 skips all of them. `p` serves
    /// the contract alone.
    #[inline(always)]
    pub fn skip_destinations(&mut self, p: &Position, to: usize)
        requires consistent { IsDropSweep p.now self.old }
        requires to { to ≤ 81 }
        requires ahead { self.old.code ≤ FIRST_DROP + kind_number self.old.kind * 81 + to }
        ensures consistent { IsDropSweep p.now self.new }
        ensures code { self.new.code ≡ FIRST_DROP + kind_number self.old.kind * 81 + to }
    {
        let _ = p;
        self.destinations = Squares {
            bits: bits_from(self.destinations.bits, to),
        };
        self.code = FIRST_DROP + self.kind.number() as u16 * 81 + to as u16;
    }
}
