//! The next legal move of a piece on the board.

ghost use Rattle.std.specs.Prelude.{◌≡◌, ◌≤◌, ◌<◌, true, IfSome};
ghost use Rattle.shogi_core.specs.declared.moves.TheConstants.{FIRST_DROP, SQUARE_CODES};
ghost use Rattle.shogi_core.specs.Cell.{is_piece_of};
ghost use Rattle.shogi_core.specs.Codes.{code_of};
ghost use Rattle.shogi_moves.specs.Legal.{is_legal};
ghost use Rattle.shogi_moves.specs.LegalMoves.{IsLeastFrom, IsLeastOn};
ghost use Rattle.shogi_moves.specs.Places.{IsAtSquare};
ghost use Rattle.shogi_moves.specs.Sweeps.{AreKept};

use crate::check_info::KnownPosition;
use crate::destinations::Destinations;
use shogi_core::bits::{bits_from, lowest};
use shogi_core::{FIRST_DROP, Move, Position, SQUARE_CODES, Square, Squares, is_piece_of};

/// The legal destinations from a square, held between two moves of the piece there so that they are
/// computed once.
#[derive(Clone, Copy, Debug)]
pub struct KeptDestinations {
    pub from: Square,
    pub destinations: Destinations,
}

/// The legal destinations from the square; none if no piece of the side to move stands there.
pub fn kept_at(known: &KnownPosition<'_>, from: Square) -> KeptDestinations
    ensures from { result.from ≡ from }
    ensures consistent { AreKept known.now.position.now result }
{
    let p = known.position;
    from.reveal_invariant();
    if !is_piece_of(p.at(from), p.side()) {
        return KeptDestinations {
            from,
            destinations: Destinations {
                non_promoting: Squares::none(),
                promoting: Squares::none(),
            },
        };
    }
    KeptDestinations {
        from,
        destinations: known.markings().all_destinations(from),
    }
}

/// The legal move from `from` of least code at or above `code`. A destination's codes are even
/// without promotion and odd with it, hence the two roundings.
#[inline(always)]
fn least_destination(
    known: &KnownPosition<'_>,
    from: Square,
    code: u16,
    kept: &mut KeptDestinations,
) -> Option<Move>
    requires code { IsAtSquare from code }
    requires consistent { AreKept known.now.position.now kept.old }
    ensures next { IsLeastOn known.now.position.now result code from }
    ensures legal { IfSome result (λ m. is_legal known.now.position.now m ≡ true) }
    ensures on_board { IfSome result (λ m. code_of m < FIRST_DROP) }
    ensures consistent { AreKept known.now.position.now kept.new }
{
    let p = known.position;
    from.reveal_invariant();
    if !is_piece_of(p.at(from), p.side()) {
        return None;
    }
    if kept.from.index() != from.index() {
        *kept = kept_at(known, from);
    }
    let passed = (code - from.index() as u16 * SQUARE_CODES) as usize;
    let non_promoting = Squares {
        bits: bits_from(kept.destinations.non_promoting.bits, (passed + 1) / 2),
    };
    let promoting = Squares {
        bits: bits_from(kept.destinations.promoting.bits, passed / 2),
    };
    let both = non_promoting | promoting;
    if both.is_empty() {
        return None;
    }
    let to = Square::of_index(lowest(both.bits));
    Some(Move::Board {
        from,
        to,
        promote: !non_promoting.has(to),
    })
}

/// The legal board move of least code at or above `first`.
pub fn least_board(
    known: &KnownPosition<'_>,
    first: u16,
    kept: &mut KeptDestinations,
) -> Option<Move>
    requires first { first ≤ FIRST_DROP }
    requires consistent { AreKept known.now.position.now kept.old }
    ensures next { IsLeastFrom known.now.position.now result first FIRST_DROP }
    ensures legal { IfSome result (λ m. is_legal known.now.position.now m ≡ true) }
    ensures on_board { IfSome result (λ m. code_of m < FIRST_DROP) }
    ensures consistent { AreKept known.now.position.now kept.new }
{
    let mut code = first;
    'squares: while code < FIRST_DROP {
        let square = code / SQUARE_CODES;
        let found = least_destination(known, Square::of_index(square as usize), code, kept);
        if found.is_some() {
            return found;
        }
        code = square * SQUARE_CODES + SQUARE_CODES;
    }
    None
}
