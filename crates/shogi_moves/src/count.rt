//! Perft: counting sequences of legal moves.

ghost use Rattle.std.specs.Prelude.{◌≡◌, ◌≤◌, ◌<◌, ◌^◌, ◌+◌, ◌-◌, ◌↔◌, IfSome, IsNone, length, count_ones};
ghost use Rattle.shogi_core.specs.declared.moves.TheConstants.{MOVE_CODE_COUNT, FIRST_DROP};
ghost use Rattle.shogi_moves.specs.LegalMoves.{CountsLegal, legal_from, perft};
ghost use Rattle.shogi_moves.specs.Places.{first_of_kind};

use crate::after::advance;
use crate::check_info::{KnownPosition, check_info_of};
use crate::destinations::Destinations;
use crate::drops::KnownDrops;
use crate::walk::Walk;
use shogi_core::bits::{bits_from, low_half, lowest, without_lowest};
use shogi_core::{Kind, Position, Square, Squares};

/// The number of moves to the destinations.
fn count_of(found: Destinations) -> u64
    ensures { result ≡ count_ones found.non_promoting.bits + count_ones found.promoting.bits }
{
    (found.non_promoting.bits.count_ones() + found.promoting.bits.count_ones()) as u64
}

/// The number of legal board moves. Pieces on the lower 64 squares, where most stand, are iterated
/// as one 64-bit number, which measures faster.
fn count_board(known: &KnownPosition<'_>) -> u64
    ensures count { CountsLegal known.now.position.now 0 FIRST_DROP result }
    ensures range { result ≤ FIRST_DROP }
{
    let p = known.position;
    let markings = known.markings();
    let own = p.as_board().own(p.side());
    let high = bits_from(own.bits, 64);
    let mut low = low_half(own.bits);
    let mut total: u64 = 0;
    'low: while low != 0 {
        let square = lowest(low as u128);
        let from = Square::of_index(square);
        total += count_of(markings.all_destinations(from));
        low = without_lowest(low as u128, square) as u64;
    }
    let mut left = Squares { bits: high }.iter();
    'high: while let Some(from) = left.next() {
        total += count_of(markings.all_destinations(from));
    }
    total
}

/// The number of legal drops of the kind.
#[inline(always)]
fn count_kind(drops: &KnownDrops<'_>, kind: Kind) -> u64
    ensures count { CountsLegal drops.now.position.now (first_of_kind kind)
        (first_of_kind kind + 81) result }
    ensures range { result ≤ 81 }
{
    drops.legal(kind).bits.count_ones() as u64
}

/// The number of legal drops. Each kind is named, so that a kind not in hand costs one look at its
/// count.
fn count_drops(known: &KnownPosition<'_>) -> u64
    ensures count { result ≡ length (legal_from known.now.position.now FIRST_DROP) }
    ensures range { result ≤ MOVE_CODE_COUNT - FIRST_DROP }
{
    let drops = known.drops();
    let pawns = count_kind(&drops, Kind::Pawn);
    let lances = count_kind(&drops, Kind::Lance);
    let knights = count_kind(&drops, Kind::Knight);
    let silvers = count_kind(&drops, Kind::Silver);
    let golds = count_kind(&drops, Kind::Gold);
    let bishops = count_kind(&drops, Kind::Bishop);
    let rooks = count_kind(&drops, Kind::Rook);
    pawns + lances + knights + silvers + golds + bishops + rooks
}

/// The number of legal moves.
#[inline(never)]
fn count_legal(p: &Position) -> u64
    ensures count { result ≡ perft p.now 1 }
    ensures range { result < 2 ^ 64 }
{
    let known = check_info_of(p).at(p);
    count_board(&known) + count_drops(&known)
}

/// The number of sequences of n legal moves from the position, n from 0 to 16; `None` exactly if it
/// exceeds the greatest `u64`.
#[tactic(auto, using(crate::proofs::PerftLaws::steps))]
pub fn perft(p: &Position, n: u8) -> Option<u64>
    requires { n ≤ 16 }
    ensures count { IfSome result (λ count. count ≡ perft p.now n) }
    ensures if_none { IsNone result ↔ (2 ^ 64 ≤ perft p.now n) }
{
    if n == 0 {
        return Some(1);
    }
    if n == 1 {
        return Some(count_legal(p));
    }
    let mut total: u64 = 0;
    let mut walk = Walk::new(p);
    'moves: while let Some(m) = walk.next() {
        let mut next = *p;
        advance(&mut next, m);
        let count = if n == 2 {
            count_legal(&next)
        } else {
            perft(&next, n - 1)?
        };
        total = total.checked_add(count)?;
    }
    Some(total)
}
