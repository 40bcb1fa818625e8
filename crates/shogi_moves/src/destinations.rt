//! The legal destinations of the pieces of the side to move.

ghost use Rattle.std.specs.Prelude.{◌≡◌, ◌<◌, ℕ, not, true, false, None, slice_set};
ghost use Rattle.shogi_core.specs.declared.moves.Move.TheVariants as moves;
ghost use Rattle.shogi_core.specs.Attack.{in_check};
ghost use Rattle.shogi_core.specs.Bits.{HasBits, HasThose};
ghost use Rattle.shogi_core.specs.Cell.{is_immobile};
ghost use Rattle.shogi_core.specs.Zones.{in_promotion_zone, may_promote};
ghost use Rattle.shogi_moves.specs.Destinations.{is_own, is_own_king, leaves_king_safe, AreMatchingEnds, AreKingSafeEnds, AreLegalDestinations, AreAllDestinations, AreEnterable, AreMarked, ShowsAttack};

use crate::check_info::{CheckInfo, KnownPosition, is_surely_not_pinned};
use crate::king_safety::leaves_king_safe_on_copy;
use shogi_core::zones::{dead_squares, promoting_squares, zone_squares};
use shogi_core::{Board, Move, Piece, Position, Square, Squares};

/// The legal destinations of a piece, without and with promotion.
#[derive(Clone, Copy, Debug)]
pub struct Destinations {
    pub non_promoting: Squares,
    pub promoting: Squares,
}

/// A piece of the side to move, on `from` in a position with check info.
#[derive(Clone, Copy)]
pub struct OwnPiece<'a> {
    pub known: &'a KnownPosition<'a>,
    pub from: Square,
    ghost own: { is_own known.now.position.now from ≡ true },
}

/// The king of the side to move on `from`, with a board `seen` on which every square is attacked
/// exactly if it is once the king has left `from`.
#[derive(Clone, Copy)]
pub struct SeenKing<'a> {
    pub position: &'a Position,
    pub seen: &'a Board,
    pub from: Square,
    ghost king: { is_own_king position.now from ≡ true },
    ghost shows: { (n : ℕ) → n < 81 → ShowsAttack position.now seen.now from n },
}

/// A position with squares that settle most pieces at once: `zone` in which the side to move
/// promotes, `marked` from which a piece may promote or expose its king, and `enterable` without
/// its own pieces.
#[derive(Clone, Copy)]
pub struct Markings<'a> {
    pub known: &'a KnownPosition<'a>,
    pub zone: Squares,
    pub marked: Squares,
    pub enterable: Squares,
    ghost promotes: { HasBits zone.bits (in_promotion_zone known.now.position.now.side) },
    ghost marks: { AreMarked known.now.info zone.bits marked.bits },
    ghost enters: { HasBits enterable.bits (λ n. not (is_own known.now.position.now n)) },
}

/// The squares on which a move of the kind may end: those of enemy pieces for captures, else the
/// empty ones.
pub fn matching_destinations(p: &Position, capture: bool) -> Squares
    ensures squares { AreMatchingEnds p.now capture result.bits }
{
    if capture {
        p.as_board().own(p.side().opponent())
    } else {
        p.as_board().free()
    }
}

/// The `destinations` to which the move leaves the king unattacked; makes each move on a copy of
/// the board.
fn tried_destinations(p: &Position, from: Square, destinations: Squares) -> Squares
    ensures squares { AreKingSafeEnds p.now from destinations.bits result.bits }
{
    destinations.sift(|to| {
        let m = Move::Board {
            from,
            to,
            promote: false,
        };
        leaves_king_safe_on_copy(p, &m)
    })
}

/// Whether the king is unattacked once the piece on `from` is lifted: the side is not in check, and
/// the piece is not pinned.
fn is_not_pinned(p: &Position, from: Square) -> bool
    ensures { result ≡ not (in_check (slice_set p.now.cells from None) p.now.side) }
{
    let mut board = *p.as_board();
    board.set(from, None);
    !board.in_check(p.side())
}

impl SeenKing<'_> {
    /// Whether the king may go to `to`: no enemy piece attacks `to` once the king has left its
    /// square.
    pub fn is_safe_at(&self, to: Square) -> bool
        ensures { result ≡ leaves_king_safe self.now.position.now
            (moves.Board self.now.from to false) }
    {
        let p = self.position;
        p.reveal_invariant();
        self.from.reveal_invariant();
        to.reveal_invariant();
        !self.seen.is_attacked(p.side().opponent(), to)
    }

    /// The `destinations` on which the king is unattacked.
    fn safe_destinations(&self, destinations: Squares) -> Squares
        ensures squares { AreKingSafeEnds self.now.position.now self.now.from
            destinations.bits result.bits }
    {
        destinations.sift(|to| self.is_safe_at(to))
    }
}

/// The destinations `among`, split by the promotion rules. Most pieces neither start nor end in
/// their promotion zone: hence the early return.
#[inline(always)]
#[tactic(auto, using(crate::proofs::DestinationLaws::promoting))]
fn with_promotions(cell: Option<Piece>, from: Square, among: Squares) -> Destinations
    ensures non_promoting { HasThose result.non_promoting.bits among.bits (λ n.
        not (is_immobile n cell)) }
    ensures promoting { HasThose result.promoting.bits among.bits (may_promote cell from) }
{
    let zone = promoting_squares(cell, from);
    if zone.is_empty() || (among & zone).is_empty() {
        return Destinations {
            non_promoting: among,
            promoting: Squares::none(),
        };
    }
    Destinations {
        non_promoting: among.without(dead_squares(cell)),
        promoting: among & zone,
    }
}

/// The squares without a piece of the side to move.
#[tactic(auto, using(crate::proofs::DestinationLaws::entering_bits))]
fn enterable(p: &Position) -> Squares
    ensures { HasBits result.bits (λ n. not (is_own p.now n)) }
{
    Squares::all().without(p.as_board().own(p.side()))
}

/// The squares from which a piece of the side to move may promote or expose its king; in check, all
/// squares. `zone` is the promotion zone of that side.
#[tactic(auto, using(crate::proofs::DestinationLaws::marking))]
fn marked_squares(info: &CheckInfo, zone: Squares) -> Squares
    ensures { AreMarked info.now zone.bits result.bits }
{
    if info.is_check() {
        return Squares::all();
    }
    info.squares() | zone
}

impl OwnPiece<'_> {
    /// The `destinations` that leave the king unattacked, for a king, a piece that may be pinned,
    /// or any piece in check. In check, the king is lifted first, since a slider may attack beyond
    /// it; out of check no attack passes its square.
    #[inline(never)]
    #[tactic(auto, using(crate::proofs::DestinationLaws::unpinned_destinations))]
    fn may_be_pinned_destinations(&self, destinations: Squares) -> Squares
        ensures squares { AreKingSafeEnds self.now.known.now.position.now self.now.from
            destinations.bits result.bits }
    {
        let (p, from) = (self.known.position, self.from);
        p.reveal_invariant();
        from.reveal_invariant();
        if p.as_board().kings(p.side()).has(from) {
            if !self.known.info.is_check() {
                let king = SeenKing {
                    position: p,
                    seen: p.as_board(),
                    from,
                };
                return king.safe_destinations(destinations);
            }
            let mut lifted = *p.as_board();
            lifted.set(from, None);
            let king = SeenKing {
                position: p,
                seen: &lifted,
                from,
            };
            return king.safe_destinations(destinations);
        }
        if self.known.info.is_check() {
            return tried_destinations(p, from, destinations & self.known.info.squares());
        }
        if is_not_pinned(p, from) {
            return destinations;
        }
        tried_destinations(p, from, destinations)
    }

    /// The `destinations` that leave the king unattacked. Most pieces are surely not pinned and
    /// keep them all.
    #[tactic(auto, using(crate::proofs::DestinationLaws::unpinned_destinations))]
    fn safe_destinations(&self, destinations: Squares) -> Squares
        ensures squares { AreKingSafeEnds self.now.known.now.position.now self.now.from
            destinations.bits result.bits }
    {
        self.known.position.reveal_invariant();
        self.from.reveal_invariant();
        if is_surely_not_pinned(&self.known.info, self.from) {
            return destinations;
        }
        self.may_be_pinned_destinations(destinations)
    }

    /// The legal destinations of the piece among squares that it reaches and that hold no piece of
    /// its own side.
    #[inline(always)]
    #[tactic(auto, using(crate::proofs::DestinationLaws::legal_sets))]
    pub fn legal_destinations(&self, among: Squares) -> Destinations
        requires { AreEnterable self.now.known.now.position.now self.now.from among.bits }
        ensures { AreLegalDestinations self.now.known.now.position.now self.now.from
            among.bits result }
    {
        let (p, from) = (self.known.position, self.from);
        p.reveal_invariant();
        from.reveal_invariant();
        if among.is_empty() {
            return Destinations {
                non_promoting: Squares::none(),
                promoting: Squares::none(),
            };
        }
        let destinations = self.safe_destinations(among);
        with_promotions(p.at(from), from, destinations)
    }
}

impl KnownPosition<'_> {
    /// The position with the sets by which most pieces keep all their destinations.
    #[inline(always)]
    pub fn markings(&self) -> Markings<'_>
        ensures { result.known.now ≡ self.now }
    {
        let zone = zone_squares(self.position.side());
        Markings {
            known: self,
            zone,
            marked: marked_squares(&self.info, zone),
            enterable: enterable(self.position),
        }
    }
}

impl Markings<'_> {
    /// All legal destinations of the own piece on `from`. A piece off the marked squares without a
    /// destination in the zone keeps them all and promotes on none.
    #[inline(always)]
    pub fn all_destinations(&self, from: Square) -> Destinations
        requires { is_own self.now.known.now.position.now from ≡ true }
        ensures { AreAllDestinations self.now.known.now.position.now from result }
    {
        let p = self.known.position;
        p.reveal_invariant();
        from.reveal_invariant();
        let among = p.as_board().targets(from) & self.enterable;
        if (among & self.zone).is_empty() && !self.marked.has(from) {
            return Destinations {
                non_promoting: among,
                promoting: Squares::none(),
            };
        }
        let piece = OwnPiece {
            known: self.known,
            from,
        };
        piece.legal_destinations(among)
    }
}
