//! Skipping moves of a sweep that surely leave a reply.

ghost use Rattle.shogi_moves.specs.Sweeps.{IsBoardSweep, IsDropSweep};
ghost use Rattle.shogi_replies.specs.Passes.{HasNoEnds, IsPassedTo, SkipsBoard, SkipsDrops};

use crate::move_filter::MoveFilter;
use crate::replies::KnownReplies;
use shogi_core::bits::{bits_above, lowest};
use shogi_core::{SQUARE_CODES, Squares};
use shogi_moves::{BoardSweep, Destinations, DropSweep, Origin, matching_movers};

impl KnownReplies<'_> {
    /// Skips destinations of the present piece, up to the first that the filter lacks or that
    /// guarantees no reply.
    fn skip_destinations(&self, capture: bool, move_filter: &MoveFilter, sweep: &mut BoardSweep)
        requires consistent { IsBoardSweep self.now.position.now capture sweep.old }
        ensures consistent { IsBoardSweep self.now.position.now capture sweep.new }
        ensures passed { IsPassedTo self.now.position.now capture move_filter.now
            self.now.escapes.bits sweep.old.code sweep.new.code }
    {
        let (p, from) = (self.position, sweep.from);
        let Destinations {
            non_promoting,
            promoting,
        } = sweep.destinations;
        from.reveal_invariant();
        if !move_filter.pieces.has(from) {
            return;
        }
        let promote = false;
        let guaranteed = self.guaranteed_destinations(
            &Origin::Board { from, promote },
            non_promoting,
        );
        let promote = true;
        let promoted = self.guaranteed_destinations(&Origin::Board { from, promote }, promoting);
        let promotions = move_filter.promotions();
        let uncertain = non_promoting.without(move_filter.squares & guaranteed)
            | promoting.without(promotions & promoted);
        if uncertain.is_empty() {
            sweep.skip_destinations(p, capture, 81);
            return;
        }
        let to = lowest(uncertain.bits);
        if from.index() as u16 * SQUARE_CODES + 2 * to as u16 > sweep.code {
            sweep.skip_destinations(p, capture, to);
        }
    }

    /// Skips all moves of the next pieces while the filter has each and it guarantees a reply.
    /// Pieces far from the kings are found as a set, not one by one.
    fn skip_pieces(&self, capture: bool, move_filter: &MoveFilter, sweep: &mut BoardSweep)
        requires consistent { IsBoardSweep self.now.position.now capture sweep.old }
        requires if_none { HasNoEnds sweep.old }
        ensures consistent { IsBoardSweep self.now.position.now capture sweep.new }
        ensures passed { IsPassedTo self.now.position.now capture move_filter.now
            self.now.escapes.bits sweep.old.code sweep.new.code }
    {
        let p = self.position;
        p.reveal_invariant();
        let far = self.non_checking_pieces(capture, move_filter);
        let pieces = Squares {
            bits: bits_above(p.as_board().own(p.side()).bits, sweep.from.index()),
        };
        let moving = matching_movers(p, capture, pieces);
        let mut left = moving.without(far).iter();
        'squares: while let Some(from) = left.next() {
            if !self.guarantees_replies(capture, move_filter, from) {
                sweep.skip_pieces(p, capture, from.index());
                return;
            }
        }
        sweep.skip_pieces(p, capture, 81);
    }

    /// Skips the next moves of the sweep while the filter has them and a look at sets of squares
    /// shows that each leaves a legal reply and, without escapes, gives no check.
    pub fn skip_moves(&self, capture: bool, move_filter: &MoveFilter, sweep: &mut BoardSweep)
        requires consistent { IsBoardSweep self.now.position.now capture sweep.old }
        ensures consistent { IsBoardSweep self.now.position.now capture sweep.new }
        ensures passed { SkipsBoard self.now.position.now capture move_filter.now
            self.now.escapes.bits sweep.old sweep.new }
    {
        self.skip_destinations(capture, move_filter, sweep);
        if sweep.destinations.non_promoting.is_empty() {
            if sweep.destinations.promoting.is_empty() {
                self.skip_pieces(capture, move_filter, sweep);
            }
        }
    }

    /// Skips drops of the sweep's present kind, up to the first off `squares`, or the first not
    /// shown to leave a legal reply and, without escapes, to give no check.
    pub fn skip_drops(&self, squares: Squares, sweep: &mut DropSweep)
        requires consistent { IsDropSweep self.now.position.now sweep.old }
        ensures consistent { IsDropSweep self.now.position.now sweep.new }
        ensures passed { SkipsDrops self.now.position.now squares.bits
            self.now.escapes.bits sweep.old sweep.new }
    {
        let (kind, destinations) = (sweep.kind, sweep.destinations);
        let guaranteed = self.guaranteed_destinations(&Origin::Drop { kind }, destinations);
        let uncertain = destinations.without(squares & guaranteed);
        if uncertain.is_empty() {
            sweep.skip_destinations(self.position, 81);
            return;
        }
        sweep.skip_destinations(self.position, lowest(uncertain.bits));
    }
}
