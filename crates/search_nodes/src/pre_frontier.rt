//! Pruning in bulk at depth 2: rows of quiet moves and drops that provably fail low.

ghost use Rattle.std.specs.Prelude.{◌≡◌, ◌≤◌, ◌≤ℤ◌, ◌-ℤ◌, pos, true, IfSome};
ghost use Rattle.std.proofs.Props.{props};
ghost use Rattle.shogi_moves.specs.Escapes.{AreEscapes};
ghost use Rattle.shogi_eval.specs.declared.gain.TheConstants.{PROMOTION_GAIN_MAX};
ghost use Rattle.search_nodes.specs.Changes.{PrunesFiltered};
ghost use Rattle.search_nodes.specs.Frames.{AreFutileQuiets, DropsFailLow, DropFailsLow, IsLoss, MovesLeave};
ghost use Rattle.search_nodes.specs.ReplyCache.{IsReplyCacheOf};
ghost use Rattle.search_nodes.specs.declared.frame.NodeState.TheVariants.{Expanding};

use crate::frame::Frame;
use crate::move_picker::MovePicker;
use crate::reply_cache::ReplyCache;
use crate::threat::slides;
use shogi_core::{Kind, Squares};
use shogi_eval::{PROMOTION_GAIN_MAX, taken_gain};
use shogi_moves::dropped;
use shogi_replies::MoveFilter;

/// A node of depth 2 before its next move, with what is known of the opponent's replies.
#[derive(Drop)]
pub(crate) struct PreFrontier<'a> {
    pub frame: &'a mut Frame,
    pub cache: &'a mut ReplyCache,
    ghost last: { frame.now.depth ≡ 2 },
    ghost next: { frame.now.state ≡ Expanding },
    ghost found: { IsReplyCacheOf frame.now.node cache.now } by { Prim.hlevel props },
}

/// Whether no promotion gains more than `most`.
#[inline(always)]
fn covers_promotions(most: u32) -> bool
    ensures { result ≡ true → PROMOTION_GAIN_MAX ≤ most }
{
    most >= PROMOTION_GAIN_MAX
}

impl<'a> PreFrontier<'a> {
    ghost use Rattle.search_nodes.specs.PreFrontier.{Stays, KeepsFrame};

    /// A filter of the quiet board moves from `pieces` to `squares`, with the escapes, if each that
    /// leaves the opponent its material less `loss` fails low. Promotions are included only if none
    /// gains enough to matter.
    #[inline(always)]
    fn futile_filter(
        &self,
        code: u16,
        loss: i32,
        pieces: Squares,
        squares: Squares,
        escapes: Squares,
    ) -> Option<(MoveFilter, Squares)>
        requires { IsLoss loss }
        ensures { MovesLeave self.now.frame.now loss pieces.bits squares.bits escapes.bits
            → AreEscapes self.now.frame.now.node.position escapes.bits
            → IfSome result (λ f. AreFutileQuiets self.now.frame.now f.0 f.1.bits code) }
    {
        let frame = &*self.frame;
        let room = frame.move_alpha_at(code) - loss - frame.node.score();
        if room < 0 {
            return None;
        }
        let promotes = covers_promotions(room as u32);
        let filter = MoveFilter {
            pieces,
            squares,
            promotes,
        };
        Some((filter, escapes))
    }

    /// Finds the opponent's threats and, once they are known, which moves are sure to have a reply.
    fn look_for_threats(&mut self)
        ensures { KeepsFrame self.old self.new }
    {
        self.cache.look_for_threats(self.frame);
        if self.cache.threats.is_some() {
            self.cache.look_ahead(self.frame);
        }
    }

    /// The quiet board moves that do not interfere with the greatest threat, if it refutes them
    /// all.
    #[inline(always)]
    #[tactic(auto, using(shogi_core::proofs::TargetLaws::no_bits))]
    fn quiets_under_threat(&self, code: u16) -> Option<(MoveFilter, Squares)>
        ensures { IfSome result (λ f. AreFutileQuiets self.now.frame.now f.0 f.1.bits code) }
    {
        let Some(threats) = &self.cache.threats else {
            return None;
        };
        let Some(threat) = &threats.greatest else {
            return None;
        };
        let pieces = Squares::all().except(threat.target);
        let aside = threat.non_interfering_squares(true);
        self.futile_filter(code, 0 - threat.gain as i32, pieces, aside, Squares::none())
    }

    /// The next quiet board moves that fail low, if the opponent's material or its greatest threat
    /// settles it.
    #[inline(always)]
    fn futile_quiets(&mut self, code: u16) -> Option<(MoveFilter, Squares)>
        ensures lost { IfSome result (λ f. AreFutileQuiets self.old.frame.now f.0 f.1.bits code) }
        ensures unchanged { KeepsFrame self.old self.new }
    {
        let (all, escapes) = (Squares::all(), self.cache.known_escapes());
        let loss = self.frame.loss_after();
        let filter = self.futile_filter(code, loss, all, all, escapes);
        if filter.is_some() {
            return filter;
        }
        self.look_for_threats();
        self.quiets_under_threat(code)
    }

    /// Prunes the next quiet board moves that fail low in bulk.
    fn prune_quiets(&mut self)
        ensures pruned { PrunesFiltered self.old.frame.now self.new.frame.now }
        ensures unchanged { Stays self.old self.new }
    {
        let frame = &*self.frame;
        let Some(code) = frame.picker.quiets() else {
            return;
        };
        let Some((filter, escapes)) = self.futile_quiets(code) else {
            return;
        };
        let frame = &mut *self.frame;
        let known = self.cache.replies.at(frame.node.as_position(), escapes);
        frame.picker.skip_quiets(&known, &filter);
    }

    /// Whether a drop of the kind fails low if it leaves the opponent its material less `loss`.
    #[inline(always)]
    fn drop_fails_low(&self, kind: Kind, code: u16, loss: i32) -> bool
        requires { IsLoss loss }
        ensures { result ≡ true → DropFailsLow self.now.frame.now kind code loss }
    {
        let frame = &*self.frame;
        let move_alpha = frame.move_alpha_at(code);
        frame.node.score_after_drop(kind) >= loss - move_alpha
    }

    /// Squares on which a drop of the kind that gives no check is captured, if it then fails low.
    #[inline(always)]
    #[tactic(auto, using(shogi_core::proofs::TargetLaws::no_bits))]
    fn futile_squares_if_taken(&self, kind: Kind, code: u16) -> Squares
        ensures { DropsFailLow self.now.frame.now kind result.bits 0 code }
    {
        let Some(threats) = &self.cache.threats else {
            return Squares::none();
        };
        let node = &self.frame.node;
        let put = dropped(node.as_position().side(), kind);
        if self.drop_fails_low(kind, code, 0 - taken_gain(node.eval(), put) as i32) {
            return threats.takes;
        }
        Squares::none()
    }

    /// Squares on which a drop of the kind leaves the greatest threat, if it then fails low.
    #[inline(always)]
    #[tactic(auto, using(shogi_core::proofs::TargetLaws::no_bits))]
    fn futile_squares_under_threat(&self, kind: Kind, code: u16) -> Squares
        ensures { DropsFailLow self.now.frame.now kind result.bits 0 code }
    {
        let Some(threats) = &self.cache.threats else {
            return Squares::none();
        };
        let Some(threat) = &threats.greatest else {
            return Squares::none();
        };
        if self.drop_fails_low(kind, code, 0 - threat.gain as i32) {
            let put = dropped(self.frame.node.as_position().side(), kind);
            return threat.non_interfering_squares(slides(put));
        }
        Squares::none()
    }

    /// Squares on which drops of the kind that guarantee a reply fail low, with the escapes that
    /// may show that reply.
    #[tactic(auto, using(shogi_core::proofs::TargetLaws::no_bits))]
    fn futile_drops(&mut self, kind: Kind, code: u16) -> (Squares, Squares)
        ensures lost { DropsFailLow self.old.frame.now kind result.0.bits result.1.bits code }
        ensures escapes { AreEscapes self.old.frame.now.node.position result.1.bits }
        ensures unchanged { KeepsFrame self.old self.new }
    {
        let loss = self.frame.loss_after();
        if self.drop_fails_low(kind, code, loss) {
            return (Squares::all(), self.cache.known_escapes());
        }
        self.look_for_threats();
        let taken = self.futile_squares_if_taken(kind, code);
        (
            taken | self.futile_squares_under_threat(kind, code),
            Squares::none(),
        )
    }

    /// Prunes the next drops of the present kind that fail low in bulk; whether the picker moved on
    /// to another kind.
    fn prune_kind(&mut self) -> bool
        ensures pruned { PrunesFiltered self.old.frame.now self.new.frame.now }
        ensures unchanged { Stays self.old self.new }
    {
        let frame = &*self.frame;
        let Some((kind, code)) = frame.picker.drops() else {
            return false;
        };
        let (squares, escapes) = self.futile_drops(kind, code);
        if squares.is_empty() {
            return false;
        }
        let frame = &mut *self.frame;
        let known = self.cache.replies.at(frame.node.as_position(), escapes);
        frame.picker.skip_drops(&known, squares);
        frame.picker.turn_to_kind(frame.node.as_position())
    }

    /// Prunes the next drops, one kind after another, until a drop has to be looked at by itself.
    fn prune_drops(&mut self)
        ensures pruned { PrunesFiltered self.old.frame.now self.new.frame.now }
        ensures unchanged { Stays self.old self.new }
    {
        'kinds: for _ in 0..7u8 {
            if !self.prune_kind() {
                return;
            }
        }
    }

    /// Prunes the next moves in bulk once a move has failed low, before any of them is picked. Does
    /// nothing in check: few moves are legal then, so each is tested by itself.
    #[inline(always)]
    pub(crate) fn prune_in_bulk(&mut self)
        ensures pruned { PrunesFiltered self.old.frame.now self.new.frame.now }
        ensures unchanged { Stays self.old self.new }
    {
        if !self.frame.has_move || self.frame.is_checked() {
            return;
        }
        self.frame.turn_from(true);
        if let MovePicker::Captures(_, _) = self.frame.picker {
            return;
        }
        self.prune_quiets();
        self.frame.turn_from(false);
        self.prune_drops();
    }
}
