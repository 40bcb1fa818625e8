//! A node with one ply left, prepared for looking at its moves.

ghost use Rattle.std.specs.Prelude.{◌≡◌};
ghost use Rattle.shogi_core.specs.Bits.{HasBits};
ghost use Rattle.shogi_core.specs.Validity.{IsValid};
ghost use Rattle.shogi_moves.specs.Destinations.{is_own};
ghost use Rattle.last_ply.specs.LastPly.{is_foe};

use shogi_core::{Square, Squares};
use shogi_eval::Node;
use shogi_moves::{KnownPosition, check_info_of};

/// A node with its check info, the squares of the pieces of the side to move, and those of the
/// opponent's.
#[derive(Clone, Copy)]
pub struct FrontierNode<'a> {
    pub node: &'a Node,
    pub known: KnownPosition<'a>,
    pub own: Squares,
    pub foe: Squares,
    ghost valid: { IsValid node.now.position },
    ghost same: { known.position.now ≡ node.now.position },
    ghost owns: { HasBits own.bits (is_own node.now.position) },
    ghost foes: { HasBits foe.bits (is_foe node.now.position) },
}

impl FrontierNode<'_> {
    ghost use Rattle.last_ply.specs.LastPly.{IsReach};

    /// Prepares the node.
    pub fn of(node: &Node) -> FrontierNode<'_>
        ensures { result.node.now ≡ node.now }
    {
        let p = node.as_position();
        p.reveal_invariant();
        let board = p.as_board();
        FrontierNode {
            node,
            known: check_info_of(p).at(p),
            own: board.own(p.side()),
            foe: board.own(p.side().opponent()),
        }
    }

    /// The squares that the piece on `from` reaches, without those of its own side's pieces.
    #[inline(always)]
    pub fn targets(&self, from: Square) -> Squares
        ensures { IsReach self.now.node.now.position from result.bits }
    {
        let board = self.node.as_position().as_board();
        board.targets(from).without(self.own)
    }
}
