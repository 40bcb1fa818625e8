//! Bounds on the points that a drop costs its side.

ghost use Rattle.std.specs.Prelude.{◌≤◌, ◌≤ℤ◌, pos};
ghost use Rattle.shogi_eval.specs.Losses.{LosesAtMost, KindLosesAtMost};

use crate::eval::Eval;
use crate::gain::drop_gain;
use shogi_core::{Color, Kind, Position};

/// The greater of `loss` and what a drop of the kind costs under `Hand`, if the side holds one.
#[inline(always)]
fn with_loss_of_kind(p: &Position, side: Color, kind: Kind, loss: u32) -> u32
    requires most { loss ≤ 100 }
    ensures kept { loss ≤ result }
    ensures loss { KindLosesAtMost p.now.hands side Eval.Hand (pos result) kind }
    ensures most { result ≤ 100 }
{
    if p.hand(side, kind) == 0 {
        return loss;
    }
    let other = (0 - drop_gain(Eval::Hand, kind)) as u32;
    if other > loss { other } else { loss }
}

/// The most points that a drop of the side costs under `Hand`: those of the dearest kind in hand.
fn loss_of_hand(p: &Position, side: Color) -> u32
    ensures loss { LosesAtMost p.now.hands side Eval.Hand (pos result) }
    ensures most { result ≤ 100 }
{
    let loss = with_loss_of_kind(p, side, Kind::Pawn, 0);
    let loss = with_loss_of_kind(p, side, Kind::Lance, loss);
    let loss = with_loss_of_kind(p, side, Kind::Knight, loss);
    let loss = with_loss_of_kind(p, side, Kind::Silver, loss);
    let loss = with_loss_of_kind(p, side, Kind::Gold, loss);
    let loss = with_loss_of_kind(p, side, Kind::Bishop, loss);
    with_loss_of_kind(p, side, Kind::Rook, loss)
}

/// The most points that a drop costs the side, from 0 to 100: 0 under `Plain` and `Exchange`, and
/// under `Hand` those of the dearest kind in hand.
#[inline(always)]
pub fn loss_of_drops(p: &Position, side: Color, e: Eval) -> i32
    ensures loss { LosesAtMost p.now.hands side e result }
    ensures least { pos 0 ≤ℤ result }
    ensures most { result ≤ℤ pos 100 }
{
    match e {
        Eval::Plain | Eval::Exchange => 0,
        Eval::Hand => loss_of_hand(p, side) as i32,
    }
}
