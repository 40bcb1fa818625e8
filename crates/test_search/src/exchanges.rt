//! What the other side makes of the move that ends a line under `Eval::Exchange`, written plainly from
//! its definition.

use shogi_core::{Move, Position, Role, Square};
use shogi_eval::{Eval, material};
use shogi_moves::{Walk, apply};

/// What a piece is worth to send into an exchange: its value, a king last.
fn exchange_price(role: Role) -> u32 {
    match role {
        Role::Pawn => 100,
        Role::Lance => 300,
        Role::Knight => 400,
        Role::Silver => 500,
        Role::Gold => 600,
        Role::Bishop => 800,
        Role::Rook => 1000,
        Role::Horse => 1100,
        Role::Dragon => 1300,
        Role::PromotedPawn => 600,
        Role::PromotedLance => 600,
        Role::PromotedKnight => 600,
        Role::PromotedSilver => 600,
        Role::King => 10_000,
    }
}

/// Twice the price of what takes on the square by the move, and one more where it does not promote.
fn price_on(p: &Position, m: &Move, at: Square) -> Option<u32> {
    match m {
        Move::Board { from, to, promote } if *to == at && p.at(at).is_some() => {
            let twice = exchange_price(p.at(*from)?.role).saturating_mul(2);
            Some(if *promote {
                twice
            } else {
                twice.saturating_add(1)
            })
        }
        _ => None,
    }
}

/// The position after the cheapest capture on the square, the first of equal ones, if one is legal.
fn taken_on(p: &Position, at: Square) -> Option<Position> {
    let (mut least, mut next) = (u32::MAX, None);
    let mut walk = Walk::new(p);
    'moves: while let Some(m) = walk.next() {
        let price = price_on(p, &m, at).unwrap_or(u32::MAX);
        if price < least {
            least = price;
            next = Some(apply(p, m));
        }
    }
    next
}

/// What the side to move has once the square is settled, with so many captures at most.
fn settled(p: &Position, at: Square, captures: u8) -> i32 {
    let has = material(p, Eval::Exchange);
    if captures == 0 || !p.board().is_attacked(p.side(), at) {
        return has;
    }
    match taken_on(p, at) {
        Some(next) => has.max(settled(&next, at, captures - 1).saturating_neg()),
        None => has,
    }
}

/// The most that the side to move has once any one square is settled. Nothing is taken on an empty one.
fn best_settled(p: &Position) -> i32 {
    let mut most = material(p, Eval::Exchange);
    for file in 1..10u8 {
        for rank in 1..10u8 {
            if let Some(at) = Square::new(file, rank)
                && p.at(at).is_some()
            {
                most = most.max(settled(p, at, 40));
            }
        }
    }
    most
}

/// Whether the move takes something or promotes.
fn is_loud(p: &Position, m: &Move) -> bool {
    match m {
        Move::Board { to, promote, .. } => *promote || p.at(*to).is_some(),
        Move::Drop { .. } => false,
    }
}

/// What the side to move has in the position after the move that ended a line.
pub fn left_after(p: &Position, m: &Move, next: &Position, e: Eval) -> i32 {
    if e == Eval::Exchange && is_loud(p, m) {
        return best_settled(next);
    }
    material(next, e)
}
