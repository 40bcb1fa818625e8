//! Plain minimax: every move of the whole tree, nothing pruned and nothing remembered.

use crate::exchanges::left_after;
use shogi_core::{Move, Position};
use shogi_eval::{Eval, material};
use shogi_moves::{Walk, apply, has_legal};
use shogi_search::{Found, MATE};
use std::alloc::{AllocError, Global};

/// A legal move by its code, and the position after it.
#[derive(Clone, Copy, Debug)]
pub struct Child {
    pub code: u16,
    pub position: Position,
}

/// The legal moves by rising code.
pub fn children_of(alloc: Global, p: &Position) -> Result<Vec<Child>, AllocError> {
    let mut children = Vec::new(alloc);
    let mut walk = Walk::new(p);
    'moves: while let Some(m) = walk.next() {
        let tried = m;
        children.push(Child {
            code: m.code(),
            position: apply(p, tried),
        })?;
    }
    Ok(children)
}

/// The value at depth 0.
fn leaf(p: &Position, e: Eval) -> i32 {
    if has_legal(p) { material(p, e) } else { -MATE }
}

/// The value after the move that ends a line.
fn ended(p: &Position, m: &Move, next: &Position, e: Eval) -> i32 {
    if has_legal(next) {
        left_after(p, m, next, e)
    } else {
        -MATE
    }
}

/// The value and the best move. A step enters or leaves a node.
pub fn minimax(p: &Position, e: Eval, depth: u8) -> Found {
    let mut found = Found {
        value: (-MATE).saturating_sub(i32::from(depth)),
        best: None,
        steps: 2,
    };
    if depth == 0 {
        found.value = leaf(p, e);
        return found;
    }
    let mut walk = Walk::new(p);
    'moves: while let Some(m) = walk.next() {
        let tried = m;
        let next = apply(p, tried);
        let mut below = minimax(&next, e, depth - 1);
        if depth == 1 {
            below.value = ended(p, &m, &next, e);
        }
        let worth = below.value.saturating_neg();
        found.steps = found.steps.saturating_add(below.steps);
        if found.best.is_none() || worth > found.value {
            found.value = worth;
            found.best = Some(m);
        }
    }
    found
}

/// What `minimax` finds, if the value is above `alpha` and below `beta`; else a bound on its side of them.
/// A node is left once it is worth no less than `beta`.
pub fn minimax_within(p: &Position, e: Eval, depth: u8, alpha: i32, beta: i32) -> Found {
    let mut found = Found {
        value: (-MATE).saturating_sub(i32::from(depth)),
        best: None,
        steps: 2,
    };
    if depth == 0 {
        found.value = leaf(p, e);
        return found;
    }
    let mut walk = Walk::new(p);
    'moves: while let Some(m) = walk.next() {
        let tried = m;
        let next = apply(p, tried);
        let floor = alpha.max(found.value);
        let worth = if depth == 1 {
            ended(p, &m, &next, e).saturating_neg()
        } else {
            let (above, below) = (beta.saturating_neg(), floor.saturating_neg());
            minimax_within(&next, e, depth - 1, above, below)
                .value
                .saturating_neg()
        };
        if found.best.is_none() || worth > found.value {
            found.value = worth;
            found.best = Some(m);
        }
        if found.value >= beta {
            return found;
        }
    }
    found
}

/// What `minimax` finds at each depth from 1 on.
pub fn minimax_by_depth(
    alloc: Global,
    p: &Position,
    e: Eval,
    deepest: u8,
) -> Result<Vec<(u8, Found)>, AllocError> {
    let mut by_depth = Vec::new(alloc);
    for depth in 1..=deepest {
        by_depth.push((depth, minimax(p, e, depth)))?;
    }
    Ok(by_depth)
}
