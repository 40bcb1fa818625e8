use super::{REFUTED_MAX, Refutation, RefutedMoves, are_apart};
use shogi_core::{Kind, Move, Square};

fn square(file: u8, rank: u8) -> Square {
    Square::new(file, rank).unwrap_or_default()
}

fn board(from: (u8, u8), to: (u8, u8)) -> Move {
    Move::Board {
        from: square(from.0, from.1),
        to: square(to.0, to.1),
        promote: false,
    }
}

fn pawn(to: (u8, u8)) -> Move {
    Move::Drop {
        kind: Kind::Pawn,
        to: square(to.0, to.1),
    }
}

#[test]
fn moves_that_let_each_other_be(rt: HostRuntime) {
    let reply = board((3, 3), (3, 4));
    let rook = board((2, 8), (2, 4));
    assert!(rt; are_apart(&rook, &reply, &board((7, 7), (7, 6))));
    assert!(rt; are_apart(&pawn((2, 5)), &reply, &rook));
    assert!(rt; !are_apart(&rook, &reply, &pawn((2, 5))));
    assert!(rt; !are_apart(&rook, &board((1, 5), (2, 6)), &board((7, 7), (7, 6))));
    assert!(rt; !are_apart(&rook, &reply, &board((3, 4), (4, 4))));
    assert!(rt; !are_apart(&rook, &board((2, 3), (2, 4)), &board((7, 7), (7, 6))));
}

#[test]
fn bounds(rt: HostRuntime) {
    let (m, other) = (board((2, 8), (2, 4)), board((7, 7), (7, 6)));
    let refutation = Refutation {
        reply: board((3, 3), (3, 4)),
        bound: 10,
    };
    let mut kept = RefutedMoves::none();
    assert!(rt; !kept.serves_after(&m, &refutation.reply, &other, 10));
    kept.keep(&other, &refutation);
    assert!(rt; kept.serves_after(&m, &refutation.reply, &other, 10));
    assert!(rt; !kept.serves_after(&m, &refutation.reply, &other, 9));
    assert!(rt; !kept.serves_after(&other, &refutation.reply, &other, 10));
    assert!(rt; !kept.serves_after(&other, &refutation.reply, &m, 10));
    assert!(rt; !kept.serves_after(&m, &board((8, 3), (8, 4)), &other, 10));
}

#[test]
fn no_more_than_there_is_room_for(rt: HostRuntime) {
    let refutation = Refutation {
        reply: board((3, 3), (3, 4)),
        bound: 10,
    };
    let mut kept = RefutedMoves::none();
    for n in 0..REFUTED_MAX {
        kept.keep(&pawn((1 + (n / 9) as u8, 1 + (n % 9) as u8)), &refutation);
    }
    kept.keep(&pawn((9, 9)), &refutation);
    let m = board((8, 8), (8, 7));
    assert!(rt; kept.serves_after(&m, &refutation.reply, &pawn((4, 5)), 10));
    assert!(rt; !kept.serves_after(&m, &refutation.reply, &pawn((9, 9)), 10));
}
