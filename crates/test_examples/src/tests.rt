//! Each use, called once.

use crate::eval::score_of_mover;
use crate::host::open_and_feed;
use crate::lines::has_whole_line;
use crate::moves::is_checkmate;
use crate::position::own_piece;
use crate::replay::replay_script;
use crate::search::search_in_slices;
use crate::serving::serve_at;
use crate::session::answered;
use crate::sfen::play_text;
use crate::slots::open_and_close;
use crate::sockets::turn_until_still;
use crate::stdio::answer_all;
use crate::table::search_twice;
use crate::wire::write_and_shut;
use host_core::{Event, Host, Outcome};
use session_slots::Slots;
use shared_table::SharedTable;
use shogi_core::{Color, Move, Piece, Position, Role};
use shogi_eval::Eval;
use shogi_moves::is_legal;
use shogi_sfen::read_position;
use socket_loop::Loop;
use std::hash::{BuildHasherDefault, FoldHasher};
use std::test::Fail;
use test_wire::MemoryWire;
use transport::{Wire, WireFault};
use usi_stdio::Duplex;

#[test]
fn a_piece_of_the_side_to_move(rt: HostRuntime) {
    let start = Position::start();
    let pawn = Piece {
        color: Color::Black,
        role: Role::Pawn,
    };
    assert_eq!(rt; own_piece(&start, 7, 7), Some(pawn));
    assert_eq!(rt; own_piece(&start, 7, 3), None);
    assert_eq!(rt; own_piece(&start, 10, 1), None);
}

#[test]
fn a_gold_before_the_king(rt: HostRuntime) -> Result<(), Fail> {
    assert!(rt; !is_checkmate(&Position::start()));
    let (mated, _) = read_position(b"4k4/4G4/4P4/9/9/9/9/9/4K4 w - 1")?;
    assert!(rt; is_checkmate(&mated));
    let (free, _) = read_position(b"4k4/4G4/9/9/9/9/9/9/4K4 w - 1")?;
    assert!(rt; !is_checkmate(&free));
    Ok(())
}

#[test]
fn a_pawn_one_step_forward(rt: HostRuntime) -> Result<(), Fail> {
    let start = Position::start();
    let next = play_text(&start, b"7g7f").ok_or("a legal move")?;
    assert_eq!(rt; next.side(), Color::White);
    assert!(rt; own_piece(&next, 3, 3).is_some());
    assert!(rt; play_text(&start, b"7g7e").is_none());
    assert!(rt; play_text(&start, b"7g").is_none());
    Ok(())
}

// The bishop takes a bishop, 800 from the one side and 800 to the other, and becomes a horse, 300 more.
#[test]
fn a_bishop_takes_a_bishop(rt: HostRuntime) -> Result<(), Fail> {
    let (p, _) = read_position(
        b"lnsgkgsnl/1r5b1/pppppp1pp/6p2/9/2P6/PP1PPPPPP/1B5R1/LNSGKGSNL b - 1",
    )?;
    let m = shogi_sfen::read_move(b"8h2b+").ok_or("a move")?;
    let tried = m;
    assert!(rt; is_legal(&p, tried));
    assert_eq!(rt; score_of_mover(&p, Eval::Plain, m), 1900);
    Ok(())
}

#[test]
fn the_opening_position_at_depth_three(rt: HostRuntime) -> Result<(), Fail> {
    let start = Position::start();
    let found = search_in_slices(&start, Eval::Plain, 3, 1000).ok_or("an end")?;
    assert_eq!(rt;
        (found.value, found.best.map(|m| m.code())),
        (200, Some(9838))
    );
    assert!(rt; search_in_slices(&start, Eval::Plain, 6, 1).is_none());
    let mut table = SharedTable::new(rt.alloc(), 100, BuildHasherDefault::<FoldHasher>::new())?;
    let (first, second) = search_twice(&start, Eval::Plain, 3, &mut table);
    assert_eq!(rt; (first.value, second.value), (200, 200));
    assert_eq!(rt; second.steps, 0);
    Ok(())
}

#[test]
fn a_line_in_two_chunks(rt: HostRuntime) -> Result<(), Fail> {
    assert!(rt; has_whole_line(rt.alloc(), b"go de", b"pth 1\n")?);
    assert!(rt; !has_whole_line(rt.alloc(), b"go de", b"pth 1")?);
    Ok(())
}

#[test]
fn a_session_is_ready(rt: HostRuntime) -> Result<(), Fail> {
    let session = answered(rt.alloc(), b"isready\nisready\n", 10)?.ok_or("an end")?;
    assert_eq!(rt; session.output(), b"readyok\nreadyok\n".as_slice());
    assert!(rt; answered(rt.alloc(), b"isready\n", 0)?.is_none());
    Ok(())
}

#[test]
fn a_closed_session_is_not_found(rt: HostRuntime) -> Result<(), Fail> {
    let mut slots = Slots::new(rt.alloc(), 2);
    let first = open_and_close(&mut slots, 'a')?;
    let second = open_and_close(&mut slots, 'b')?;
    assert!(rt; first.generation != second.generation);
    assert!(rt; slots.get(first).is_none());
    Ok(())
}

#[test]
fn a_session_of_a_host(rt: HostRuntime) -> Result<(), Fail> {
    let hasher = BuildHasherDefault::<FoldHasher>::new();
    let mut host = Host::new(rt.alloc(), 1, 100, hasher)?;
    let id = open_and_feed(&mut host, b"isready\n")?;
    assert!(rt; open_and_feed(&mut host, b"isready\n").is_err());
    let fed = host.activity(id);
    assert!(rt; fed.is_open && fed.is_pending && !fed.has_output);
    assert!(rt; matches!(host.step(Event::Work(id, 1)), Outcome::Worked(_)));
    assert_eq!(rt; host.output(id), Some(b"readyok\n".as_slice()));
    let worked = host.activity(id);
    assert!(rt; worked.wants_input && worked.has_output && !worked.is_pending && !worked.is_over);
    host.close(id)?;
    assert!(rt; !host.activity(id).is_open);
    Ok(())
}

#[test]
fn a_connection_that_is_written_and_shut(rt: HostRuntime) -> Result<(), Fail> {
    let mut wire = MemoryWire::new(rt.alloc());
    let number = wire.connect(Vec::new(rt.alloc()))?;
    assert_eq!(rt; wire.accept(), Ok(Some(number)));
    assert_eq!(rt; write_and_shut(&mut wire, number, b"no room\n"), Ok(8));
    assert_eq!(rt; wire.written(number), b"no room\n".as_slice());
    assert!(rt; wire.is_shut(number));
    Ok(())
}

#[test]
fn a_connection_in_memory(rt: HostRuntime) -> Result<(), Fail> {
    let hasher = BuildHasherDefault::<FoldHasher>::new();
    let mut host = Host::new(rt.alloc(), 1, 100, hasher)?;
    let mut wire = MemoryWire::new(rt.alloc());
    let mut bytes = Vec::new(rt.alloc());
    bytes.extend_from_slice(b"isready\n")?;
    let mut chunks = Vec::new(rt.alloc());
    chunks.push(bytes)?;
    let number = wire.connect(chunks)?;
    let mut turns = Loop::new(rt.alloc(), 1000)?;
    assert!(rt; turn_until_still(&mut turns, &mut host, &mut wire, 100));
    assert_eq!(rt; wire.written(number), b"readyok\n".as_slice());
    Ok(())
}

#[test]
fn a_path_without_a_name(rt: HostRuntime) -> Result<(), Fail> {
    let hasher = BuildHasherDefault::<FoldHasher>::new();
    let mut host = Host::new(rt.alloc(), 1, 100, hasher)?;
    assert_eq!(rt;
        serve_at(&rt, rt.alloc(), &mut host, "", 1),
        Err(WireFault::Device)
    );
    Ok(())
}

#[test]
fn streams(rt: HostRuntime) -> Result<(), Fail> {
    let sent: &[u8] = b"isready\nquit\n";
    let mut ends = Duplex::new(sent, Vec::new(rt.alloc()));
    answer_all(rt.alloc(), &mut ends)?;
    let Duplex { output, .. } = ends;
    assert_eq!(rt; output.as_slice(), b"readyok\n".as_slice());
    Ok(())
}

#[test]
fn scripts(rt: HostRuntime) -> Result<(), Fail> {
    let sent: &[u8] = b"+A\nA isready\n";
    let mut ends = Duplex::new(sent, Vec::new(rt.alloc()));
    replay_script(rt.alloc(), &mut ends)?;
    let Duplex { output, .. } = ends;
    assert_eq!(rt; output.as_slice(), b"== A\nreadyok\n".as_slice());
    Ok(())
}
