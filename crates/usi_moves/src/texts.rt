//! What `moves` and `perft` print.

ghost use Rattle.std.specs.Prelude.{◌≡◌, ◌≤◌, ◌<◌, ◌^◌, ℕ, List, [], ◌∷◌, OnOk, Option, None};
ghost use Rattle.shogi_core.specs.Codes.{code_of};
ghost use Rattle.shogi_moves.specs.LegalMoves.{legal_codes, perft};
ghost use Rattle.usi_moves.specs.Listings.{Appends, IsTooMany, count_text, move_line, moves_text, perft_text, share_text};
ghost use Rattle.usi_moves.specs.Told.{AreTold, IsTold};
ghost use Rattle.usi_moves.specs.declared.texts.CountFault.TheVariants.{OutOfMemory, TooMany};

use itoa::Buffer;
use shogi_core::{Move, Position};
use shogi_moves::{Walk, advance, perft};
use shogi_sfen::write_move;
use std::alloc::{AllocError, Allocator};

/// Why there is no count.
#[derive(Clone, Copy, Debug, PartialEq, Eq)]
pub enum CountFault {
    /// Memory ran out.
    OutOfMemory,
    /// The count is 2^64 or more.
    TooMany,
}

impl From<AllocError> for CountFault {
    ghost from_gives = { λ _ fault. fault ≡ OutOfMemory };

    fn from(_error: AllocError) -> CountFault {
        CountFault::OutOfMemory
    }
}

/// Appends a move, and the end of its line.
#[tactic(auto, using(crate::proofs::Appending::after_two))]
fn write_line<A: Allocator>(out: &mut Vec<u8, A>, m: &Move) -> Result<(), AllocError>
    ensures { Appends result out.old out.new (move_line (code_of m.now)) }
{
    m.reveal_invariant();
    let text = write_move(*m);
    out.extend_from_slice(text.as_slice())?;
    out.extend_from_slice(b"\n")?;
    Ok(())
}

/// Appends a line for each legal move, by rising code, as USI writes it. On an error some first
/// bytes of this are appended.
pub fn write_moves<A: Allocator>(out: &mut Vec<u8, A>, p: &Position) -> Result<(), AllocError>
    ensures { Appends result out.old out.new (moves_text p.now) }
{
    let mut walk = Walk::new(p);
    'moves: while let Some(m) = walk.next() {
        write_line(out, &m)?;
    }
    Ok(())
}

/// Appends a count, and the end of its line.
#[tactic(auto, using(crate::proofs::Appending::after_two))]
fn write_count<A: Allocator>(out: &mut Vec<u8, A>, count: u64) -> Result<(), AllocError>
    ensures { Appends result out.old out.new (count_text count) }
{
    let mut buffer = Buffer::new();
    out.extend_from_slice(buffer.format(count).as_bytes())?;
    out.extend_from_slice(b"\n")?;
    Ok(())
}

/// Appends the line of a first move with its count, if the counts are divided.
#[tactic(auto, using(crate::proofs::Appending::after_three))]
fn write_share<A: Allocator>(
    out: &mut Vec<u8, A>,
    divide: bool,
    m: &Move,
    count: u64,
) -> Result<(), AllocError>
    ensures { Appends result out.old out.new (share_text divide (code_of m.now) count) }
{
    if !divide {
        return Ok(());
    }
    m.reveal_invariant();
    let text = write_move(*m);
    out.extend_from_slice(text.as_slice())?;
    out.extend_from_slice(b": ")?;
    write_count(out, count)?;
    Ok(())
}

/// Follows a count as it goes on, without a part in it.
pub trait Progress {
    /// The codes of the moves that it was told, in order; `None` if it does not report.
    ghost told: { Self → Option (List ℕ) } = { λ _. None };

    /// All sequences that begin with this move are counted.
    fn counted(&mut self, m: &Move)
        ensures told { IsTold (told self.old) (told self.new) (code_of m.now ∷ []) };
}

/// Appends the number of sequences of `depth` legal moves, 1 to 16, on a line. If the count is
/// divided, a line for each first move with its count comes before, by rising code. Fails with
/// `TooMany` if the number is 2^64 or more; on an error some first bytes of this may be appended.
/// `progress` is told each first move by rising code, once it is counted.
pub fn write_perft<A: Allocator, P: Progress>(
    out: &mut Vec<u8, A>,
    p: &Position,
    depth: u8,
    divide: bool,
    progress: &mut P,
) -> Result<(), CountFault>
    requires least { 1 ≤ depth }
    requires most { depth ≤ 16 }
    ensures ok { Appends result out.old out.new (perft_text p.now depth divide) }
    ensures fits { OnOk result (perft p.now depth < 2 ^ 64) }
    ensures too_many { IsTooMany p.now depth result }
    ensures told { AreTold result (P.told progress.old) (P.told progress.new) (legal_codes p.now) }
{
    let mut total: u64 = 0;
    let mut walk = Walk::new(p);
    'moves: while let Some(m) = walk.next() {
        let mut next = *p;
        let played = &m;
        advance(&mut next, *played);
        let Some(count) = perft(&next, depth - 1) else {
            return Err(CountFault::TooMany);
        };
        let Some(more) = total.checked_add(count) else {
            return Err(CountFault::TooMany);
        };
        total = more;
        write_share(out, divide, played, count)?;
        progress.counted(played);
    }
    write_count(out, total)?;
    Ok(())
}
