//! The commands of USI.

use shogi_eval::Eval;

/// When a `bestmove` may be sent (USI, go).
#[derive(Clone, Copy, Debug, PartialEq, Eq)]
pub enum Hold {
    /// At once.
    Nothing,
    /// After `stop`, as under `go infinite`.
    UntilStop,
    /// After `ponderhit` or `stop`, as under `go ponder`.
    UntilHit,
}

/// The command of a line (USI, commands of a front end).
#[derive(Clone, Copy, Debug, PartialEq, Eq)]
pub enum Command<'a> {
    /// `usi`
    Usi,
    /// `isready`
    IsReady,
    /// `setoption name Depth value N`, with N clamped to its range
    SetDepth(u8),
    /// `setoption name Eval value V`, with V `Plain`, `Hand` or `Exchange`
    SetEval(Eval),
    /// `setoption name MultiPV value N`, with N clamped to its range
    SetLines(u8),
    /// `usinewgame`
    NewGame,
    /// `position startpos`, with the bytes after that word
    Startpos(&'a [u8]),
    /// `position sfen`, with the bytes after that word
    Sfen(&'a [u8]),
    /// Any other `position` line
    BadPosition,
    /// `go`; the depth, clamped to its range, is the number right after the first word `depth`
    Go { depth: Option<u8>, hold: Hold },
    /// `go` with the word `mate` after it
    GoMate,
    /// `stop`
    Stop,
    /// `ponderhit`
    PonderHit,
    /// `gameover`
    GameOver,
    /// `quit`
    Quit,
    /// A line without words or with an unknown first word, and any other `setoption` line
    Other,
}
