//! The command of a line.

ghost use Rattle.std.specs.Prelude.{◌≡◌};
ghost use Rattle.shogi_sfen.specs.Words.{words, after_word};
ghost use Rattle.usi_lines.specs.CommandLines.{command_of, named_by, position_of, depth_of, go_of, hold_of};
ghost use Rattle.usi_lines.specs.Options.{IsInRange};
ghost use Rattle.usi_lines.specs.Seen.{meaning_of};

use crate::command::{Command, Hold};
use crate::keywords::{has_word, is};
use crate::options::{read_depth, read_option};
use shogi_sfen::words;

/// The command of a `position` line, by the text after that word.
fn position(text: &[u8]) -> Command<'_>
    ensures { meaning_of result ≡ position_of (words text.now) (after_word text.now) }
{
    let mut rest = words(text);
    match rest.next() {
        Some(word) if is(word, b"startpos") => Command::Startpos(rest.rest()),
        Some(word) if is(word, b"sfen") => Command::Sfen(rest.rest()),
        _ => Command::BadPosition,
    }
}

/// The depth right after the first word `depth`.
fn find_depth(text: &[u8]) -> Option<u8>
    ensures { result ≡ depth_of (words text.now) }
{
    let mut rest = words(text);
    while let Some(word) = rest.next() {
        if is(word, b"depth") {
            return read_depth(rest.next()?);
        }
    }
    None
}

/// The event for which the `bestmove` of a `go` waits.
fn hold(text: &[u8]) -> Hold
    ensures { result ≡ hold_of (words text.now) }
{
    if has_word(text, b"infinite") {
        Hold::UntilStop
    } else if has_word(text, b"ponder") {
        Hold::UntilHit
    } else {
        Hold::Nothing
    }
}

/// The command of a `go` line, by the text after that word.
fn go(text: &[u8]) -> Command<'_>
    ensures { meaning_of result ≡ go_of (words text.now) }
{
    if has_word(text, b"mate") {
        return Command::GoMate;
    }
    Command::Go {
        depth: find_depth(text),
        hold: hold(text),
    }
}

/// The command of a line, by its first word and the text after it.
fn named<'a>(name: &[u8], text: &'a [u8]) -> Command<'a>
    ensures { meaning_of result ≡ named_by name.now (words text.now) (after_word text.now) }
{
    match name {
        _ if is(name, b"usi") => Command::Usi,
        _ if is(name, b"isready") => Command::IsReady,
        _ if is(name, b"usinewgame") => Command::NewGame,
        _ if is(name, b"stop") => Command::Stop,
        _ if is(name, b"ponderhit") => Command::PonderHit,
        _ if is(name, b"gameover") => Command::GameOver,
        _ if is(name, b"quit") => Command::Quit,
        _ if is(name, b"setoption") => read_option(text),
        _ if is(name, b"position") => position(text),
        _ if is(name, b"go") => go(text),
        _ => Command::Other,
    }
}

/// The command of a line of any bytes. The first word names it; words without a meaning there are
/// ignored (USI, commands of a front end; clamping depths is an own choice).
pub fn read_command(line: &[u8]) -> Command<'_>
    ensures command { meaning_of result ≡ command_of line.now }
    ensures range { IsInRange (command_of line.now) }
{
    let mut rest = words(line);
    match rest.next() {
        None => Command::Other,
        Some(name) => named(name, rest.rest()),
    }
}
