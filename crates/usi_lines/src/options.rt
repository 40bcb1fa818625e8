//! The options of a session: their ranges, and reading their values.

ghost use Rattle.std.specs.Prelude.{◌≡◌};
ghost use Rattle.shogi_sfen.specs.Words.{words};
ghost use Rattle.usi_lines.specs.Options.{clamped_read, depth_read, eval_read, multi_pv_read, command_for, option_of};
ghost use Rattle.usi_lines.specs.Seen.{meaning_of};

use crate::command::Command;
use crate::keywords::is;
use shogi_eval::Eval;
use shogi_sfen::{read_number, words};

/// The least depth of a `go`, in plies (own choice, as is the greatest).
pub const DEPTH_MIN: u8 = 1;

/// The greatest depth of a `go`, in plies.
pub const DEPTH_MAX: u8 = 16;

/// The least number of best lines of a `go` (own choice, as is the greatest).
pub const MULTI_PV_MIN: u8 = 1;

/// The greatest number of best lines of a `go`.
pub const MULTI_PV_MAX: u8 = 8;

/// The number that the word writes, clamped to a range; `None` if the word is no number.
fn read_clamped(word: &[u8], least: u8, most: u8) -> Option<u8>
    ensures { result ≡ clamped_read least most word.now }
{
    let number = read_number(word, most as u32)?;
    Some(number.max(least as u32) as u8)
}

/// The depth that the word writes, clamped to its range; `None` if the word is no number.
pub fn read_depth(word: &[u8]) -> Option<u8>
    ensures { result ≡ depth_read word.now }
{
    read_clamped(word, DEPTH_MIN, DEPTH_MAX)
}

/// The number of best lines that the word writes, clamped to its range; `None` if the word is no
/// number.
fn read_multi_pv(word: &[u8]) -> Option<u8>
    ensures { result ≡ multi_pv_read word.now }
{
    read_clamped(word, MULTI_PV_MIN, MULTI_PV_MAX)
}

/// The evaluation of that name; `None` for any other word.
fn read_eval(word: &[u8]) -> Option<Eval>
    ensures { result ≡ eval_read word.now }
{
    match word {
        _ if is(word, b"Plain") => Some(Eval::Plain),
        _ if is(word, b"Hand") => Some(Eval::Hand),
        _ if is(word, b"Exchange") => Some(Eval::Exchange),
        _ => None,
    }
}

/// The command that sets an option to a value, with a row for each option; `Other` for an unknown
/// option or value.
fn command_for<'a>(name: &[u8], value: &[u8]) -> Command<'a>
    ensures { meaning_of result ≡ command_for name.now value.now }
{
    if is(name, b"Depth") {
        match read_depth(value) {
            Some(depth) => Command::SetDepth(depth),
            None => Command::Other,
        }
    } else if is(name, b"Eval") {
        match read_eval(value) {
            Some(eval) => Command::SetEval(eval),
            None => Command::Other,
        }
    } else if is(name, b"MultiPV") {
        match read_multi_pv(value) {
            Some(lines) => Command::SetLines(lines),
            None => Command::Other,
        }
    } else {
        Command::Other
    }
}

/// The command of a `setoption` line, by the text after that word: exactly `name NAME value VALUE`,
/// else `Other`.
pub fn read_option<'a>(text: &[u8]) -> Command<'a>
    ensures { meaning_of result ≡ option_of (words text.now) }
{
    let mut rest = words(text);
    let (Some(before_name), Some(name), Some(before_value), Some(value), None) = (
        rest.next(),
        rest.next(),
        rest.next(),
        rest.next(),
        rest.next(),
    ) else {
        return Command::Other;
    };
    if is(before_name, b"name") && is(before_value, b"value") {
        command_for(name, value)
    } else {
        Command::Other
    }
}
