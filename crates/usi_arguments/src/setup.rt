//! The options of the sessions' setup.
ghost use Rattle.std.specs.Prelude.{◌≡◌, IfNone, IfSome, min};
ghost use Rattle.usi_arguments.specs.CommandLine.{IsFromOne, options_in};
ghost use Rattle.usi_arguments.specs.declared.setup.Evaluation.{Evaluation};
ghost use Rattle.usi_arguments.specs.Setup.{AreSetupOptions, HasDepth, HasNoDepth, HasNoSetup, evaluation_named, evaluation_of};

use crate::values::number_of;
use clap::ArgMatches;

/// The greatest depth that an operator may ask for: `DEPTH_MAX` of `usi_lines`.
pub(crate) const DEPTH_MAX: usize = 16;

/// The most lines that an operator may ask for: `MULTI_PV_MAX` of `usi_lines`.
const LINES_MAX: usize = 8;

/// The default depth of a session (own choice).
const USUAL_DEPTH: usize = 3;

/// The worth of a position at the end of a line.
#[derive(Clone, Copy, Debug, PartialEq, Eq)]
pub enum Evaluation {
    /// The pieces, in hand as on the board.
    Plain,
    /// The pieces, with a tenth more in hand.
    Hand,
    /// The pieces, as in `Plain`, after the best exchange on one square.
    Exchange,
}

/// An operator's choices for all sessions.
#[derive(Clone, Copy, Debug, PartialEq, Eq)]
pub struct SetupOptions {
    /// The depth of a search for which a front end names none, from 1 to 16.
    pub depth: u8,
    /// The greatest depth of any search, from 1 to 16.
    pub max_depth: u8,
    /// The number of lines of a search for which a front end names none, from 1 to 8.
    pub lines: u8,
    /// The evaluation unless a front end names one.
    pub evaluation: Evaluation,
}

/// The setup of the options, if its numbers are in digits alone and in their ranges, and its
/// evaluation is known.
pub(crate) fn setup_of(options: &ArgMatches<'_>) -> Option<SetupOptions>
    ensures some { IfSome result (AreSetupOptions (options_in options.now)) }
    ensures if_none { IfNone result (HasNoSetup (options_in options.now)) }
{
    let max_depth = number_of(options, "max-depth", DEPTH_MAX)?;
    let depth = depth_of(options, max_depth)?;
    let lines = number_of(options, "lines", LINES_MAX)?;
    let evaluation = evaluation_of(options)?;
    Some(SetupOptions {
        depth: depth as u8,
        max_depth: max_depth as u8,
        lines: lines as u8,
        evaluation,
    })
}

/// The number of `--depth`; if it is left out, the lesser of 3 and the greatest depth.
fn depth_of(options: &ArgMatches<'_>, most: usize) -> Option<usize>
    requires { IsFromOne 16 most }
    ensures some { IfSome result (HasDepth (options_in options.now) most) }
    ensures if_none { IfNone result (HasNoDepth (options_in options.now) most) }
{
    match options.get_str("depth") {
        Some(_) => number_of(options, "depth", DEPTH_MAX),
        None => Some(usual_depth(most)),
    }
}

fn usual_depth(most: usize) -> usize
    ensures { result ≡ min 3 most }
{
    if most < USUAL_DEPTH {
        most
    } else {
        USUAL_DEPTH
    }
}

/// The evaluation that `--eval` names.
pub(crate) fn evaluation_of(options: &ArgMatches<'_>) -> Option<Evaluation>
    ensures { result ≡ evaluation_of (options_in options.now) }
{
    evaluation_named(options.get_str("eval")?)
}

/// The evaluation of a word, in small letters or as the USI option `Eval` spells it.
fn evaluation_named(word: &str) -> Option<Evaluation>
    ensures { result ≡ evaluation_named word.now }
{
    if word == "plain" || word == "Plain" {
        return Some(Evaluation::Plain);
    }
    if word == "hand" || word == "Hand" {
        return Some(Evaluation::Hand);
    }
    if word == "exchange" || word == "Exchange" {
        return Some(Evaluation::Exchange);
    }
    None
}
