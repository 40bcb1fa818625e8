//! The command line for `clap`: commands and their options.
ghost use Rattle.std.specs.Prelude.{◌≡◌, IfOk};
ghost use Rattle.clap.specs.Words.{App, Rule, app_of, new_app, with_rule, with_subcommand};
ghost use Rattle.usi_arguments.specs.CommandLine.{IsCommand, IsMade, IsOption, bare_line, command_line, depth_option, divide_option, entries_option, eval_option, flag_option, mate_command, mate_plies_option, mate_position, moves_command, number_option, perft_command, plies_option, replay_command, serve_command, sfen_option, socket_command, socket_option, stdio_command, turns_option, value_option, with_host_options, with_setup_options};

use crate::help;
use crate::help::{
    ABOUT, AFTER_HELP, AFTER_LONG_HELP, MATE_ABOUT, MATE_HELP, MATE_LONG_HELP, MOVES_ABOUT,
    MOVES_HELP, MOVES_LONG_HELP, PERFT_ABOUT, PERFT_HELP, PERFT_LONG_HELP, REPLAY_ABOUT,
    REPLAY_HELP, REPLAY_LONG_HELP, SERVE_ABOUT, SERVE_HELP, SERVE_LONG_HELP, STDIO_ABOUT,
    STDIO_HELP, STDIO_LONG_HELP,
};
use crate::version::version_text;
use clap::builder::ValueParser;
use clap::{Arg, ArgAction, Command};
use std::alloc::{AllocError, Global};

/// The program with its six commands.
pub(crate) fn command_line<'a>(alloc: Global) -> Result<Command<'a>, AllocError>
    ensures { IfOk result (λ line. app_of line ≡ command_line) }
{
    let line = with_command(bare_line(alloc), stdio_command(alloc));
    let line = with_command(line, replay_command(alloc));
    let line = with_command(line, serve_command(alloc));
    let line = with_command(line, perft_command(alloc));
    let line = with_command(line, moves_command(alloc));
    with_command(line, mate_command(alloc))
}

/// The line with another command; a failure of either is passed on.
fn with_command<'a>(
    line: Result<Command<'a>, AllocError>,
    command: Result<Command<'a>, AllocError>,
) -> Result<Command<'a>, AllocError>
    ensures { (whole part : App) → IfOk line.entry (λ line. app_of line ≡ whole)
        → IsMade part command.entry
        → IfOk result (λ made. app_of made ≡ with_subcommand whole part.top) }
{
    line?.subcommand(command?)
}

fn bare_line<'a>(alloc: Global) -> Result<Command<'a>, AllocError>
    ensures { IfOk result (λ line. app_of line ≡ bare_line) }
{
    described(alloc, "usi_host", ABOUT, AFTER_HELP, AFTER_LONG_HELP)
        .no_binary_name(true)
        .version(version_text())
        .bin_name("usi_host")
}

/// A command with the texts of its help.
fn described<'a>(
    alloc: Global,
    name: &'a str,
    about: &'a str,
    after_help: &'a str,
    after_long_help: &'a str,
) -> Command<'a>
    ensures { IsCommand (new_app name.entry.now) result }
{
    Command::new(alloc, name)
        .about(about)
        .after_help(after_help)
        .after_long_help(after_long_help)
}

/// The command with another option; a failure of the command is passed on.
fn with_option<'a>(
    made: Result<Command<'a>, AllocError>,
    option: Arg<'a>,
) -> Result<Command<'a>, AllocError>
    ensures { (app : App) (rule : Rule) → IsOption rule option.entry → IsMade app made.entry
        → IsMade (with_rule app rule) result }
{
    made?.arg(option)
}

fn stdio_command<'a>(alloc: Global) -> Result<Command<'a>, AllocError>
    ensures { IsMade stdio_command result }
{
    let command = described(alloc, "stdio", STDIO_ABOUT, STDIO_HELP, STDIO_LONG_HELP);
    with_setup_options(alloc, with_option(Ok(command), entries_option(alloc)))
}

fn replay_command<'a>(alloc: Global) -> Result<Command<'a>, AllocError>
    ensures { IsMade replay_command result }
{
    let command = described(alloc, "replay", REPLAY_ABOUT, REPLAY_HELP, REPLAY_LONG_HELP);
    with_setup_options(alloc, with_host_options(alloc, Ok(command)))
}

/// The command with the options of a host.
fn with_host_options<'a>(
    alloc: Global,
    made: Result<Command<'a>, AllocError>,
) -> Result<Command<'a>, AllocError>
    ensures { (app : App) → IsMade app made.entry → IsMade (with_host_options app) result }
{
    let made = with_option(made, number_option(alloc, "slots", 1024, "64", help::SLOTS));
    let made = with_option(made, entries_option(alloc));
    with_option(
        made,
        number_option(alloc, "slice", 1_000_000_000, "300", help::SLICE),
    )
}

/// The command with the options of the setup.
fn with_setup_options<'a>(
    alloc: Global,
    made: Result<Command<'a>, AllocError>,
) -> Result<Command<'a>, AllocError>
    ensures { (app : App) → IsMade app made.entry → IsMade (with_setup_options app) result }
{
    let made = with_option(made, depth_option(alloc));
    let made = with_option(
        made,
        number_option(alloc, "max-depth", 16, "16", help::MAX_DEPTH),
    );
    let made = with_option(made, number_option(alloc, "lines", 8, "1", help::LINES));
    with_option(made, eval_option(alloc))
}

fn serve_command<'a>(alloc: Global) -> Result<Command<'a>, AllocError>
    ensures { IsMade serve_command result }
{
    let made = with_host_options(alloc, socket_command(alloc));
    let made = with_setup_options(alloc, made);
    with_option(made, turns_option(alloc))
}

/// `serve` with the options that name its sockets.
fn socket_command<'a>(alloc: Global) -> Result<Command<'a>, AllocError>
    ensures { IsMade socket_command result }
{
    let command = described(alloc, "serve", SERVE_ABOUT, SERVE_HELP, SERVE_LONG_HELP);
    let made = with_option(Ok(command), socket_option(alloc));
    with_option(made, value_option(alloc, "status", "PATH", help::STATUS))
}

fn perft_command<'a>(alloc: Global) -> Result<Command<'a>, AllocError>
    ensures { IsMade perft_command result }
{
    let command = described(alloc, "perft", PERFT_ABOUT, PERFT_HELP, PERFT_LONG_HELP);
    let made = with_option(Ok(command), plies_option(alloc));
    let made = with_option(made, sfen_option(alloc));
    with_option(made, divide_option(alloc))
}

fn moves_command<'a>(alloc: Global) -> Result<Command<'a>, AllocError>
    ensures { IsMade moves_command result }
{
    let command = described(alloc, "moves", MOVES_ABOUT, MOVES_HELP, MOVES_LONG_HELP);
    with_option(Ok(command), sfen_option(alloc))
}

fn mate_command<'a>(alloc: Global) -> Result<Command<'a>, AllocError>
    ensures { IsMade mate_command result }
{
    let made = with_option(mate_position(alloc), flag_option(alloc, "line", help::LINE));
    with_option(made, flag_option(alloc, "keys", help::KEYS))
}

/// `mate` with the options of its position and its length.
fn mate_position<'a>(alloc: Global) -> Result<Command<'a>, AllocError>
    ensures { IsMade mate_position result }
{
    let command = described(alloc, "mate", MATE_ABOUT, MATE_HELP, MATE_LONG_HELP);
    let made = with_option(Ok(command), mate_plies_option(alloc));
    with_option(made, sfen_or_lines_option(alloc))
}

fn mate_plies_option<'a>(alloc: Global) -> Arg<'a>
    ensures { IsOption mate_plies_option result }
{
    number_option(alloc, "plies", 15, "9", help::MATE_PLIES)
}

/// The position of `mate`, which reads standard input if it is left out.
fn sfen_or_lines_option<'a>(alloc: Global) -> Arg<'a>
    ensures { IsOption sfen_option result }
{
    value_option(alloc, "sfen", "SFEN", help::SFEN_OR_LINES)
}

fn sfen_option<'a>(alloc: Global) -> Arg<'a>
    ensures { IsOption sfen_option result }
{
    value_option(alloc, "sfen", "SFEN", help::SFEN)
}

fn plies_option<'a>(alloc: Global) -> Arg<'a>
    ensures { IsOption plies_option result }
{
    value_option(alloc, "depth", "N", help::PLIES)
        .required(true)
        .value_parser(ValueParser::unsigned(1, 16))
}

fn divide_option<'a>(alloc: Global) -> Arg<'a>
    ensures { IsOption divide_option result }
{
    flag_option(alloc, "divide", help::DIVIDE)
}

/// An option without a value.
fn flag_option<'a>(alloc: Global, name: &'a str, help: &'a str) -> Arg<'a>
    ensures { IsOption (flag_option name.entry.now) result }
{
    Arg::new(alloc, name)
        .long(name)
        .action(ArgAction::SetTrue)
        .help(help)
}

fn socket_option<'a>(alloc: Global) -> Arg<'a>
    ensures { IsOption socket_option result }
{
    value_option(alloc, "socket", "PATH", help::SOCKET).required(true)
}

fn turns_option<'a>(alloc: Global) -> Arg<'a>
    ensures { IsOption turns_option result }
{
    number_option(
        alloc,
        "turns",
        u64::MAX,
        "18446744073709551615",
        help::TURNS,
    )
    .hide_default_value(true)
}

fn entries_option<'a>(alloc: Global) -> Arg<'a>
    ensures { IsOption entries_option result }
{
    number_option(alloc, "entries", 1_000_000, "4096", help::ENTRIES)
}

/// `--depth`, which has no default in `clap`: it depends on `--max-depth`.
fn depth_option<'a>(alloc: Global) -> Arg<'a>
    ensures { IsOption depth_option result }
{
    value_option(alloc, "depth", "N", help::DEPTH).value_parser(ValueParser::unsigned(1, 16))
}

fn eval_option<'a>(alloc: Global) -> Arg<'a>
    ensures { IsOption eval_option result }
{
    value_option(alloc, "eval", "NAME", help::EVAL).default_value("plain")
}

/// The option of a number from 1 to `most`, with the default `usual`.
fn number_option<'a>(
    alloc: Global,
    name: &'a str,
    most: u64,
    usual: &'a str,
    help: &'a str,
) -> Arg<'a>
    ensures { IsOption (number_option name.entry.now most usual.entry.now) result }
{
    value_option(alloc, name, "N", help)
        .value_parser(ValueParser::unsigned(1, most))
        .default_value(usual)
}

/// The option of a value, named `value` in help.
fn value_option<'a>(alloc: Global, name: &'a str, value: &'a str, help: &'a str) -> Arg<'a>
    ensures { IsOption (value_option name.entry.now) result }
{
    Arg::new(alloc, name)
        .long(name)
        .value_name(value)
        .help(help)
}
