//! Jobs that the command line asks for.
ghost use Rattle.std.specs.Prelude.{◌≡◌, [], false, true, IfErr, IfNone, IfOk, IfSome, codes, map, string_bytes};
ghost use Rattle.clap.specs.Words.{kind_of, subcommand_rows_of};
ghost use Rattle.usi_arguments.specs.Answers.{AreHelpArguments, AreReplayArguments, AreStdioArguments, AreVersionArguments, GivesJob, GivesHelp, GivesReplay, GivesStdio, HasRanges, HasReach, IsAnswerTo, IsAnswerToParsed, IsAskedBy, IsHeld, IsJobIn, IsJobOf, IsMateIn, IsMovesOf, IsPerftIn, IsRefusal, IsRefusedFor, IsReplayOf, IsServeIn, IsStdioOf, KnowsEvaluation, NamesNoEvaluation, NamesNoJob, NamesNoMate, NamesNoPerft, NamesNoReplay, NamesNoServe, NamesNoStdio, has_no_setup, is_even, setup_in};
ghost use Rattle.usi_arguments.specs.CommandLine.{NamesTextIfAny, options_in};
ghost use Rattle.usi_arguments.specs.Setup.{usual_setup};
ghost use Rattle.usi_arguments.specs.Texts.{too_deep};
ghost use Rattle.usi_arguments.specs.declared.arguments.Job.TheVariants.{Stdio, Version};
ghost use Rattle.usi_arguments.specs.declared.arguments.ArgumentsFault.TheVariants.{OutOfMemory};

use crate::grammar::command_line;
use crate::host::{ENTRIES_MAX, HostOptions, host_of};
use crate::setup::{DEPTH_MAX, Evaluation, SetupOptions, evaluation_of, setup_of};
use crate::values::{is_set, number_of};
use crate::version::version_text;
use clap::error::ErrorKind;
use clap::{ArgMatches, Error};
use std::alloc::{AllocError, Global};
use std::convert::AsStr;

/// The entries of the table if the arguments name no command (own choice).
const USUAL_ENTRIES: usize = 4096;

/// The most plies of a mate that an operator may ask for: 2 MOVES_MAX - 1 of `mate_search`.
const PLIES_MAX: usize = 15;

/// The setup without options (own choice).
const USUAL_SETUP: SetupOptions = SetupOptions {
    depth: 3,
    max_depth: 16,
    lines: 1,
    evaluation: Evaluation::Plain,
};

/// A job that the arguments ask for.
#[derive(Debug, PartialEq, Eq, Drop)]
pub enum Job {
    /// One session over standard input and output, with a table of `entries` entries, 1 to
    /// 1,000,000, and this setup.
    Stdio {
        entries: usize,
        setup: SetupOptions,
    },
    /// A script on standard input, replayed over this host.
    Replay(HostOptions),
    /// This host on a Unix socket at the path `socket`, with its status on one at the path
    /// `status`, if there is one, for `turns` turns, at least 1.
    Serve {
        socket: String,
        status: Option<String>,
        turns: u64,
        host: HostOptions,
    },
    /// The count of sequences of `depth` legal moves, 1 to 16, from the position of the SFEN, or
    /// from the opening position; with `divide` also the count after each first move.
    Perft {
        sfen: Option<String>,
        depth: u8,
        divide: bool,
    },
    /// The legal moves of the position of the SFEN, or of the opening position.
    Moves {
        sfen: Option<String>,
    },
    /// The shortest mate by checks of at most `plies` plies, an odd number from 1 to 15, in the
    /// position of the SFEN, or in that of each line of standard input. `line` adds the main line,
    /// and `keys` the keys along it.
    Mate {
        sfen: Option<String>,
        plies: u8,
        line: bool,
        keys: bool,
    },
    /// The text of a help.
    Help {
        text: String,
    },
    /// The version; `version_text` is its text.
    Version,
}

/// The fault of arguments that name no job.
#[derive(Debug, PartialEq, Eq, Drop)]
pub enum ArgumentsFault {
    /// Out of memory.
    OutOfMemory,
    /// The arguments are no command line of this program; the text says why.
    NotAccepted { text: String },
}

impl Job {
    /// The setup of the job's sessions; `None` if it has none.
    fn setup(&self) -> Option<SetupOptions>
        ensures { result ≡ setup_in self.now }
    {
        match self {
            Job::Stdio { setup, .. } => Some(*setup),
            Job::Replay(host) | Job::Serve { host, .. } => Some(host.setup),
            Job::Perft { .. }
            | Job::Moves { .. }
            | Job::Mate { .. }
            | Job::Help { .. }
            | Job::Version => None,
        }
    }

    /// Whether the job seeks a mate in an even number of plies.
    fn is_even(&self) -> bool
        ensures { result ≡ is_even self.now }
    {
        match self {
            Job::Mate { plies, .. } => *plies % 2 == 0,
            _ => false,
        }
    }
}

impl From<AllocError> for ArgumentsFault {
    ghost from_gives = { λ _ fault. fault ≡ OutOfMemory };

    fn from(_error: AllocError) -> ArgumentsFault {
        ArgumentsFault::OutOfMemory
    }
}

/// Reads the arguments after the program's name as a job:
///
/// - none, or `stdio` with `--entries N`: one session;
/// - `replay` with `--slots N`, `--entries N` and `--slice N`: a script;
/// - `serve` with `--socket PATH`, which is required, the options of `replay`, `--turns N` and
///   `--status PATH`: a Unix socket;
/// - `perft` with `--depth N`, which is required, `--sfen SFEN` and `--divide`;
/// - `moves` with `--sfen SFEN`;
/// - `mate` with `--plies N`, `--sfen SFEN`, `--line` and `--keys`;
/// - `--help`, `-h` or `help`: help; `--version` or `-V`: the version.
///
/// Commands with sessions also take their setup: `--depth N`, `--max-depth N`, `--lines N` and
/// `--eval NAME`. A number is decimal digits alone, and an evaluation is `plain`, `hand` or
/// `exchange`, also with a capital.
///
/// Any other line is `NotAccepted`, as are a depth above the greatest and an even number of plies.
/// Mistakes that `clap` finds come first, then an unknown evaluation, a number with a sign, and the
/// depth or the plies. Help and refusals have the texts of `clap`, except for these four.
pub fn read_arguments<'a, S: AsStr>(
    alloc: Global,
    arguments: &'a [S],
) -> Result<Job, ArgumentsFault>
    ensures ranges { IfOk result HasRanges }
    ensures reach { IfOk result HasReach }
    ensures asked { IfOk result (IsAskedBy (map S.text arguments.entry.now)) }
    ensures refused { IfErr result (IsRefusedFor (map S.text arguments.entry.now)) }
    ensures bare { arguments.entry.now ≡ [] → GivesStdio result }
    ensures stdio { AreStdioArguments (map S.text arguments.entry.now) → GivesStdio result }
    ensures replay { AreReplayArguments (map S.text arguments.entry.now) → GivesReplay result }
    ensures help { AreHelpArguments (map S.text arguments.entry.now) → GivesHelp result }
    ensures version { AreVersionArguments (map S.text arguments.entry.now)
        → GivesJob Version result }
{
    let line = command_line(alloc)?;
    answer_to(
        alloc,
        line.try_get_matches_from(arguments),
        pointer_for(arguments),
    )
}

/// The hint below a refusal: how to ask for the version, if the last argument looks like that.
fn pointer_for<S: AsStr>(arguments: &[S]) -> &'static str {
    match arguments.last() {
        Some(argument) if is_for_version(argument.as_str()) => FOR_THE_VERSION,
        _ => "",
    }
}

fn is_for_version(argument: &str) -> bool {
    argument == "version" || argument == "--version" || argument == "-V" || argument == "-v"
}

/// The answer to the result of `clap`; `pointer` ends the text of a refusal.
fn answer_to(
    alloc: Global,
    parsed: Result<ArgMatches<'_>, Error>,
    pointer: &str,
) -> Result<Job, ArgumentsFault>
    ensures ranges { IfOk result HasRanges }
    ensures reach { IfOk result HasReach }
    ensures parsed { IsAnswerToParsed parsed.entry result }
{
    match parsed {
        Ok(matches) => job_of(alloc, &matches),
        Err(error) => text_of(alloc, &error, pointer),
    }
}

fn job_of(alloc: Global, matches: &ArgMatches<'_>) -> Result<Job, ArgumentsFault>
    ensures ranges { IfOk result HasRanges }
    ensures reach { IfOk result HasReach }
    ensures job { IsJobOf (subcommand_rows_of matches.now) result }
{
    if !knows_evaluation(matches) {
        return refused_with(alloc, NOT_AN_EVALUATION);
    }
    match named_job(alloc, matches)? {
        Some(job) => held(alloc, job),
        None => refused_with(alloc, NOT_DIGITS),
    }
}

/// A refusal with this text.
fn refused_with(alloc: Global, text: &str) -> Result<Job, ArgumentsFault>
    ensures { IsRefusal text.now result }
{
    Err(ArgumentsFault::NotAccepted {
        text: String::from_str(alloc, text)?,
    })
}

/// Whether the command's evaluation is known, or the command has none.
fn knows_evaluation(matches: &ArgMatches<'_>) -> bool
    ensures yes { result ≡ true → KnowsEvaluation (subcommand_rows_of matches.now) }
    ensures no { result ≡ false → NamesNoEvaluation (subcommand_rows_of matches.now) }
{
    match matches.subcommand() {
        Some((name, options)) => has_no_setup(name) || evaluation_of(options).is_some(),
        None => true,
    }
}

/// Whether the command has no sessions, and so no setup.
fn has_no_setup(name: &str) -> bool
    ensures { result ≡ has_no_setup name.now }
{
    name == "perft" || name == "moves" || name == "mate"
}

/// The job, unless its depth is above its greatest or its plies are even.
fn held(alloc: Global, job: Job) -> Result<Job, ArgumentsFault>
    ensures { IsHeld job result }
{
    if job.is_even() {
        return refused_with(alloc, NOT_ODD);
    }
    match job.setup() {
        Some(setup) if setup.depth > setup.max_depth => Err(ArgumentsFault::NotAccepted {
            text: too_deep(alloc, setup)?,
        }),
        _ => Ok(job),
    }
}

/// The refusal of a depth above the greatest.
fn too_deep(alloc: Global, setup: SetupOptions) -> Result<String, AllocError>
    ensures { IfOk result (λ s. string_bytes s ≡ too_deep setup.depth setup.max_depth) }
{
    let depth = setup.depth;
    let most = setup.max_depth;
    format!(in alloc;
        "error: --depth {depth} is above --max-depth {most}

For more information, try '--help'.
"
    )
}

/// The job that the command names, if its numbers are in digits alone and in their ranges.
fn named_job(alloc: Global, matches: &ArgMatches<'_>) -> Result<Option<Job>, AllocError>
    ensures some { IfOk result (λ named. IfSome named (IsJobIn (subcommand_rows_of matches.now))) }
    ensures if_none { IfOk result (λ job.
        IfNone job (NamesNoJob (subcommand_rows_of matches.now))) }
{
    let Some((name, options)) = matches.subcommand() else {
        return Ok(Some(usual_job()));
    };
    if name == "stdio" {
        return Ok(stdio_job(options));
    }
    if name == "replay" {
        return Ok(replay_job(options));
    }
    if name == "serve" {
        return serve_job(alloc, options);
    }
    if name == "perft" {
        return perft_job(alloc, options);
    }
    if name == "moves" {
        return Ok(Some(moves_job(alloc, options)?));
    }
    if name == "mate" {
        return mate_job(alloc, options);
    }
    Ok(None)
}

/// The job of arguments without a command.
fn usual_job() -> Job
    ensures { result ≡ Stdio 4096 usual_setup }
{
    Job::Stdio {
        entries: USUAL_ENTRIES,
        setup: USUAL_SETUP,
    }
}

fn stdio_job(options: &ArgMatches<'_>) -> Option<Job>
    ensures some { IfSome result (λ job. HasRanges job × IsStdioOf (options_in options.now) job) }
    ensures if_none { IfNone result (NamesNoStdio (options_in options.now)) }
{
    let entries = number_of(options, "entries", ENTRIES_MAX)?;
    let setup = setup_of(options)?;
    Some(Job::Stdio { entries, setup })
}

fn replay_job(options: &ArgMatches<'_>) -> Option<Job>
    ensures some { IfSome result (λ job. HasRanges job × IsReplayOf (options_in options.now) job) }
    ensures if_none { IfNone result (NamesNoReplay (options_in options.now)) }
{
    Some(Job::Replay(host_of(options)?))
}

fn serve_job(alloc: Global, options: &ArgMatches<'_>) -> Result<Option<Job>, AllocError>
    ensures some { IfOk result (λ named. IfSome named (IsServeIn (options_in options.now))) }
    ensures if_none { IfOk result (λ named. IfNone named (NamesNoServe (options_in options.now))) }
{
    let Some(text) = options.get_str("socket") else {
        return Ok(None);
    };
    let Some(turns) = number_of(options, "turns", usize::MAX) else {
        return Ok(None);
    };
    let Some(host) = host_of(options) else {
        return Ok(None);
    };
    let socket = String::from_str(alloc, text)?;
    let status = text_if_any(alloc, options, "status")?;
    Ok(Some(Job::Serve {
        socket,
        status,
        turns: turns as u64,
        host,
    }))
}

fn perft_job(alloc: Global, options: &ArgMatches<'_>) -> Result<Option<Job>, AllocError>
    ensures some { IfOk result (λ named. IfSome named (IsPerftIn (options_in options.now))) }
    ensures if_none { IfOk result (λ named. IfNone named (NamesNoPerft (options_in options.now))) }
{
    let Some(depth) = number_of(options, "depth", DEPTH_MAX) else {
        return Ok(None);
    };
    let sfen = text_if_any(alloc, options, "sfen")?;
    let divide = is_set(options, "divide");
    Ok(Some(Job::Perft {
        sfen,
        depth: depth as u8,
        divide,
    }))
}

fn moves_job(alloc: Global, options: &ArgMatches<'_>) -> Result<Job, AllocError>
    ensures { IfOk result (λ job. HasRanges job × IsMovesOf (options_in options.now) job) }
{
    let sfen = text_if_any(alloc, options, "sfen")?;
    Ok(Job::Moves { sfen })
}

fn mate_job(alloc: Global, options: &ArgMatches<'_>) -> Result<Option<Job>, AllocError>
    ensures some { IfOk result (λ named. IfSome named (IsMateIn (options_in options.now))) }
    ensures if_none { IfOk result (λ named. IfNone named (NamesNoMate (options_in options.now))) }
{
    let Some(plies) = number_of(options, "plies", PLIES_MAX) else {
        return Ok(None);
    };
    let sfen = text_if_any(alloc, options, "sfen")?;
    let line = is_set(options, "line");
    let keys = is_set(options, "keys");
    Ok(Some(Job::Mate {
        sfen,
        plies: plies as u8,
        line,
        keys,
    }))
}

/// The text of an option; `None` if it is left out.
fn text_if_any(
    alloc: Global,
    options: &ArgMatches<'_>,
    name: &str,
) -> Result<Option<String>, AllocError>
    ensures { IfOk result (NamesTextIfAny name.now (options_in options.now)) }
{
    match options.get_str(name) {
        Some(text) => Ok(Some(String::from_str(alloc, text)?)),
        None => Ok(None),
    }
}

fn text_of(alloc: Global, error: &Error, pointer: &str) -> Result<Job, ArgumentsFault>
    ensures ranges { IfOk result HasRanges }
    ensures answer { IsAnswerTo (kind_of error.now) result }
{
    match error.kind() {
        ErrorKind::OutOfMemory => Err(ArgumentsFault::OutOfMemory),
        ErrorKind::DisplayHelp => Ok(Job::Help {
            text: format!(in alloc; "{error}")?,
        }),
        ErrorKind::DisplayVersion => Ok(Job::Version),
        _ => Err(ArgumentsFault::NotAccepted {
            text: format!(in alloc; "{error}{pointer}")?,
        }),
    }
}

const NOT_ODD: &str = "error: --plies takes an odd number, from 1 to 15

For more information, try '--help'.
";

const NOT_DIGITS: &str = "error: a number is written in digits alone, without a sign

For more information, try '--help'.
";

const NOT_AN_EVALUATION: &str = "error: --eval takes plain, hand or exchange

For more information, try '--help'.
";

const FOR_THE_VERSION: &str = "For the version, try 'usi_host --version'.
";
