//! The shogi host as a program.
#![tactic(auto)]

ghost use Rattle.std.specs.Prelude.{◌≡◌, ◌≤◌, option_map, string_bytes};
ghost use Rattle.usi_arguments.specs.Answers.{HasHostRanges};
ghost use Rattle.usi_arguments.specs.Setup.{IsInReach};

mod mates;
mod setup;
mod sockets;

use crate::mates::run_mate;
use crate::setup::{host_of, run_script, run_session};
use crate::sockets::opened;
use host_core::Host;
use socket_loop::{Limits, Loop, serve};
use std::alloc::Global;
use std::hash::RandomState;
use std::io;
use std::io::IsTerminal;
use std::process::ExitCode;
use usi_app::{DONE, ServeFault, complain, counting, listing, print_out, warn_of_files};
use usi_arguments::{HostOptions, Job, asked, complaint, status, version_text};
use usi_stdio::Duplex;

/// Serves a host on a Unix socket at this path, for so many turns, and if there is another path its
/// status on one there.
fn serve_host(
    rt: &HostRuntime,
    host: &mut Host<RandomState, Global>,
    socket: &str,
    status: &Option<String>,
    limits: Limits,
    turns: u64,
) -> Result<(), ServeFault>
    requires least_slice { 1 ≤ limits.slice }
{
    let Ok(mut connections) = Loop::new(rt.alloc(), limits.slice) else {
        return Err(ServeFault::OutOfMemory);
    };
    let (mut wire, mut watch) = opened(rt, socket, status, limits)?;
    match serve(host, &mut connections, &mut wire, &mut watch, turns) {
        Ok(()) => Ok(()),
        Err(fault) => Err(fault.into()),
    }
}

/// Makes a host whose sessions begin under the setup, and serves it. Strangers share its table, so the hash of the table has a seed that they
/// can't know.
fn run_socket(
    rt: &HostRuntime,
    socket: &str,
    status: &Option<String>,
    turns: u64,
    options: HostOptions,
) -> Result<(), ServeFault>
    requires ranges { HasHostRanges options }
    requires reach { IsInReach options.setup }
{
    let Ok(hasher) = RandomState::new(rt) else {
        return Err(ServeFault::ReadFailed);
    };
    let limits = Limits {
        slots: options.slots as u64,
        entries: options.entries as u64,
        slice: options.slice,
    };
    let mut host = host_of(rt.alloc(), hasher, options)?;
    warn_of_files(rt, limits.slots);
    serve_host(rt, &mut host, socket, status, limits, turns)
}

/// The bytes of a text, if there is one.
fn bytes_of(text: &Option<String>) -> Option<&[u8]>
    ensures { option_map (λ bytes. bytes.now) result ≡ option_map string_bytes text.now }
{
    match text {
        Some(text) => Some(text.as_bytes()),
        None => None,
    }
}

/// Does what the arguments of the command line ask for. The status is 0 if that was done, 1 if it ended
/// early, 2 if the arguments are not accepted, and 3 if a script has a bad line.
fn main(rt: HostRuntime) -> ExitCode {
    let mut ends = Duplex::new(rt.reader(), io::writer(&rt));
    let status = match asked(&rt) {
        Ok(Job::Stdio { entries, setup }) => run_session(&rt, &mut ends, entries, setup),
        Ok(Job::Replay(host)) => run_script(&rt, &mut ends, host),
        Ok(
            Job::Serve {
                socket,
                status,
                turns,
                host,
            },
        ) => {
            match run_socket(&rt, socket.as_str(), &status, turns, host) {
                Ok(()) => DONE,
                Err(fault) => complain(&rt, fault.complaint(), fault.status()),
            }
        }
        Ok(
            Job::Perft {
                sfen,
                depth,
                divide,
            },
        ) => counting(
            &rt,
            rt.alloc(),
            &mut ends,
            bytes_of(&sfen),
            depth,
            divide,
            rt.stderr().is_terminal(),
        ),
        Ok(Job::Moves { sfen }) => listing(&rt, rt.alloc(), &mut ends, bytes_of(&sfen)),
        Ok(
            Job::Mate {
                sfen,
                plies,
                line,
                keys,
            },
        ) => run_mate(&rt, &mut ends, bytes_of(&sfen), plies, line, keys),
        Ok(Job::Help { text }) => print_out(&rt, &mut ends, text.as_bytes()),
        Ok(Job::Version) => print_out(&rt, &mut ends, version_text().as_bytes()),
        Err(fault) => complain(&rt, complaint(&fault), status(&fault)),
    };
    ExitCode::from(status)
}
