//! The options of a host.
ghost use Rattle.std.specs.Prelude.{IfNone, IfSome};
ghost use Rattle.usi_arguments.specs.Answers.{AreHostOptions, HasNoHost};
ghost use Rattle.usi_arguments.specs.CommandLine.{options_in};

use crate::setup::{SetupOptions, setup_of};
use crate::values::number_of;
use clap::ArgMatches;

/// The most sessions at a time that an operator may ask for: `SESSIONS_MAX` of `session_slots`.
const SLOTS_MAX: usize = 1024;

/// The most entries of the table that an operator may ask for: `CAPACITY_MAX` of `shared_table`.
pub(crate) const ENTRIES_MAX: usize = 1_000_000;

/// The most search steps in a round that an operator may ask for (own choice).
const STEPS_MAX: usize = 1_000_000_000;

/// An operator's choices for a host.
#[derive(Clone, Copy, Debug, PartialEq, Eq)]
pub struct HostOptions {
    /// The most sessions at a time, from 1 to 1,024.
    pub slots: usize,
    /// The entries of their common table, from 1 to 1,000,000.
    pub entries: usize,
    /// The most search steps of a session in a round, from 1 to 1,000,000,000.
    pub slice: u64,
    /// The setup of each session.
    pub setup: SetupOptions,
}

/// The host of the options, if its numbers are in digits alone and in their ranges, and its
/// evaluation is known.
pub(crate) fn host_of(options: &ArgMatches<'_>) -> Option<HostOptions>
    ensures some { IfSome result (AreHostOptions (options_in options.now)) }
    ensures if_none { IfNone result (HasNoHost (options_in options.now)) }
{
    let slots = number_of(options, "slots", SLOTS_MAX)?;
    let entries = number_of(options, "entries", ENTRIES_MAX)?;
    let slice = number_of(options, "slice", STEPS_MAX)?;
    let setup = setup_of(options)?;
    Some(HostOptions {
        slots,
        entries,
        slice: slice as u64,
        setup,
    })
}
