//! What runs under the setup that the arguments ask for.
ghost use Rattle.std.specs.Prelude.{◌≡◌, ◌≤◌, IfOk};
ghost use Rattle.shared_table.specs.declared.table.TheConstants.{CAPACITY_MAX};
ghost use Rattle.usi_arguments.specs.Answers.{HasHostRanges};
ghost use Rattle.usi_arguments.specs.Setup.{HasSetupRanges, IsInReach};
ghost use Rattle.usi_host.specs.Setup.{IsAskedFor, IsHostAsked, IsReplayAsked, IsSessionAsked, eval_of};

use host_core::{Host, HostFault};
use shogi_eval::Eval;
use std::alloc::Global;
use std::hash::RandomState;
use usi_app::{script, session};
use usi_arguments::{Evaluation, HostOptions, SetupOptions};
use usi_stdio::FrontEnd;
use usi_texts::Setup;

/// The evaluation of a session, as it is named.
fn eval_of(evaluation: Evaluation) -> Eval
    ensures { result ≡ eval_of evaluation }
{
    match evaluation {
        Evaluation::Plain => Eval::Plain,
        Evaluation::Hand => Eval::Hand,
        Evaluation::Exchange => Eval::Exchange,
    }
}

/// The setup of numbers that lie in their ranges, with a depth that is not above the greatest.
pub(crate) fn setup_of(options: SetupOptions) -> Setup
    requires ranges { HasSetupRanges options }
    requires reach { IsInReach options }
    ensures { IsAskedFor options result }
{
    let eval = eval_of(options.evaluation);
    match Setup::of(options.depth, options.max_depth, options.lines, eval) {
        Ok(setup) => setup,
        // Of such numbers there is a setup, so this is not reached.
        Err(_) => Setup::new(),
    }
}

/// One session over a front end. Gives the status, and tells standard error of a fault.
pub(crate) fn run_session<T: FrontEnd>(
    rt: &HostRuntime,
    front_end: &mut T,
    entries: usize,
    options: SetupOptions,
) -> u8
    requires least { 1 ≤ entries }
    requires most { entries ≤ CAPACITY_MAX }
    requires ranges { HasSetupRanges options }
    requires reach { IsInReach options }
    ensures { IsSessionAsked options entries
        (T.report front_end.old) (T.report front_end.new) result }
{
    session(rt, rt.alloc(), setup_of(options), front_end, entries)
}

/// A script over a front end. Gives the status, and tells standard error of a fault.
pub(crate) fn run_script<T: FrontEnd>(
    rt: &HostRuntime,
    front_end: &mut T,
    options: HostOptions,
) -> u8
    requires ranges { HasHostRanges options }
    requires reach { IsInReach options.setup }
    ensures { IsReplayAsked options (T.report front_end.old) (T.report front_end.new) result }
{
    script(
        rt,
        rt.alloc(),
        setup_of(options.setup),
        front_end,
        options.slots,
        options.entries,
        options.slice,
    )
}

/// A host of no session yet.
pub(crate) fn host_of(
    alloc: Global,
    hasher: RandomState,
    options: HostOptions,
) -> Result<Host<RandomState, Global>, HostFault>
    requires ranges { HasHostRanges options }
    requires reach { IsInReach options.setup }
    ensures { IfOk result (IsHostAsked options) }
{
    let setup = setup_of(options.setup);
    Host::with_setup(alloc, setup, options.slots, options.entries, hasher)
}
