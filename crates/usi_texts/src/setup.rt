//! The settings of an operator for all sessions.

ghost use Rattle.std.specs.Prelude.{◌≡◌, true};
ghost use Rattle.usi_texts.specs.SetupRange.{is_depth, is_multi_pv, is_setup};

use shogi_eval::Eval;
use usi_lines::{DEPTH_MAX, DEPTH_MIN, MULTI_PV_MAX, MULTI_PV_MIN};

/// The initial `Depth` of a session, in plies (own choice).
pub const DEPTH_DEFAULT: u8 = 3;

/// The initial `MultiPV` of a session (USI, option).
pub const MULTI_PV_DEFAULT: u8 = 1;

/// Why numbers make no setup, in the order of checks (own choice).
#[derive(Clone, Copy, Debug, PartialEq, Eq)]
pub enum SetupFault {
    /// The depth is below 1 or above 16 plies.
    Depth,
    /// The greatest depth is below 1 or above 16 plies.
    MaxDepth,
    /// The number of best lines is below 1 or above 8.
    MultiPv,
    /// The depth is above the greatest depth.
    DepthAboveMax,
}

/// The settings of an operator for all sessions: the initial value of each option, the greatest
/// depth, and the evaluations on offer. `Exchange` is offered only if sessions start with it,
/// `Plain` and `Hand` always (own choice).
#[derive(Clone, Copy, Debug)]
pub struct Setup {
    /// The initial `Depth`, in plies: from 1 to the greatest depth.
    pub depth: u8,
    /// The greatest depth, in plies, from 1 to 16: `Depth` and `go depth` are clamped to it.
    pub max_depth: u8,
    /// The initial `MultiPV`, from 1 to 8 lines.
    pub multi_pv: u8,
    /// The initial `Eval`.
    pub eval: Eval,
    pub ghost fits: { is_setup depth max_depth multi_pv ≡ true },
}

/// Whether a depth is in its range.
fn is_depth(depth: u8) -> bool
    ensures { result ≡ is_depth depth }
{
    DEPTH_MIN <= depth && depth <= DEPTH_MAX
}

/// Whether a number of best lines is in its range.
fn is_multi_pv(multi_pv: u8) -> bool
    ensures { result ≡ is_multi_pv multi_pv }
{
    MULTI_PV_MIN <= multi_pv && multi_pv <= MULTI_PV_MAX
}

impl Setup {
    ghost use Rattle.std.specs.Prelude.{IfOk};
    ghost use Rattle.std.specs.Result.{result_err};
    ghost use Rattle.usi_texts.specs.Setup.{default_setup, setup_fault, offers, IsSetupOf};

    /// The default setup: depth 3, greatest depth 16, one line, `Plain`.
    pub fn new() -> Setup
        ensures { result ≡ default_setup }
    {
        Setup {
            depth: DEPTH_DEFAULT,
            max_depth: DEPTH_MAX,
            multi_pv: MULTI_PV_DEFAULT,
            eval: Eval::Plain,
        }
    }

    /// The setup of these values, or the first fault of the numbers.
    pub fn of(depth: u8, max_depth: u8, multi_pv: u8, eval: Eval) -> Result<Setup, SetupFault>
        ensures ok { IfOk result (IsSetupOf depth max_depth multi_pv eval) }
        ensures fault { result_err result ≡ setup_fault depth max_depth multi_pv }
    {
        if !is_depth(depth) {
            return Err(SetupFault::Depth);
        }
        if !is_depth(max_depth) {
            return Err(SetupFault::MaxDepth);
        }
        if !is_multi_pv(multi_pv) {
            return Err(SetupFault::MultiPv);
        }
        if depth > max_depth {
            return Err(SetupFault::DepthAboveMax);
        }
        Ok(Setup {
            depth,
            max_depth,
            multi_pv,
            eval,
        })
    }

    /// Whether an evaluation is offered: `Exchange` only if sessions start with it, the others
    /// always.
    pub fn offers(&self, eval: Eval) -> bool
        ensures { result ≡ offers self.now eval }
    {
        match eval {
            Eval::Plain | Eval::Hand => true,
            Eval::Exchange => matches!(self.eval, Eval::Exchange),
        }
    }
}
