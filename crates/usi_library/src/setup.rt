//! A setup by the numbers that C has for it.

ghost use Rattle.std.specs.Prelude.{◌≡◌, ◌≢◌, IfOk, IfErr, min};
ghost use Rattle.std.specs.Result.{result_err};
ghost use Rattle.usi_library.specs.Setups.{eval_of, setup_refusal, status_of_fault, IsNumbered};
ghost use Rattle.usi_library.specs.declared.status.TheConstants.{USI_OK};

use crate::status::{
    USI_DEPTH_ABOVE_MAX, USI_DEPTH_OUT_OF_RANGE, USI_LINES_OUT_OF_RANGE,
    USI_MAX_DEPTH_OUT_OF_RANGE, USI_UNKNOWN_EVAL,
};
use shogi_eval::Eval;
use usi_texts::{Setup, SetupFault};

/// `Plain`, as a number of `usi_open_with_setup`.
pub const USI_EVAL_PLAIN: u32 = 0;

/// `Hand`, as a number of `usi_open_with_setup`.
pub const USI_EVAL_HAND: u32 = 1;

/// `Exchange`, as a number of `usi_open_with_setup`.
pub const USI_EVAL_EXCHANGE: u32 = 2;

/// The evaluation of a number.
fn eval_of(number: u32) -> Option<Eval>
    ensures { result ≡ eval_of number }
{
    if number == USI_EVAL_PLAIN {
        Some(Eval::Plain)
    } else if number == USI_EVAL_HAND {
        Some(Eval::Hand)
    } else if number == USI_EVAL_EXCHANGE {
        Some(Eval::Exchange)
    } else {
        None
    }
}

/// The number, or 255 if it is greater.
fn byte_of(number: u32) -> u8
    ensures { result ≡ min number 255 }
{
    number.min(255) as u8
}

fn status_of_fault(fault: SetupFault) -> u32
    ensures status { result ≡ status_of_fault fault }
    ensures refused { result ≢ USI_OK }
{
    match fault {
        SetupFault::Depth => USI_DEPTH_OUT_OF_RANGE,
        SetupFault::MaxDepth => USI_MAX_DEPTH_OUT_OF_RANGE,
        SetupFault::MultiPv => USI_LINES_OUT_OF_RANGE,
        SetupFault::DepthAboveMax => USI_DEPTH_ABOVE_MAX,
    }
}

/// The setup of these numbers, or the status that refuses them.
pub(crate) fn setup_of(depth: u32, max_depth: u32, lines: u32, eval: u32) -> Result<Setup, u32>
    ensures setup { IfOk result (IsNumbered depth max_depth lines eval) }
    ensures status { result_err result ≡ setup_refusal depth max_depth lines eval }
    ensures refused { IfErr result (λ status. status ≢ USI_OK) }
{
    let Some(eval) = eval_of(eval) else {
        return Err(USI_UNKNOWN_EVAL);
    };
    match Setup::of(byte_of(depth), byte_of(max_depth), byte_of(lines), eval) {
        Ok(setup) => Ok(setup),
        Err(fault) => Err(status_of_fault(fault)),
    }
}
