//! The options of a session: their values, and the lines that offer them.

ghost use Rattle.std.specs.Prelude.{◌≡◌, ◌++◌, decimal};
ghost use Rattle.usi_texts.specs.Texts.{Writes};
ghost use Rattle.usi_texts.specs.Options.{options_under, option_lines, eval_line, eval_name, eval_names, spin_name, spin_range, spin_line};

use crate::parts::write_parts;
use crate::setup::Setup;
use itoa::Buffer;
use shogi_eval::Eval;
use std::alloc::{AllocError, Allocator};
use usi_lines::{DEPTH_MIN, MULTI_PV_MAX, MULTI_PV_MIN};

/// The values of the options of a session.
#[derive(Clone, Copy, Debug)]
pub struct Options {
    /// `Depth`: the depth of a `go` that names none, in plies, in its range.
    pub depth: u8,
    /// `Eval`: the evaluation of a `go`.
    pub eval: Eval,
    /// `MultiPV`: the most best lines of a `go`, in its range.
    pub multi_pv: u8,
}

impl Options {
    /// The initial options under the setup.
    pub fn under(setup: Setup) -> Options
        ensures { result ≡ options_under setup }
    {
        Options {
            depth: setup.depth,
            eval: setup.eval,
            multi_pv: setup.multi_pv,
        }
    }
}

/// Appends a word of an option line and its number.
fn write_number<A: Allocator>(
    out: &mut Vec<u8, A>,
    word: &[u8],
    number: u8,
) -> Result<(), AllocError>
    ensures { Writes result out.old out.new (word.now ++ decimal number) }
{
    let mut buffer = Buffer::new();
    let digits = buffer.format(number).as_bytes();
    write_parts(out, &[word, digits])
}

/// Appends the name of a numeric option.
fn write_name<A: Allocator>(out: &mut Vec<u8, A>, name: &[u8]) -> Result<(), AllocError>
    ensures { Writes result out.old out.new (spin_name name.now) }
{
    write_parts(out, &[b"option name ", name, b" type spin"])
}

/// Appends the range of a numeric option, to the end of its line.
fn write_range<A: Allocator>(out: &mut Vec<u8, A>, least: u8, most: u8) -> Result<(), AllocError>
    ensures { Writes result out.old out.new (spin_range least most) }
{
    write_number(out, b" min ", least)?;
    write_number(out, b" max ", most)?;
    out.extend_from_slice(b"\n")?;
    Ok(())
}

/// Appends the line of a numeric option (USI, option).
fn write_spin<A: Allocator>(
    out: &mut Vec<u8, A>,
    name: &[u8],
    default: u8,
    least: u8,
    most: u8,
) -> Result<(), AllocError>
    ensures { Writes result out.old out.new (spin_line name.now default least most) }
{
    write_name(out, name)?;
    write_number(out, b" default ", default)?;
    write_range(out, least, most)?;
    Ok(())
}

/// The name of an evaluation.
fn eval_name(eval: Eval) -> &'static [u8]
    ensures { result.now ≡ eval_name eval }
{
    match eval {
        Eval::Plain => b"Plain",
        Eval::Hand => b"Hand",
        Eval::Exchange => b"Exchange",
    }
}

/// The evaluations that the setup offers, to the end of the line.
fn eval_names(setup: &Setup) -> &'static [u8]
    ensures { result.now ≡ eval_names setup.now }
{
    if setup.offers(Eval::Exchange) {
        b" var Plain var Hand var Exchange\n"
    } else {
        b" var Plain var Hand\n"
    }
}

/// Appends the line of the evaluation option (USI, option).
fn write_eval<A: Allocator>(out: &mut Vec<u8, A>, setup: &Setup) -> Result<(), AllocError>
    ensures { Writes result out.old out.new (eval_line setup.now) }
{
    let head: &[u8] = b"option name Eval type combo default ";
    write_parts(out, &[head, eval_name(setup.eval), eval_names(setup)])
}

/// Appends the lines of all options, with a row for each.
pub fn write_options<A: Allocator>(out: &mut Vec<u8, A>, setup: &Setup) -> Result<(), AllocError>
    ensures { Writes result out.old out.new (option_lines setup.now) }
{
    write_spin(out, b"Depth", setup.depth, DEPTH_MIN, setup.max_depth)?;
    write_eval(out, setup)?;
    write_spin(out, b"MultiPV", setup.multi_pv, MULTI_PV_MIN, MULTI_PV_MAX)?;
    Ok(())
}
