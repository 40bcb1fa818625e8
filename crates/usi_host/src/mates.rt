//! What seeks mates by checks as the arguments ask.
ghost use Rattle.std.specs.Prelude.{◌≡◌, ◌≤◌, ◌%◌, ◌==◌, false, option_map};
ghost use Rattle.usi_host.specs.Mates.{AreMateOptions, IsMateAsked};

use std::io::IsTerminal;
use usi_app::solving;
use usi_moves::MateOptions;
use usi_stdio::FrontEnd;

/// The options of a search for mates of at most so many plies, an odd number.
fn options_of(plies: u8, line: bool, keys: bool) -> MateOptions
    requires least { 1 ≤ plies }
    requires most { plies ≤ 15 }
    requires odd { (plies % 2 == 0) ≡ false }
    ensures options { AreMateOptions plies line keys result }
    ensures least { 1 ≤ result.most }
    ensures most { result.most ≤ 8 }
{
    MateOptions {
        most: plies / 2 + 1,
        line,
        keys,
    }
}

/// The shortest mate by checks of at most `plies` plies, over a front end: in the position of a text, or
/// without one in that of each line. Gives the status, and tells standard error of a fault.
pub(crate) fn run_mate<T: FrontEnd>(
    rt: &HostRuntime,
    front_end: &mut T,
    sfen: Option<&[u8]>,
    plies: u8,
    line: bool,
    keys: bool,
) -> u8
    requires least { 1 ≤ plies }
    requires most { plies ≤ 15 }
    requires odd { (plies % 2 == 0) ≡ false }
    ensures { IsMateAsked (option_map (λ text. text.now) sfen.entry) plies line keys
        (T.report front_end.old) (T.report front_end.new) result }
{
    let options = options_of(plies, line, keys);
    let tells = rt.stderr().is_terminal();
    solving(rt, rt.alloc(), front_end, sfen, options, tells)
}
