//! The runs that list and count legal moves.

ghost use Rattle.std.specs.Prelude.{◌≡◌, ◌≤◌, option_map};
ghost use Rattle.usi_moves.specs.Asked.{asked_position};
ghost use Rattle.usi_app.specs.Counts.{IsCounting, IsListing, IsUnasked};

use crate::runs::{FAULT, print_out};
use crate::teller::Teller;
use std::alloc::Allocator;
use std::rt::Clock;
use usi_moves::{CountFault, asked_position, write_moves, write_perft, write_refusal};
use usi_stdio::FrontEnd;
use usi_texts::Refusal;

/// The status of arguments that ask for no position, or for more than can be counted.
pub(crate) const NOT_ACCEPTED: u8 = 2;

pub(crate) const OUT_OF_MEMORY: &str = "usi_host: out of memory\n";

const TOO_MANY: &str = "error: --depth: there are more sequences than 18446744073709551615

For more information, try '--help'.
";

/// Writes the text to standard error, and gives the status.
pub fn complain<E: Eprint>(errors: &E, text: &str, status: u8) -> u8
    ensures { result ≡ status }
{
    let _ = eprint!(errors; "{text}");
    status
}

/// Tells standard error why there is no position, and gives the status.
pub(crate) fn refuse<E: Eprint, A: Allocator>(errors: &E, alloc: A, refusal: Refusal) -> u8
    ensures { IsUnasked result }
{
    let mut text = Vec::new(alloc);
    if write_refusal(&mut text, refusal).is_err() {
        return complain(errors, OUT_OF_MEMORY, FAULT);
    }
    match str::from_utf8(text.as_slice()) {
        Ok(text) => complain(errors, text, NOT_ACCEPTED),
        // The text of a refusal is ASCII.
        Err(_) => NOT_ACCEPTED,
    }
}

/// Lists the legal moves of the position that a text asks for, over a front end. Gives the status, and
/// tells standard error of a fault.
pub fn listing<E: Eprint, A: Allocator + Copy, T: FrontEnd>(
    errors: &E,
    alloc: A,
    front_end: &mut T,
    sfen: Option<&[u8]>,
) -> u8
    ensures { IsListing (asked_position (option_map (λ text. text.now) sfen.entry))
        (T.report front_end.old) (T.report front_end.new) result }
{
    let p = match asked_position(sfen) {
        Ok(p) => p,
        Err(refusal) => return refuse(errors, alloc, refusal),
    };
    let mut text = Vec::new(alloc);
    match write_moves(&mut text, &p) {
        Ok(()) => print_out(errors, front_end, text.as_slice()),
        Err(_) => complain(errors, OUT_OF_MEMORY, FAULT),
    }
}

/// Counts the sequences of legal moves from the position that a text asks for, over a front end. Returns
/// the status, and tells standard error of a fault. If `tells` is set, standard error also has, at most
/// once a second, the first move that the count has reached.
pub fn counting<E: Eprint + Clock, A: Allocator + Copy, T: FrontEnd>(
    errors: &E,
    alloc: A,
    front_end: &mut T,
    sfen: Option<&[u8]>,
    depth: u8,
    divide: bool,
    tells: bool,
) -> u8
    requires least { 1 ≤ depth }
    requires most { depth ≤ 16 }
    ensures { IsCounting (asked_position (option_map (λ text. text.now) sfen.entry)) depth divide
        (T.report front_end.old) (T.report front_end.new) result }
{
    let p = match asked_position(sfen) {
        Ok(p) => p,
        Err(refusal) => return refuse(errors, alloc, refusal),
    };
    let mut text = Vec::new(alloc);
    let mut teller = Teller::new(errors, tells);
    match write_perft(&mut text, &p, depth, divide, &mut teller) {
        Ok(()) => print_out(errors, front_end, text.as_slice()),
        Err(CountFault::OutOfMemory) => complain(errors, OUT_OF_MEMORY, FAULT),
        Err(CountFault::TooMany) => complain(errors, TOO_MANY, NOT_ACCEPTED),
    }
}
