//! The arguments of the running program.
ghost use Rattle.std.specs.Prelude.{IfOk};
ghost use Rattle.usi_arguments.specs.Answers.{HasRanges, HasReach};

use crate::arguments::{ArgumentsFault, Job, read_arguments};
use crate::unread::unread_arguments;
use std::env;
use std::env::Env;

/// The job of the arguments after the program's name, as `read_arguments` reads them. One that is
/// not UTF-8 is `NotAccepted`.
pub fn asked<R: Env + AllocGlobal>(rt: &R) -> Result<Job, ArgumentsFault>
    ensures ranges { IfOk result HasRanges }
    ensures reach { IfOk result HasReach }
{
    let mut given = match env::args(rt) {
        Ok(given) => given,
        Err(error) => return Err(unread_arguments(rt.alloc(), error.kind())),
    };
    let _program = given.next();
    let mut arguments = Vec::new(rt.alloc());
    for argument in given {
        arguments
            .push(argument)
            .map_err(|_| ArgumentsFault::OutOfMemory)?;
    }
    read_arguments(rt.alloc(), arguments.as_slice())
}
