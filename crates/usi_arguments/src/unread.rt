//! The refusal of arguments that cannot be read.
ghost use Rattle.std.specs.Prelude.{◌≡◌};
ghost use Rattle.usi_arguments.specs.Texts.{not_utf_8};
ghost use Rattle.usi_arguments.specs.Answers.{RefusesWith};

use crate::arguments::ArgumentsFault;
use std::alloc::Global;
use std::io::ErrorKind;

/// The fault of arguments whose reading failed with an error of this kind: `OutOfMemory`, or
/// `NotAccepted` as one of them is not UTF-8.
pub fn unread_arguments(alloc: Global, kind: ErrorKind) -> ArgumentsFault
    ensures memory { kind ≡ ErrorKind.OutOfMemory → result ≡ ArgumentsFault.OutOfMemory }
    ensures refused { RefusesWith not_utf_8 result }
{
    if let ErrorKind::OutOfMemory = kind {
        return ArgumentsFault::OutOfMemory;
    }
    match String::from_str(alloc, NOT_UTF_8) {
        Ok(text) => ArgumentsFault::NotAccepted { text },
        Err(_) => ArgumentsFault::OutOfMemory,
    }
}

const NOT_UTF_8: &str = "error: a word of the command line is not UTF-8

For more information, try '--help'.
";
