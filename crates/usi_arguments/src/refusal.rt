//! Messages and exit statuses for arguments that name no job.
ghost use Rattle.std.specs.Prelude.{◌≡◌};
ghost use Rattle.usi_arguments.specs.Refusals.{arguments_status, complaint_of};

use crate::arguments::ArgumentsFault;

/// The exit status if memory ran out.
const FAULT: u8 = 1;

/// The exit status of a command line that is not accepted.
const NOT_ACCEPTED: u8 = 2;

/// The exit status of the program.
pub fn status(fault: &ArgumentsFault) -> u8
    ensures { result ≡ arguments_status fault.now }
{
    match fault {
        ArgumentsFault::OutOfMemory => FAULT,
        ArgumentsFault::NotAccepted { .. } => NOT_ACCEPTED,
    }
}

/// The text for standard error.
pub fn complaint(fault: &ArgumentsFault) -> &str
    ensures { result.now ≡ complaint_of fault.now }
{
    match fault {
        ArgumentsFault::OutOfMemory => "usi_host: out of memory\n",
        ArgumentsFault::NotAccepted { text } => text.as_str(),
    }
}
