//! Events of a host beside what is wanted of them.

use host_core::{Event, HostFault, Outcome};
use session_slots::SessionId;
use std::alloc::Global;
use std::process::Abort;
use std::test::Fail;
use test_facade::OpaqueHost;
use test_support::{holds, same};

/// An outcome, with bytes as their number.
#[derive(Clone, Copy, Debug, PartialEq, Eq)]
pub enum Brief {
    Opened(SessionId),
    Done,
    Worked(u64),
    Gave(usize),
    Refused(HostFault),
}

fn brief_of(outcome: &Outcome<Global>) -> Brief {
    match outcome {
        Outcome::Opened(id) => Brief::Opened(*id),
        Outcome::Done => Brief::Done,
        Outcome::Worked(steps) => Brief::Worked(*steps),
        Outcome::Gave(bytes) => Brief::Gave(bytes.as_slice().len()),
        Outcome::Refused(fault) => Brief::Refused(*fault),
    }
}

/// Makes events one at a time, and ends the test where one is answered otherwise than expected.
pub fn expect<R: Abort>(rt: &R, host: &mut OpaqueHost<Global>, wanted: &[(Event<'_>, Brief)]) {
    for row in wanted.iter() {
        let (event, brief) = *row;
        same!(*rt; brief_of(&host.step(event)), brief, event);
    }
}

/// The same by one run, of events that stand beside what is wanted of them.
pub fn expect_run<R: Abort>(
    rt: &R,
    alloc: Global,
    host: &mut OpaqueHost<Global>,
    events: &[Event<'_>],
    wanted: &[Brief],
) -> Result<(), Fail> {
    let outcomes = host.run(events)?;
    let mut all = Vec::new(alloc);
    for outcome in outcomes.as_slice() {
        all.push(brief_of(outcome))?;
    }
    same!(*rt; all.as_slice(), wanted);
    Ok(())
}

/// Ends the test where the queued bytes of a session are others.
pub fn output_is<R: Abort>(rt: &R, host: &OpaqueHost<Global>, id: SessionId, bytes: &[u8]) {
    holds!(*rt; host.output(id) == Some(bytes), id);
}
