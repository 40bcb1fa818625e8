//! Runs over memory that refuses one request after another.

use std::alloc::Global;
use std::process::Abort;
use std::test::Fail;
use test_support::{FailingAllocator, holds};

/// The memory of a run.
pub type Memory = FailingAllocator<Global>;

// More requests than a run makes.
const REQUESTS: u64 = 10_000;

/// What is run again and again.
pub trait Trial {
    /// Runs over this memory; returns how often it was refused what it needs.
    fn run<R: Abort>(&self, rt: &R, alloc: Global, memory: &Memory) -> Result<u64, Fail>;
}

/// How many requests a run makes, and how often all runs together were refused what they need.
#[derive(Clone, Copy, Debug)]
pub struct Met {
    pub requests: u64,
    pub refusals: u64,
}

/// Memory whose n-th request is refused, and where it stays gone each one after it.
fn memory_of(alloc: Global, n: u64, stays_gone: bool) -> Memory {
    let memory = FailingAllocator::new(alloc);
    if stays_gone {
        memory.refuse_from(n);
    } else {
        memory.refuse_at(n);
    }
    memory
}

// Whether a request was refused, and how often the run was refused what it needs: never with all
// the memory there.
fn refused<R: Abort, T: Trial>(
    rt: &R,
    alloc: Global,
    trial: &T,
    memory: &Memory,
) -> Result<(bool, u64), Fail> {
    let refusals = trial.run(rt, alloc, memory)?;
    let is_refused = memory.refused() > 0;
    holds!(*rt; is_refused || refusals == 0);
    Ok((is_refused, refusals))
}

/// The n-th request of each run is refused, and where memory stays gone each one after it, until a
/// run has no n-th request.
pub fn refuse_each<R: Abort, T: Trial>(
    rt: &R,
    alloc: Global,
    trial: &T,
    stays_gone: bool,
) -> Result<Met, Fail> {
    let mut refusals = 0u64;
    for n in 1..REQUESTS {
        let memory = memory_of(alloc, n, stays_gone);
        let (is_refused, in_run) = refused(rt, alloc, trial, &memory)?;
        if !is_refused {
            let requests = n.saturating_sub(1);
            return Ok(Met { requests, refusals });
        }
        refusals = refusals.saturating_add(in_run);
    }
    Err(Fail::from("there are always more requests"))
}
