//! The answer of a row.

use std::alloc::Global;
use std::process::Abort;
use std::test::Fail;
use test_support::rows::{Row, joined};
use test_support::same;

/// The bytes are the answer of the row.
pub fn assert_answer(rt: &impl Abort, alloc: Global, row: &Row, said: &[u8]) -> Result<(), Fail> {
    let answer = joined(alloc, row.answer)?;
    let sent = row.sent;
    same!(*rt; std::str::from_utf8(said)?, answer.as_str(), sent);
    Ok(())
}
