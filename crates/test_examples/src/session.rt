//! A use of `usi_session`.

ghost use Rattle.std.specs.Prelude.{◌≡◌, ◌≤◌, IfOk, IfSome, length, false};
ghost use Rattle.usi_session.specs.Due.{is_pending};
ghost use Rattle.usi_session.specs.WholeStream.{replies};

use shogi_search::NoMemo;
use std::alloc::Allocator;
use usi_session::{Session, SessionFault};

/// A session that has answered the lines of these bytes, with its replies queued; none where so many
/// slices of 1,000 steps are not enough.
pub fn answered<A: Allocator + Copy>(
    alloc: A,
    bytes: &[u8],
    slices: u64,
) -> Result<Option<Session<A>>, SessionFault>
    requires { length bytes.now ≤ 4096 }
    ensures { IfOk result
        (λ found. IfSome found (λ session. session.queued ≡ replies bytes.now)) }
{
    let mut session = Session::new(alloc);
    session.feed(bytes)?;
    'slices: for _ in 0..slices {
        if !session.pending() {
            return Ok(Some(session));
        }
        session.work(&mut NoMemo, 1000)?;
    }
    Ok(None)
}
