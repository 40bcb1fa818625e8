//! Counts of the word `bestmove` in bytes.

ghost use Rattle.std.specs.Prelude.{◌≡◌, ◌≤◌};
ghost use Rattle.host_core.specs.Bestmoves.{bestmove_at_front, bestmove_count};

/// 1 if the bytes begin with the word, else 0.
fn bestmove_at_front(bytes: &[u8]) -> u64
    ensures count { result ≡ bestmove_at_front bytes.now }
    ensures most { result ≤ 1 }
{
    if bytes.starts_with(b"bestmove") { 1 } else { 0 }
}

/// The number of places at which the word begins.
pub fn bestmove_count(bytes: &[u8]) -> u64
    ensures { result ≡ bestmove_count bytes.now }
{
    let mut count = 0;
    for at in 0..bytes.len() {
        count += bestmove_at_front(&bytes[at..]);
    }
    count
}
