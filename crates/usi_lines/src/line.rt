//! A line of a byte stream.

ghost use Rattle.std.specs.Prelude.{◌≡◌, ◌≢◌, ◌<◌, ◌≤◌, [], ◌++◌, length};
ghost use Rattle.std.specs.List.{position_or_len};
ghost use Rattle.std.specs.Str.Lines.{strip_carriage_return};
ghost use Rattle.usi_lines.specs.Lines.{is_line_feed};
ghost use Rattle.usi_lines.specs.OneLine.{one_line, IsOneLine};

use memchr::memchr;

/// The byte that ends a line (USI).
pub const LINE_FEED: u8 = b'\n';

/// The most bytes of a line before its LF, including a CR right before it (own choice).
pub const LINE_MAX: usize = 65_535;

/// A line without its LF and one CR right before it; or the end of all lines, if more than
/// `LINE_MAX` bytes came without an LF.
#[derive(Clone, Copy, Debug, PartialEq, Eq)]
pub enum Line<'a> {
    Text(&'a [u8]),
    TooLong,
}

/// The number of bytes before the first LF, or of all bytes if there is none.
pub fn line_len(bytes: &[u8]) -> usize
    ensures value { result ≡ position_or_len is_line_feed bytes.now }
    ensures most { result ≤ length bytes.now }
{
    memchr(LINE_FEED, bytes).unwrap_or(bytes.len())
}

/// Cuts the bytes right after their first LF; without an LF all bytes come before the cut.
pub fn cut_line(bytes: &[u8]) -> (&[u8], &[u8])
    ensures line { result.0.now ≡ one_line bytes.now }
    ensures one { IsOneLine result.0.now }
    ensures whole { bytes.now ≡ result.0.now ++ result.1.now }
    ensures shorter { bytes.now ≢ [] → length result.1.now < length bytes.now }
{
    let end = line_len(bytes);
    if end == bytes.len() {
        return bytes.split_at(end);
    }
    bytes.split_at(end + 1)
}

/// The bytes without one CR at their end.
pub fn without_return(line: &[u8]) -> &[u8]
    ensures { result.now ≡ strip_carriage_return line.now }
{
    match line {
        [text @ .., b'\r'] => text,
        _ => line,
    }
}
