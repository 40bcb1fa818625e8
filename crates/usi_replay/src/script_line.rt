//! Forms of script lines.

ghost use Rattle.std.specs.Prelude.{◌≡◌};
ghost use Rattle.usi_lines.specs.Seen.{line_of};
ghost use Rattle.usi_replay.specs.Script.{meaning, script_line_meaning, is_name};
ghost use Rattle.usi_replay.specs.Seen.{script_line_of};

use usi_lines::Line;

/// The meaning of a script line. A name is one letter from `A` to `Z` (own choice).
#[derive(Clone, Copy)]
pub enum ScriptLine<'a> {
    /// An empty line, which is skipped.
    Empty,
    /// `+A`: opens a session under the name.
    Open(u8),
    /// `-A`: closes the session of the name and frees the name.
    Close(u8),
    /// `A text`: sends the text, which may be empty, to the session as a line.
    Send(u8, &'a [u8]),
    /// A line of another form, or too long.
    Bad,
}

/// Whether the byte is a letter from `A` to `Z`.
fn is_name(byte: u8) -> bool
    ensures { result ≡ is_name byte }
{
    b'A' <= byte && byte <= b'Z'
}

/// The meaning of a line's bytes.
fn text_meaning(text: &[u8]) -> ScriptLine<'_>
    ensures { script_line_of result ≡ script_line_meaning text.now }
{
    match text {
        [] => ScriptLine::Empty,
        [_] => ScriptLine::Bad,
        [first, second, rest @ ..] => {
            if *first == b'+' && is_name(*second) && rest.is_empty() {
                return ScriptLine::Open(*second);
            }
            if *first == b'-' && is_name(*second) && rest.is_empty() {
                return ScriptLine::Close(*second);
            }
            if is_name(*first) && *second == b' ' {
                return ScriptLine::Send(*first, rest);
            }
            ScriptLine::Bad
        }
    }
}

/// The meaning of a line by its form, whether its name is in use or not.
pub fn meaning(line: Line<'_>) -> ScriptLine<'_>
    ensures { script_line_of result ≡ meaning (line_of line.entry) }
{
    match line {
        Line::Text(text) => text_meaning(text),
        Line::TooLong => ScriptLine::Bad,
    }
}
