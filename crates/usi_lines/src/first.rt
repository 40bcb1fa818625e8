//! The first line of a complete stream.

ghost use Rattle.std.specs.Prelude.{◌≡◌, ◌<◌, ◌∷◌, [], IfNone, IfSome, length};
ghost use Rattle.usi_lines.specs.Lines.{lines};
ghost use Rattle.usi_lines.specs.Seen.{line_of};

use crate::line::{LINE_MAX, Line, line_len, without_return};

/// A line, and the bytes after its LF.
#[derive(Clone, Copy)]
pub struct FirstLine<'a> {
    pub line: Line<'a>,
    pub rest: &'a [u8],
}

/// The first line of a stream that arrived whole; `None` if no line has ended. After `TooLong` no
/// bytes are left.
pub fn first_line(bytes: &[u8]) -> Option<FirstLine<'_>>
    ensures if_none { IfNone result (lines bytes.now ≡ []) }
    ensures first { IfSome result (λ f. lines bytes.now ≡ line_of f.line ∷ lines f.rest.now) }
    ensures shorter { IfSome result (λ f. length f.rest.now < length bytes.now) }
{
    let len = line_len(bytes);
    if len > LINE_MAX {
        return Some(FirstLine {
            line: Line::TooLong,
            rest: &[],
        });
    }
    if len == bytes.len() {
        return None;
    }
    let (line, _) = bytes.split_at(len);
    let (_, rest) = bytes.split_at(len + 1);
    Some(FirstLine {
        line: Line::Text(without_return(line)),
        rest,
    })
}
