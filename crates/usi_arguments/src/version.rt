//! The output of `--version`.
ghost use Rattle.std.specs.Prelude.{◌≡◌};
ghost use Rattle.usi_arguments.specs.Texts.{the_version};

/// The program's name and version on one line, and then a short statement of the proof.
pub fn version_text() -> &'static str
    ensures { result.now ≡ the_version }
{
    VERSION_TEXT
}

const VERSION_TEXT: &str = "usi_host 0.1.0
Proved: each session is given the replies of plain minimax at the exact depth, whatever the table
holds and whatever other sessions do. The README of its sources says all that is proved.
";
