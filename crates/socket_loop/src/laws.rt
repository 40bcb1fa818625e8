//! Laws that follow from the contracts of any two servings.

ghost use Rattle.socket_loop.specs.Alone.{AnswersAsAlone, IsolatesConnections};
ghost use Rattle.socket_loop.specs.Numbers.{AreNumbers};

/// Connections are isolated. If two servings, of any hosts with one setup over any wires, read the
/// same bytes from two undisturbed connections, they wrote the same to both. Other connections,
/// tables, slots, budgets and the way the bytes were cut may differ; one of the two may have been
/// served alone.
pub fn isolation()
    ensures { IsolatesConnections }
{}

/// Each connection is answered as if it were alone. An undisturbed one is written what
/// `stdio_with_setup` writes for its input under the host's setup, whatever other connections do.
pub fn answers_as_alone()
    ensures { AnswersAsAlone }
{}

/// The limits of a loop: accepts in a turn, sessions at a time, status clients answered after a
/// turn, and the room for a status line.
pub fn numbers()
    ensures { AreNumbers }
{}
