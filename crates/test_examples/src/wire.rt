//! A use of `transport`.

ghost use Rattle.std.specs.Prelude.{[], ◌∷◌};
ghost use Rattle.transport.specs.Asked.{Shut, Write};
ghost use Rattle.transport.specs.Report.{bytes_written};
ghost use Rattle.transport.specs.Wires.{IsAsked, IsShut, IsWritten};

use transport::{Wire, WireFault};

/// Writes a text to a connection, as much of it as one write takes, and shuts it.
pub fn write_and_shut<W: Wire>(wire: &mut W, number: u64, text: &[u8]) -> Result<usize, WireFault>
    ensures asked { IsAsked W.Wire wire.old wire.new (Write number text.now ∷ Shut number ∷ []) }
    ensures written { IsWritten W.Wire wire.old wire.new number (bytes_written result text.now) }
    ensures shut { IsShut W.Wire wire.old wire.new number }
{
    let taken = wire.write(number, text);
    wire.shut(number);
    taken
}
