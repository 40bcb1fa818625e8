//! What follows from the definitions.

ghost use Rattle.stream_transport.specs.Numbers.{AreNumbers};

/// The numbers of places, lingering streams, waits, events and tokens.
pub fn numbers()
    ensures { AreNumbers }
{}
