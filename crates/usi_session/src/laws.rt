//! Consequences of the definitions.

ghost use Rattle.usi_session.specs.Numbers.{AreNumbers};

/// The values of the numbers that a front end meets, stated apart from the constants' names.
pub fn numbers()
    ensures { AreNumbers }
{}
