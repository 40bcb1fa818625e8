//! What C holds of an open session: a pointer that it does not look behind.

ghost use Rattle.std.specs.Prelude.{◌≡◌, IsSome, Some, None, Option};
ghost use Rattle.usi_library.specs.declared.opened.Opened.{Opened};

use crate::loose::Loose;
use crate::opened::Opened;
use std::alloc::Global;
use std::marker::Model;

/// A box with an open session, or nothing. Dropping one forgets what it holds, so it is emptied
/// first.
#[repr(C)]
#[derive(Drop)]
pub struct Hand {
    at: *mut u8,
    alloc: Global,
    ghost value: { Option Opened },
}

impl Model for Hand {
    ghost use Rattle.std.specs.Prelude.{Option};
    ghost use Rattle.usi_library.specs.declared.opened.Opened.{Opened};
    ghost use Rattle.usi_library.specs.contracts.opened.Opened.{the_row};
    ghost use Rattle.usi_library.specs.Held.{holds};

    ghost also_owns = { λ hand. holds the_row hand.alloc hand.at hand.value };
}

impl Hand {
    /// A hand with nothing.
    pub(crate) fn empty(alloc: Global) -> Hand
        ensures { result.value ≡ None }
    {
        Hand {
            at: std::ptr::null_mut(),
            alloc,
        }
    }

    /// A hand with what a box held.
    pub(crate) fn of(loose: Loose<Opened, Global>) -> Hand
        ensures { result.value ≡ Some loose.value }
    {
        let Loose { at, alloc } = loose;
        Hand {
            at: at as *mut u8,
            alloc,
        }
    }

    /// What it holds.
    pub(crate) fn into_loose(self) -> Loose<Opened, Global>
        requires { IsSome self.value }
        ensures { Some result.value ≡ self.value }
    {
        let Hand { at, alloc } = self;
        Loose {
            at: at as *mut Opened,
            alloc,
        }
    }
}
