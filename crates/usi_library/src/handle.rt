//! A session as C has it.

ghost use Rattle.std.specs.Prelude.{◌≡◌, Some, None, IfSome, IfNone, is_some};

use crate::hand::Hand;
use crate::loose::Loose;
use crate::opened::Opened;
use std::alloc::Global;
use std::mem::replace;

/// A session that is open or closed: a pointer and a mark, which are all zero if it is closed.
#[repr(C)]
#[derive(Drop)]
pub struct UsiSession {
    hand: Hand,
    alloc: Global,
    is_open: bool,
    ghost fits: { is_open ≡ is_some hand.value },
}

impl UsiSession {
    /// What is open, which leaves the session closed.
    pub(crate) fn take_out(&mut self) -> Option<Box<Opened, Global>>
        ensures was { IfSome result (λ opened. self.old.hand.value ≡ Some opened.value) }
        ensures if_none { IfNone result (self.old.hand.value ≡ None) }
        ensures closed { self.new.hand.value ≡ None }
    {
        if !self.is_open {
            return None;
        }
        let alloc = self.alloc;
        let closed = UsiSession {
            hand: Hand::empty(alloc),
            alloc,
            is_open: false,
        };
        let UsiSession {
            hand,
            alloc: _,
            is_open: _,
        } = replace(self, closed);
        Some(hand.into_loose().into_box())
    }

    /// Opens a closed session with this.
    pub(crate) fn put_in(&mut self, opened: Box<Opened, Global>)
        requires closed { self.old.hand.value ≡ None }
        ensures open { self.new.hand.value ≡ Some opened.value }
    {
        let alloc = self.alloc;
        *self = UsiSession {
            hand: Hand::of(Loose::of(opened)),
            alloc,
            is_open: true,
        };
    }
}
