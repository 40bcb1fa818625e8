//! The transcript of a `+` line.

ghost use Rattle.std.specs.Prelude.{◌≡◌, ◌++◌, [], true, false, cond, codes, is_some, OnOk};
ghost use Rattle.usi_replay.specs.Playback.{Transcript, open_id, is_transcript_under};

use session_slots::SessionId;
use std::alloc::{AllocError, Allocator};
use std::marker::Model;

/// The transcript of a `+` line: its name, whether the name is in use, the id of its session unless
/// it was refused, and the session's output so far.
#[derive(Drop)]
pub struct Transcript<A: Allocator> {
    name: u8,
    in_use: bool,
    id: Option<SessionId>,
    made: Vec<u8, A>,
}

impl<A: Allocator> Model for Transcript<A> {
    ghost use Rattle.usi_replay.specs.Playback.{Transcript};

    ghost Value = { Transcript };

    ghost view = { λ t. record {
      name = t.name;
      in_use = t.in_use;
      id = t.id;
      made = t.made.items;
    } };
}

impl<A: Allocator> Transcript<A> {
    /// The transcript of a name that comes into use, with the id of its session, or `None` if it
    /// was refused. Takes no memory.
    pub fn new(alloc: A, name: u8, id: Option<SessionId>) -> Transcript<A>
        ensures { result ≡ record { name = name; in_use = true; id = id; made = [] } }
    {
        Transcript {
            name,
            in_use: true,
            id,
            made: Vec::new(alloc),
        }
    }

    /// The name, in use or not.
    pub fn name(&self) -> u8
        ensures { result ≡ self.now.name }
    {
        self.name
    }

    /// Whether the name is in use and equal to `name`.
    pub fn is_under(&self, name: u8) -> bool
        ensures { result ≡ is_transcript_under name self.now }
    {
        self.in_use && self.name == name
    }

    /// The session's id while the name is in use; `None` if it was refused.
    pub fn open_id(&self) -> Option<SessionId>
        ensures { result ≡ open_id self.now }
    {
        if self.in_use { self.id } else { None }
    }

    /// The bytes written under the `+` line: the session's output, or `refused 1`.
    pub fn answer(&self) -> &[u8]
        ensures { result.now ≡ cond (is_some self.now.id) self.now.made (codes "refused 1\n") }
    {
        if self.id.is_some() {
            self.made.as_slice()
        } else {
            b"refused 1\n"
        }
    }

    /// Adds bytes to the session's output.
    pub fn append(&mut self, bytes: &[u8]) -> Result<(), AllocError>
        ensures { OnOk result (self.new ≡ record self.old { made = self.old.made ++ bytes.now }) }
    {
        self.made.extend_from_slice(bytes)
    }

    /// Frees the name.
    pub fn close(&mut self)
        ensures { self.new ≡ record self.old { in_use = false } }
    {
        self.in_use = false;
    }
}
