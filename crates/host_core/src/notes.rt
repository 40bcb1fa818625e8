//! Notes of a host about its sessions, by slot.

ghost use Rattle.std.specs.Prelude.{◌≡◌, Some, slice_set};
ghost use Rattle.host_core.specs.ById.{activity_of};
ghost use Rattle.host_core.specs.Notes.{noted_activity};

use session_slots::SessionId;
use std::alloc::Allocator;
use usi_session::Session;

/// What a session wants and has. All is false for a session that is not open.
#[derive(Clone, Copy, Debug, PartialEq, Eq)]
pub struct Activity {
    /// The session is open.
    pub is_open: bool,
    /// The session may be fed.
    pub wants_input: bool,
    /// The session has a running `go` or an unread line, and has not ended.
    pub is_pending: bool,
    /// At least one byte is queued.
    pub has_output: bool,
    /// The session has ended, by `quit` or a line that was too long.
    pub is_over: bool,
}

impl Activity {
    /// The activity without a session.
    pub const NONE: Activity = Activity {
        is_open: false,
        wants_input: false,
        is_pending: false,
        has_output: false,
        is_over: false,
    };

    /// The activity of an open session.
    pub fn of<A: Allocator + Copy>(session: &Session<A>) -> Activity
        ensures { result ≡ activity_of (Some session.now) }
    {
        Activity {
            is_open: true,
            wants_input: session.wants_input(),
            is_pending: session.pending(),
            has_output: session.output().len() > 0,
            is_over: session.is_over(),
        }
    }
}

/// The activity of the last session opened in a slot, and its generation.
#[derive(Clone, Copy)]
pub struct Note {
    pub generation: u64,
    pub activity: Activity,
}

impl Note {
    /// The note of a slot without a session.
    pub const NONE: Note = Note {
        generation: 0,
        activity: Activity::NONE,
    };

    /// The activity that the note has for this generation; none if the note is of another one.
    pub fn of(&self, generation: u64) -> Activity
        ensures { result ≡ noted_activity self.now generation }
    {
        if self.generation == generation {
            self.activity
        } else {
            Activity::NONE
        }
    }
}

/// Notes the activity of a session at its slot, if the slot has a note.
pub fn set<A: Allocator>(notes: &mut Vec<Note, A>, id: SessionId, activity: Activity)
    ensures { notes.new.items ≡ slice_set notes.old.items id.slot
        (record { generation = id.generation; activity = activity }) }
{
    if id.slot < notes.len() {
        notes[id.slot] = Note {
            generation: id.generation,
            activity,
        };
    }
}
