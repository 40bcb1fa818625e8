//! What may be ready, and how long the next wait may last.

ghost use Rattle.std.specs.Prelude.{◌≡◌, true, is_some, Some};
ghost use Rattle.transport.specs.declared.wire.Got.{Got};
ghost use Rattle.stream_transport.specs.Asking.{AreAwake, AreAwakeStill, IsNamedAwake, after_accept, after_read, after_write};
ghost use Rattle.stream_transport.specs.Held.{AreAlike};
ghost use Rattle.stream_transport.specs.Streams.{NamesListener};
ghost use Rattle.stream_transport.specs.declared.listener.Ready.TheVariants as who;

use crate::connection::BufferedStream;
use crate::listener::{ByteStream, Listener, Ready};
use crate::places::mark_ready;
use std::alloc::Allocator;
use std::time::Duration;
use transport::{Got, WireFault};

/// Milliseconds until a call that failed or was interrupted is made again, if no event may announce
/// that it would succeed.
const PATIENCE: u64 = 500;

/// What the last calls showed of a wire.
#[derive(Clone, Copy)]
pub struct Readiness {
    /// The last accept found a connection or failed, or a look has named the listener since.
    pub may_accept: bool,
    /// A read kept bytes for the next read, and no wait has returned at once since.
    pub has_buffered: bool,
    /// A call failed or was interrupted, and no event may say when to make it again.
    pub needs_timeout: bool,
}

impl Readiness {
    /// Records the result of an accept that asked the listener.
    pub fn note_accept(&mut self, accepted: &Result<Option<u64>, WireFault>)
        ensures { self.new ≡ after_accept self.old accepted.now }
    {
        match accepted {
            Ok(Some(_)) => {}
            Ok(None) => self.may_accept = false,
            Err(_) => self.needs_timeout = true,
        }
    }

    /// Records whether a read left bytes kept, and whether it has to be made again: it gave
    /// nothing, though the stream did not return `WouldBlock`.
    pub fn note_read<S: ByteStream, A: Allocator + Copy>(
        &mut self,
        connection: &BufferedStream<S, A>,
        got: &Result<Got, WireFault>,
    )
        ensures { self.new ≡ after_read self.old (Some connection.now) got.now }
    {
        let found_nothing = matches!(got, Ok(Got::Nothing));
        self.has_buffered = self.has_buffered | !connection.buffer.is_empty();
        self.needs_timeout = self.needs_timeout | (connection.readable & found_nothing);
    }

    /// Records whether a write has to be made again: it took nothing, though the stream did not
    /// return `WouldBlock`.
    pub fn note_write<S: ByteStream, A: Allocator + Copy>(
        &mut self,
        connection: &BufferedStream<S, A>,
        taken: &Result<usize, WireFault>,
    )
        ensures { self.new ≡ after_write self.old (Some connection.now) taken.now }
    {
        let took_nothing = matches!(taken, Ok(0));
        self.needs_timeout = self.needs_timeout | (connection.writable & took_nothing);
    }
}

/// The longest duration of a wait: bounded if a call has to be made again without an event,
/// otherwise `None`.
pub fn patience_for(needs_timeout: bool) -> Option<Duration>
    ensures { is_some result ≡ needs_timeout }
{
    if needs_timeout {
        Some(Duration::from_millis(PATIENCE))
    } else {
        None
    }
}

/// Marks one listener or stream as possibly ready.
fn mark_one_ready<S: ByteStream, A: Allocator + Copy>(
    may_accept: &mut bool,
    places: &mut Vec<Option<BufferedStream<S, A>>, A>,
    found: Option<Ready>,
)
    ensures alike { AreAlike places.old.items places.new.items }
    ensures awake { IsNamedAwake found places.new.items }
    ensures still { AreAwakeStill places.old.items places.new.items }
    ensures named { found ≡ Some who.Listener → may_accept.new ≡ true }
    ensures opens { may_accept.old ≡ true → may_accept.new ≡ true }
{
    match found {
        Some(Ready::Listener) => *may_accept = true,
        Some(Ready::Stream(number)) => mark_ready(places, number),
        None => {}
    }
}

/// Marks all that the last look or wait named as possibly ready.
pub fn mark_all_ready<L: Listener, A: Allocator + Copy>(
    listener: &L,
    may_accept: &mut bool,
    places: &mut Vec<Option<BufferedStream<L::Stream, A>>, A>,
)
    ensures alike { AreAlike places.old.items places.new.items }
    ensures awake { AreAwake (L.named listener.now) places.new.items }
    ensures still { AreAwakeStill places.old.items places.new.items }
    ensures named { NamesListener (L.named listener.now) → may_accept.new ≡ true }
    ensures opens { may_accept.old ≡ true → may_accept.new ≡ true }
{
    for place in 0..listener.found() {
        mark_one_ready(may_accept, places, listener.ready(place));
    }
}
