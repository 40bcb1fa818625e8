//! What a wire is made over: a listener, and the streams it gives.

ghost use Rattle.std.specs.Prelude.{◌≡◌, ℕ, Bool, [], ◌∷◌, length, is_some, slice_get, IfOk, OnErr, Option, None, List};
ghost use Rattle.std.specs.Io.{ReadsAtMost, WritesAtMost};
ghost use Rattle.std.specs.Io.KnownBytes.{Keeps};
ghost use Rattle.transport.specs.Asked.{Asks};
ghost use Rattle.transport.specs.Report.{Report, KeepsAll, nothing_reported};
ghost use Rattle.stream_transport.specs.Streams.{Gave, HandsOut, HasBack, IsToldFailed, IsToldShut, KeepsElse, Receives, Sends, answer_of};
ghost use Rattle.stream_transport.specs.declared.listener.ListenerCall.{ListenerCall};
ghost use Rattle.stream_transport.specs.declared.listener.ListenerCall.TheVariants.{Accept, Look, Wait};
ghost use Rattle.stream_transport.specs.declared.listener.Ready.{Ready};
ghost use Rattle.stream_transport.specs.declared.listener.StreamCall.{StreamCall};
ghost use Rattle.stream_transport.specs.declared.listener.StreamCall.TheVariants.{Receive, Send};

use std::time::Duration;

/// Why a call of a stream or listener gave nothing.
#[derive(Clone, Copy, Debug, PartialEq, Eq)]
pub enum StreamFault {
    /// The call would block.
    WouldBlock,
    /// A signal interrupted the call, which may be made again.
    Interrupted,
    /// The call failed.
    Failed,
}

/// A call of a stream, with its result.
#[derive(Clone, Copy)]
pub enum StreamCall {
    /// A read into a buffer of this many bytes.
    Receive(usize, Result<usize, StreamFault>),
    /// A write that offered this many bytes.
    Send(usize, Result<usize, StreamFault>),
}

/// A call of a listener, with its result.
#[derive(Clone, Copy)]
pub enum ListenerCall {
    /// An accept of the next waiting client.
    Accept(Result<(), StreamFault>),
    /// A look at what is ready now.
    Look(Result<(), StreamFault>),
    /// A wait until something is ready, bounded in time if the first field is true.
    Wait(bool, Result<(), StreamFault>),
}

/// A stream of bytes both ways. Reads do not touch the bytes written, nor writes the bytes to be
/// read.
pub trait ByteStream: Drop {
    /// The bytes that reads will give from here on; `None` if the stream does not tell.
    ghost unread: { Self → Option (List ℕ) } = { λ _. None };

    /// The bytes that writes took so far; `None` if the stream does not tell.
    ghost written: { Self → Option (List ℕ) } = { λ _. None };

    /// The bytes that reads gave so far; `None` if the stream does not tell.
    ghost given: { Self → Option (List ℕ) } = { λ _. None };

    /// The calls of `receive` and `send` so far, with their results; `None` if the stream does not
    /// tell.
    ghost calls: { Self → Option (List StreamCall) } = { λ _. None };

    /// Whether the writing side was shut; `None` if the stream does not tell.
    ghost is_shut: { Self → Option Bool } = { λ _. None };

    /// Reads once into `buf`, without waiting. 0 bytes mean the end, if `buf` has room.
    fn receive(&mut self, buf: &mut [u8]) -> Result<usize, StreamFault>
        ensures bound { ReadsAtMost result buf.new }
        ensures bytes { Receives unread self.old self.new result buf.new }
        ensures gave { Gave given self.old self.new result buf.new }
        ensures written { Keeps (written self.old) (written self.new) }
        ensures called { Asks (calls self.old) (calls self.new)
            (Receive (length buf.old) result ∷ []) }
        ensures shut { is_shut self.new ≡ is_shut self.old };

    /// Writes a prefix of `buf` once, without waiting, and returns its length.
    fn send(&mut self, buf: &[u8]) -> Result<usize, StreamFault>
        ensures bound { WritesAtMost result buf.now }
        ensures bytes { Sends written self.old self.new result buf.now }
        ensures unread { Keeps (unread self.old) (unread self.new) }
        ensures given { Keeps (given self.old) (given self.new) }
        ensures called { Asks (calls self.old) (calls self.new)
            (Send (length buf.now) result ∷ []) }
        ensures shut { is_shut self.new ≡ is_shut self.old };
}

/// What a look or a wait found.
#[derive(Clone, Copy, Debug, PartialEq, Eq)]
pub enum Ready {
    /// A client may wait to be accepted.
    Listener,
    /// The stream of this number may give or take bytes.
    Stream(u64),
}

/// A source of streams, each under a number that the caller chooses. Only `wait` waits.
pub trait Listener: Drop {
    type Stream: ByteStream;

    /// The report on numbers whose streams are not handed out: those to come, and those taken back.
    /// A listener may report nothing.
    ghost told: { Self → Report } = { λ _. nothing_reported };

    /// The calls of `accept`, `look` and `wait` so far, with their results; `None` if the listener
    /// does not tell.
    ghost asked: { Self → Option (List ListenerCall) } = { λ _. None };

    /// What the last look or wait found; nothing if it failed.
    ghost named: { Self → List Ready };

    /// The stream of the next waiting client; looks and waits name it by `number` from now on.
    /// `WouldBlock` if no client waits.
    fn accept(&mut self, number: u64) -> Result<Self::Stream, StreamFault>
        ensures given { HandsOut Self.Stream.unread Self.Stream.written
            (told self.old) number result }
        ensures rest { IfOk result (λ stream. KeepsElse (told self.old) (told self.new) number) }
        ensures err { OnErr result (KeepsAll (told self.old) (told self.new)) }
        ensures asked { Asks (asked self.old) (asked self.new) (Accept (answer_of result) ∷ []) }
        ensures named { named self.new ≡ named self.old };

    /// Finds what is ready now. An error leaves nothing found.
    fn look(&mut self) -> Result<(), StreamFault>
        ensures unchanged { KeepsAll (told self.old) (told self.new) }
        ensures nobody { OnErr result (named self.new ≡ []) }
        ensures asked { Asks (asked self.old) (asked self.new) (Look result ∷ []) };

    /// Waits until something may be ready, at most `patience` long. An error leaves nothing found.
    fn wait(&mut self, patience: Option<Duration>) -> Result<(), StreamFault>
        ensures unchanged { KeepsAll (told self.old) (told self.new) }
        ensures nobody { OnErr result (named self.new ≡ []) }
        ensures asked { Asks (asked self.old) (asked self.new)
            (Wait (is_some patience) result ∷ []) };

    /// How many listeners and streams the last look or wait found.
    fn found(&self) -> usize
        ensures { result ≡ length (named self.now) };

    /// The one at this place of what the last look or wait found.
    fn ready(&self, place: usize) -> Option<Ready>
        ensures { result ≡ slice_get (named self.now) place };

    /// Records that a read or a write of this number failed.
    fn fail(&mut self, number: u64)
        ensures failed { IsToldFailed (told self.old) (told self.new) number }
        ensures asked { asked self.new ≡ asked self.old };

    /// Records that the connection of this number was shut.
    fn shut(&mut self, number: u64)
        ensures shut { IsToldShut (told self.old) (told self.new) number }
        ensures asked { asked self.new ≡ asked self.old };

    /// Takes back the stream of a number, with the bytes read from it and not given.
    fn take_back(&mut self, number: u64, stream: Self::Stream, kept: &[u8])
        ensures back { HasBack Self.Stream.unread Self.Stream.written
            (told self.new) number kept.now stream }
        ensures rest { KeepsElse (told self.old) (told self.new) number }
        ensures asked { asked self.new ≡ asked self.old };
}
