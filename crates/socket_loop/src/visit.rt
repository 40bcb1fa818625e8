//! The parts of a turn, for one connection.

ghost use Rattle.std.specs.Prelude.{◌≡◌, ◌<◌, ◌≤◌, [], ◌∷◌, None, length, true, false};
ghost use Rattle.session_slots.specs.Slots.{find};
ghost use Rattle.usi_session.specs.declared.limits.TheConstants.{CHUNK_MAX};
ghost use Rattle.socket_loop.specs.Parts.{IsGone, is_finished};
ghost use Rattle.transport.specs.Report.{Shuts};
ghost use Rattle.transport.specs.Asked.{Shut, Asks};
ghost use Rattle.socket_loop.specs.Calls.{calls_of, is_to_read, is_to_write, is_to_shut, IsVisit};
ghost use Rattle.socket_loop.specs.Visits.{CarriesOne, EndsEmptied, FeedsOne, IsClosing, IsLeft, OverOne, WantsInput};
ghost use Rattle.socket_loop.specs.declared.visit.Part.TheVariants.{Input, Output, End};

use crate::connection::Connection;
use host_core::Host;
use std::alloc::Allocator;
use std::hash::BuildHasher;
use transport::{Got, Wire};
use usi_session::CHUNK_MAX;

/// A part of a turn that visits each connection.
#[derive(Clone, Copy)]
pub enum Part {
    /// One read if the session wants input.
    Input,
    /// One write if the session has output.
    Output,
    /// A shut if the connection is finished with.
    End,
}

/// Shuts a connection and closes its session.
fn shut_down<W: Wire, S: BuildHasher, A: Allocator + Copy>(
    held: &mut Connection,
    host: &mut Host<S, A>,
    wire: &mut W,
)
    ensures held { held.new ≡ record held.old { is_shut = true } }
    ensures shuts { Shuts (W.bound wire.old) (W.report wire.old) (W.report wire.new)
        held.old.link.number }
    ensures asked { Asks (W.asked wire.old) (W.asked wire.new) (Shut held.old.link.number ∷ []) }
    ensures closed { IsClosing host.old held.old.link.id host.new }
    ensures gone { held.old.link.id.generation < host.old.slots.next
        → IsGone host.new held.old.link.id }
    ensures if_none { find host.new.slots held.old.link.id ≡ None }
    ensures bound { W.bound wire.new ≡ W.bound wire.old }
    ensures faults { W.failed wire.old ≤ W.failed wire.new }
{
    wire.shut(held.link.number);
    let _closed = host.close(held.link.id);
    held.is_shut = true;
}

/// Feeds a session the bytes just read; if memory runs out, shuts the connection and closes the
/// session.
fn feed_from<W: Wire, S: BuildHasher, A: Allocator + Copy>(
    held: &mut Connection,
    host: &mut Host<S, A>,
    wire: &mut W,
)
    requires wants { WantsInput host.old held.old.link.id }
    requires few { length (W.lent wire.old) ≤ CHUNK_MAX }
    requires some { 1 ≤ length (W.lent wire.old) }
    ensures fed { OverOne W.Wire (FeedsOne (W.lent wire.old))
        held.old host.old wire.old held.new host.new wire.new }
    ensures ended { held.new.has_ended ≡ held.old.has_ended }
{
    if host.feed(held.link.id, wire.bytes()).is_ok() {
        return;
    }
    shut_down(held, host, wire);
}

/// Whether a connection is to be read: it is open, its reads have not ended, and its session wants
/// input.
fn is_to_read<S: BuildHasher, A: Allocator + Copy>(held: &Connection, host: &Host<S, A>) -> bool
    ensures test { result ≡ is_to_read host.now held.now }
    ensures wants { result ≡ true → WantsInput host.now held.now.link.id }
    ensures open { result ≡ true → held.now.is_shut ≡ false }
{
    !held.has_ended && !held.is_shut && host.wants_input(held.link.id)
}

/// Reads once if the session wants input, and feeds it the bytes. A failed read, or a feed that
/// runs out of memory, shuts the connection and closes the session. True if bytes came, the reads
/// ended, or the connection was shut.
fn read_from<W: Wire, S: BuildHasher, A: Allocator + Copy>(
    held: &mut Connection,
    host: &mut Host<S, A>,
    wire: &mut W,
) -> bool
    ensures reads { OverOne W.Wire (CarriesOne Input result)
        held.old host.old wire.old held.new host.new wire.new }
    ensures still { is_to_read host.old held.old ≡ false → result ≡ false }
    ensures ended { EndsEmptied held.old held.new (W.report wire.old) (W.report wire.new) }
{
    let link = held.link;
    if !is_to_read(held, host) {
        return false;
    }
    match wire.read(link.number, CHUNK_MAX) {
        Ok(Got::Bytes) => {
            feed_from(held, host, wire);
            true
        }
        Ok(Got::Nothing) => false,
        Ok(Got::Ended) => {
            held.has_ended = true;
            true
        }
        Err(_) => {
            shut_down(held, host, wire);
            true
        }
    }
}

/// Writes the queued output once, and removes the bytes taken from the queue. A failed write shuts
/// the connection and closes the session. True if a byte was taken or the connection was shut.
fn write_to<W: Wire, S: BuildHasher, A: Allocator + Copy>(
    held: &mut Connection,
    host: &mut Host<S, A>,
    wire: &mut W,
) -> bool
    ensures writes { OverOne W.Wire (CarriesOne Output result)
        held.old host.old wire.old held.new host.new wire.new }
    ensures still { is_to_write host.old held.old ≡ false → result ≡ false }
    ensures ended { held.new.has_ended ≡ held.old.has_ended }
{
    let link = held.link;
    if held.is_shut || !host.activity(link.id).has_output {
        return false;
    }
    let Some(bytes) = host.output(link.id) else {
        return false;
    };
    match wire.write(link.number, bytes) {
        Ok(n) => {
            let _passed = host.pass(link.id, n);
            0 < n
        }
        Err(_) => {
            shut_down(held, host, wire);
            true
        }
    }
}

/// Whether a connection is finished with: the host no longer has its session; or the session is
/// over or the reads have ended, and nothing is pending or queued.
fn is_finished<S: BuildHasher, A: Allocator + Copy>(held: &Connection, host: &Host<S, A>) -> bool
    ensures { result ≡ is_finished host.now held.now }
{
    let now = host.activity(held.link.id);
    let has_ended = held.has_ended | now.is_over;
    !now.is_open | (has_ended & !now.has_output & !now.is_pending)
}

/// Shuts a connection that is finished with, and closes its session. True if it did.
fn close_if_finished<W: Wire, S: BuildHasher, A: Allocator + Copy>(
    held: &mut Connection,
    host: &mut Host<S, A>,
    wire: &mut W,
) -> bool
    ensures ends { OverOne W.Wire (CarriesOne End result)
        held.old host.old wire.old held.new host.new wire.new }
    ensures finished { result ≡ is_to_shut host.old held.old }
    ensures shuts { result ≡ true → held.new.is_shut ≡ true }
    ensures unchanged { result ≡ false → host.new ≡ host.old }
    ensures left { IsLeft host.new held.new }
    ensures ended { held.new.has_ended ≡ held.old.has_ended }
{
    if held.is_shut || !is_finished(held, host) {
        return false;
    }
    shut_down(held, host, wire);
    true
}

/// Carries out one part of a turn for one connection. True if something moved.
pub fn visit<W: Wire, S: BuildHasher, A: Allocator + Copy>(
    part: Part,
    held: &mut Connection,
    host: &mut Host<S, A>,
    wire: &mut W,
) -> bool
    ensures carries { OverOne W.Wire (CarriesOne part result)
        held.old host.old wire.old held.new host.new wire.new }
    ensures visit { IsVisit host.new (calls_of part host.old held.old held.new) held.old held.new }
    ensures emptied { EndsEmptied held.old held.new (W.report wire.old) (W.report wire.new) }
    ensures ended { part ≡ End → held.new.has_ended ≡ held.old.has_ended }
    ensures left { part ≡ End → IsLeft host.new held.new }
{
    match part {
        Part::Input => read_from(held, host, wire),
        Part::Output => write_to(held, host, wire),
        Part::End => close_if_finished(held, host, wire),
    }
}
