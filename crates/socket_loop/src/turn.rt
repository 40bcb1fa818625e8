//! The loop over the connections of a wire, and one turn of it.

ghost use Rattle.std.specs.Prelude.{false, insert, ◌≡◌, ◌≤◌, ◌<◌, [], ◌∷◌, ◌+◌, length, IfOk, vec_capacity};
ghost use Rattle.socket_loop.specs.Accepting.{new_connection, place_for, AcceptsAll, AdmitsOne, IsShutAfterPrefix};
ghost use Rattle.socket_loop.specs.Links.{links_of, unshut_of, AreOnce, Each, IsRising};
ghost use Rattle.socket_loop.specs.Parts.{is_finished};
ghost use Rattle.socket_loop.specs.Turns.{any_pending, host_full, Fits, Over};
ghost use Rattle.socket_loop.specs.Tallies.{pending_count, shut_count};
ghost use Rattle.socket_loop.specs.Visits.{CarriesEach};
ghost use Rattle.transport.specs.Moves.{StaysKnown};
ghost use Rattle.transport.specs.Asked.{Write, Shut};
ghost use Rattle.transport.specs.Wires.{IsAsked};
ghost use Rattle.socket_loop.specs.Calls.{Turns};
ghost use Rattle.socket_loop.specs.declared.turn.TheConstants.{ACCEPTS};
ghost use Rattle.session_slots.specs.declared.limits.TheConstants.{SESSIONS_MAX};

use crate::connection::{Connection, Link};
use crate::tally::{Admission, Arrivals, Tally, Visited, newly_shut, one_if};
use crate::visit::{Part, visit};
use host_core::{Host, HostFault};
use session_slots::SESSIONS_MAX;
use std::alloc::{AllocError, Allocator};
use std::hash::BuildHasher;
use std::marker::Model;
use transport::Wire;

/// The most connections accepted in a turn.
pub const ACCEPTS: usize = 16;

/// The outcome of a turn.
#[derive(Clone, Copy, Debug, PartialEq, Eq)]
pub struct Turn {
    /// A connection was accepted, gave or took at least one byte, ended or was shut, or the session
    /// of a connection is still pending.
    pub moved: bool,
    /// The counts of the turn.
    pub tally: Tally,
}

/// The connections served, by rising slot of their sessions, and the step budget of each round.
#[derive(Drop)]
pub struct Loop<A: Allocator + Copy> {
    slice: u64,
    held: Vec<Connection, A>,
}

impl<A: Allocator + Copy> Model for Loop<A> {
    ghost use Rattle.std.specs.Prelude.{◌<◌, vec_capacity};
    ghost use Rattle.socket_loop.specs.Turns.{LoopState};
    ghost use Rattle.session_slots.specs.declared.limits.TheConstants.{SESSIONS_MAX};

    ghost Value = { LoopState };

    ghost view = { λ l. record { slice = l.slice; held = l.held.items } };

    ghost invariant = { λ l. SESSIONS_MAX < vec_capacity l.held };
}

/// The index at which a connection with this slot keeps the slots rising.
fn place_of(held: &[Connection], slot: usize) -> usize
    ensures place { result ≡ place_for slot held.now }
    ensures within { result ≤ length held.now }
{
    for place in 0..held.len() {
        if held[place].link.id.slot > slot {
            return place;
        }
    }
    held.len()
}

/// Removes the connections that were shut.
fn retain_open<A: Allocator>(held: &mut Vec<Connection, A>)
    ensures left { held.new.items ≡ unshut_of held.old.items }
    ensures capacity { vec_capacity held.new ≡ vec_capacity held.old }
{
    held.retain(|connection| !connection.is_shut);
}

/// Writes `info string host full`, or a part of it, in one write, and shuts the connection.
fn reject<W: Wire>(wire: &mut W, number: u64)
    ensures asked { IsAsked W.Wire wire.old wire.new (Write number host_full ∷ Shut number ∷ []) }
    ensures away { IsShutAfterPrefix (W.bound wire.old) host_full (W.report wire.old)
        (W.report wire.new) number }
    ensures bound { W.bound wire.new ≡ W.bound wire.old }
    ensures faults { W.failed wire.old ≤ W.failed wire.new }
{
    let _written = wire.write(number, b"info string host full\n");
    wire.shut(number);
}

impl<A: Allocator + Copy> Loop<A> {
    /// A loop without connections, whose rounds have a budget of `slice` steps. Reserves 32 bytes
    /// for each of `SESSIONS_MAX + 1` connections, which lets turns add connections without
    /// allocation. Fails if out of memory.
    pub fn new(alloc: A, slice: u64) -> Result<Loop<A>, AllocError>
        requires { 1 ≤ slice }
        ensures { IfOk result (λ l. l ≡ record { slice = slice; held = [] }) }
    {
        let held = Vec::with_capacity(alloc, SESSIONS_MAX + 1)?;
        Ok(Loop { slice, held })
    }

    /// Inserts a new connection with its session by rising slot.
    fn add_connection(&mut self, link: Link)
        requires room { length self.old.held ≤ SESSIONS_MAX }
        ensures held { self.new.held
            ≡ insert self.old.held (place_for link.id.slot self.old.held) (new_connection link) }
        ensures slice { self.new.slice ≡ self.old.slice }
    {
        let connection = Connection {
            link,
            has_ended: false,
            is_shut: false,
        };
        let place = place_of(&self.held, link.id.slot);
        if self.held.insert(place, connection).is_err() {
            unreachable!();
        }
    }

    /// Opens a session for a new connection and holds both. If the host is full the connection is
    /// told and shut; if memory runs out for a session it is shut without a word.
    fn admit<W: Wire, S: BuildHasher>(
        &mut self,
        host: &mut Host<S, A>,
        wire: &mut W,
        number: u64,
    ) -> Admission
        requires room { length self.old.held ≤ SESSIONS_MAX }
        ensures one { Over W.Wire (AdmitsOne number result)
            self.old host.old wire.old self.new host.new wire.new }
        ensures most { result.full + result.unopened ≤ 1 }
    {
        match host.open() {
            Ok(id) => {
                self.add_connection(Link { number, id });
                Admission {
                    full: 0,
                    unopened: 0,
                }
            }
            Err(HostFault::Full) => {
                reject(wire, number);
                Admission {
                    full: 1,
                    unopened: 0,
                }
            }
            Err(_) => {
                wire.shut(number);
                Admission {
                    full: 0,
                    unopened: 1,
                }
            }
        }
    }

    /// Accepts new connections, at most `ACCEPTS`, while there is room. There always is if each
    /// held connection has an open session of its own.
    fn accept_all<W: Wire, S: BuildHasher>(
        &mut self,
        host: &mut Host<S, A>,
        wire: &mut W,
    ) -> Arrivals
        requires fits { Fits (links_of self.old.held) (W.bound wire.old) host.old }
        ensures { Over W.Wire (AcceptsAll result)
            self.old host.old wire.old self.new host.new wire.new }
    {
        let mut arrivals = Arrivals {
            moved: false,
            accepted: 0,
            full: 0,
            unopened: 0,
        };
        for _ in 0..ACCEPTS {
            if self.held.len() > SESSIONS_MAX {
                host.reveal_invariant();
                return arrivals;
            }
            let Ok(Some(number)) = wire.accept() else {
                return arrivals;
            };
            let admission = self.admit(host, wire, number);
            arrivals = Arrivals {
                moved: true,
                accepted: arrivals.accepted + 1,
                full: arrivals.full + admission.full,
                unopened: arrivals.unopened + admission.unopened,
            };
        }
        arrivals
    }

    /// Carries out one part of a turn for each connection.
    fn visit_all<W: Wire, S: BuildHasher>(
        &mut self,
        part: Part,
        host: &mut Host<S, A>,
        wire: &mut W,
    ) -> Visited
        ensures all { Over W.Wire (CarriesEach part result.moved)
            self.old host.old wire.old self.new host.new wire.new }
        ensures shut { result.shut + shut_count self.old.held ≡ shut_count self.new.held }
    {
        let mut moved = false;
        let mut shut = 0;
        for connection in self.held.iter_mut() {
            let was_shut = connection.is_shut;
            let has_moved = visit(part, connection, host, wire);
            shut += newly_shut(was_shut, connection.is_shut);
            moved = moved | has_moved;
        }
        Visited { moved, shut }
    }

    /// Removes the connections that were shut.
    fn remove_shut(&mut self)
        ensures held { self.new.held ≡ unshut_of self.old.held }
        ensures slice { self.new.slice ≡ self.old.slice }
    {
        retain_open(&mut self.held);
    }

    /// Whether the session of any connection is pending.
    fn is_pending<S: BuildHasher>(&self, host: &Host<S, A>) -> bool
        ensures { result ≡ any_pending host.now (links_of self.now.held) }
    {
        for connection in self.held.as_slice() {
            if host.pending(connection.link.id) {
                return true;
            }
        }
        false
    }

    /// The number of connections held.
    pub fn count(&self) -> usize
        ensures { result ≡ length self.now.held }
    {
        self.held.len()
    }

    /// The number of connections held whose session is pending.
    pub fn count_pending<S: BuildHasher>(&self, host: &Host<S, A>) -> usize
        ensures { result ≡ pending_count host.now (links_of self.now.held) }
    {
        let mut count = 0;
        for connection in self.held.as_slice() {
            count += one_if(host.pending(connection.link.id));
        }
        count
    }

    /// Accepts, reads, works, writes and shuts, in this order. All connections must come from this
    /// wire and all sessions from this host, from the first turn on.
    ///
    /// Over a wire that reports its bytes, a turn writes to a connection what its session owes for
    /// the bytes read, less what it still owes; if it is shut, a prefix of what is owed. A
    /// connection that found the host full gets a prefix of `info string host full`. A connection is
    /// shut only for its own failed read or write, for a feed of its session that ran out of memory,
    /// or when it is finished with.
    pub fn turn<W: Wire, S: BuildHasher>(&mut self, host: &mut Host<S, A>, wire: &mut W) -> Turn
        requires fits { Fits (links_of self.old.held) (W.bound wire.old) host.old }
        ensures turn { Over W.Wire (Turns self.old.slice result.moved result.tally)
            self.old host.old wire.old self.new host.new wire.new }
        ensures pending { result.moved ≡ false
            → any_pending host.new (links_of self.new.held) ≡ false }
        ensures known { StaysKnown (W.report wire.old) (W.report wire.new) }
        ensures fits { Fits (links_of self.new.held) (W.bound wire.new) host.new }
        ensures faults { W.failed wire.old ≤ W.failed wire.new }
        ensures once { AreOnce (links_of self.old.held) → AreOnce (links_of self.new.held) }
        ensures finished { AreOnce (links_of self.old.held)
            → Each (λ connection. is_finished host.new connection ≡ false) self.new.held }
        ensures rising { IsRising (links_of self.old.held) → IsRising (links_of self.new.held) }
    {
        let arrivals = self.accept_all(host, wire);
        let read = self.visit_all(Part::Input, host, wire);
        let round = host.round(self.slice);
        let written = self.visit_all(Part::Output, host, wire);
        let closed = self.visit_all(Part::End, host, wire);
        self.remove_shut();
        let is_pending = self.is_pending(host);
        Turn {
            moved: arrivals.moved | read.moved | written.moved | closed.moved | is_pending,
            tally: Tally {
                accepted: arrivals.accepted,
                full: arrivals.full,
                unopened: arrivals.unopened,
                ended_reading: read.shut,
                ended_writing: written.shut,
                finished: closed.shut,
                refused: round.refused,
                steps: round.steps,
                bestmoves: round.bestmoves,
            },
        }
    }
}
