//! The numbers that a host shows to its operator.

ghost use Rattle.std.specs.Prelude.{◌≡◌};
ghost use Rattle.socket_loop.specs.Status.{counted, status_from};

use crate::tally::Tally;
use crate::turn::Loop;
use host_core::Host;
use std::alloc::Allocator;
use std::hash::BuildHasher;
use stream_transport::MioWire;
use transport::Wire;
use usi_texts::Setup;

/// The process that runs a host.
#[derive(Clone, Copy, Debug, PartialEq, Eq)]
pub struct Process {
    /// The process id, to which signals go.
    pub pid: u32,
    /// Start time in seconds since 1970 (UTC); 0 if no clock gave it.
    pub started: u64,
}

/// The limits a host was started with.
#[derive(Clone, Copy, Debug, PartialEq, Eq)]
pub struct Limits {
    /// Most sessions open at a time.
    pub slots: u64,
    /// Most entries of the transposition table.
    pub entries: u64,
    /// Most steps of search by one session in a turn.
    pub slice: u64,
}

/// Sums over all turns so far. Each sum stops at 18,446,744,073,709,551,615.
#[derive(Clone, Copy, Debug, PartialEq, Eq)]
pub struct Totals {
    /// Turns taken.
    pub turns: u64,
    /// Connections accepted.
    pub accepted: u64,
    /// Accepted connections that found the host full.
    pub full: u64,
    /// Accepted connections without memory for a session.
    pub unopened: u64,
    /// Connections shut by a read: the read failed, or memory ran out for its bytes.
    pub ended_reading: u64,
    /// Connections shut by a failed write.
    pub ended_writing: u64,
    /// Connections shut after their session was answered, or was gone.
    pub finished: u64,
    /// How often a session ran out of memory for its work.
    pub refused_work: u64,
    /// Steps of search.
    pub steps: u64,
    /// `bestmove` lines queued: one for each answered `go`.
    pub bestmoves: u64,
}

/// The numbers of a host at one moment.
#[derive(Clone, Copy, Debug)]
pub struct Status {
    pub process: Process,
    pub limits: Limits,
    /// The setup of each new session.
    pub setup: Setup,
    pub totals: Totals,
    /// Connections held, each with a session.
    pub used: u64,
    /// Connections whose session is pending: it searches, or has unread lines.
    pub searching: u64,
    /// Entries in use in the transposition table.
    pub filled: u64,
    /// Entries that the table could not store for want of memory.
    pub refused_notes: u64,
    /// Probes of the table.
    pub probes: u64,
    /// Probes that found an entry.
    pub hits: u64,
    /// Bytes read from connections.
    pub received: u64,
    /// Bytes written to connections.
    pub sent: u64,
    /// Failed system calls, of the wire and of the status socket.
    pub faults: u64,
}

impl Totals {
    /// All zero.
    pub const NONE: Totals = Totals {
        turns: 0,
        accepted: 0,
        full: 0,
        unopened: 0,
        ended_reading: 0,
        ended_writing: 0,
        finished: 0,
        refused_work: 0,
        steps: 0,
        bestmoves: 0,
    };

    /// Adds one turn with this tally.
    pub fn count(&mut self, tally: &Tally)
        ensures { self.new ≡ counted self.old tally.now }
    {
        self.turns = self.turns.saturating_add(1);
        self.accepted = self.accepted.saturating_add(tally.accepted as u64);
        self.full = self.full.saturating_add(tally.full as u64);
        self.unopened = self.unopened.saturating_add(tally.unopened as u64);
        self.ended_reading = self
            .ended_reading
            .saturating_add(tally.ended_reading as u64);
        self.ended_writing = self
            .ended_writing
            .saturating_add(tally.ended_writing as u64);
        self.finished = self.finished.saturating_add(tally.finished as u64);
        self.refused_work = self.refused_work.saturating_add(tally.refused as u64);
        self.steps = self.steps.saturating_add(tally.steps);
        self.bestmoves = self.bestmoves.saturating_add(tally.bestmoves);
    }
}

/// Collects the numbers of a host, its connections and its wire. `faults` counts failed calls of
/// the status socket, which the wire does not count.
pub fn status_of<S: BuildHasher, A: Allocator + Copy>(
    process: Process,
    limits: Limits,
    totals: Totals,
    faults: u64,
    host: &Host<S, A>,
    connections: &Loop<A>,
    wire: &MioWire<A>,
) -> Status
    ensures { result ≡ status_from process limits totals faults host.now connections.now wire.now }
{
    Status {
        process,
        limits,
        setup: host.setup(),
        totals,
        used: connections.count() as u64,
        searching: connections.count_pending(host) as u64,
        filled: host.entries() as u64,
        refused_notes: host.refused_notes(),
        probes: host.probes(),
        hits: host.hits(),
        received: wire.traffic.received,
        sent: wire.traffic.sent,
        faults: wire.faults().saturating_add(faults),
    }
}
