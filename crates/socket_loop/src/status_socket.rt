//! The socket of a status.

ghost use Rattle.std.specs.Prelude.{◌≡◌, [], Err, IfOk};
ghost use Rattle.socket_loop.specs.Status.{counted, no_totals};
ghost use Rattle.transport.specs.declared.wire.WireFault.TheVariants.{Device};

use crate::monitor::Monitor;
use crate::status::{Limits, Process, Totals, status_of};
use crate::status_line::{LINE_MAX, write_line};
use crate::turn::{Loop, Turn};
use crate::visitors::Visitors;
use host_core::Host;
use mio::net::UnixListener;
use mio::{Poll, Registry};
use std::alloc::Allocator;
use std::hash::BuildHasher;
use stream_transport::{Binder, MioWire};
use transport::WireFault;

/// A Unix socket for a status, which no wire watches yet.
#[derive(Drop)]
pub struct StatusListener<A: Allocator> {
    listener: UnixListener,
    line: Vec<u8, A>,
    /// The process of the host.
    pub process: Process,
    /// What the host was given.
    pub limits: Limits,
}

impl<A: Allocator + Copy> StatusListener<A> {
    /// Makes a socket at the path. `Device` if the system refuses it, as for a path that exists, and
    /// if the path is empty. All memory is taken before.
    pub fn bind<B: Binder<Poll>>(
        binder: &mut B,
        alloc: A,
        path: &str,
        process: Process,
        limits: Limits,
    ) -> Result<StatusListener<A>, WireFault>
        ensures unnamed { path.now ≡ [] → result ≡ Err Device }
        ensures process { IfOk result (λ listener. listener.process ≡ process) }
        ensures limits { IfOk result (λ listener. listener.limits ≡ limits) }
    {
        if path.is_empty() {
            return Err(WireFault::Device);
        }
        let line = Vec::with_capacity(alloc, LINE_MAX)?;
        match binder.listen(path) {
            Ok(listener) => Ok(StatusListener {
                listener,
                line,
                process,
                limits,
            }),
            Err(_) => Err(WireFault::Device),
        }
    }
}

/// A Unix socket that tells the status of a host to whoever connects: one line, in one write that does
/// not wait, and then the connection is closed, whatever was taken of it.
#[derive(Drop)]
pub struct StatusSocket<A: Allocator> {
    visitors: Visitors<Registry>,
    line: Vec<u8, A>,
    /// The process of the host.
    pub process: Process,
    /// What the host was given.
    pub limits: Limits,
    /// What was counted so far.
    pub totals: Totals,
}

impl<A: Allocator + Copy> StatusSocket<A> {
    /// Has the waits of this wire end too when somebody connects to the socket. `Device` if the
    /// system refuses it.
    pub fn over(
        listener: StatusListener<A>,
        wire: &mut MioWire<A>,
    ) -> Result<StatusSocket<A>, WireFault>
        ensures process { IfOk result (λ socket. socket.process ≡ listener.process) }
        ensures limits { IfOk result (λ socket. socket.limits ≡ listener.limits) }
        ensures if_none { IfOk result (λ socket. socket.totals ≡ no_totals) }
    {
        let StatusListener {
            listener,
            line,
            process,
            limits,
        } = listener;
        let mut listener = listener;
        match wire.listener.watch(&mut listener) {
            Ok(watcher) => Ok(StatusSocket {
                visitors: Visitors::new(listener, watcher),
                line,
                process,
                limits,
                totals: Totals::NONE,
            }),
            Err(_) => Err(WireFault::Device),
        }
    }

    /// Makes the status line of this turn; without memory there is none.
    fn tell<S: BuildHasher>(&mut self, host: &Host<S, A>, connections: &Loop<A>, wire: &MioWire<A>)
        ensures process { self.new.process ≡ self.old.process }
        ensures limits { self.new.limits ≡ self.old.limits }
        ensures totals { self.new.totals ≡ self.old.totals }
    {
        let faults = self.visitors.faults;
        let status = status_of(
            self.process,
            self.limits,
            self.totals,
            faults,
            host,
            connections,
            wire,
        );
        let _written = write_line(&mut self.line, &status);
    }
}

impl<S: BuildHasher, A: Allocator + Copy> Monitor<MioWire<A>, S, A> for StatusSocket<A> {
    fn after_turn(
        &mut self,
        turn: &Turn,
        host: &Host<S, A>,
        connections: &Loop<A>,
        wire: &MioWire<A>,
    )
        ensures process { self.new.process ≡ self.old.process }
        ensures limits { self.new.limits ≡ self.old.limits }
        ensures totals { self.new.totals ≡ counted self.old.totals turn.now.tally }
    {
        self.totals.count(&turn.tally);
        if let Some(first) = self.visitors.next_after(wire.listener.visits) {
            self.tell(host, connections, wire);
            self.visitors.answer_all(first, self.line.as_slice());
        }
    }
}
