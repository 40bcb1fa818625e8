//! A wire over a listener in memory, each call of which fails in turn.

use crate::{MemoryBinder, MemoryDoor, MemoryEndpoint, MemoryListener, MemoryStream, Plan};
use mio::Events;
use std::alloc::Global;
use std::test::Fail;
use stream_transport::{Endpoint, Socket, SocketListener, StreamFault, StreamWire, Watcher};
use transport::{Got, Wire, WireFault};

const LINES: &[u8] = b"usi\nisready\n\nquit\nrest";

/// How many turns are taken: more than there are bytes and failures.
const TURNS: usize = 60;

/// Writes each byte back that it reads, at most five a turn.
#[derive(Drop)]
struct Client {
    wire: StreamWire<MemoryListener<Global>, Global>,
    number: Option<u64>,
    read: Vec<u8, Global>,
    // How many of these were written.
    written: usize,
    has_ended: bool,
}

impl Client {
    fn turn(&mut self) -> Result<(), Fail> {
        if let Ok(Some(number)) = self.wire.accept() {
            self.number = Some(number);
        }
        let Some(number) = self.number else {
            return Ok(());
        };
        match self.wire.read(number, 5) {
            Ok(Got::Bytes) => self.read.extend_from_slice(self.wire.bytes())?,
            Ok(Got::Ended) => self.has_ended = true,
            _ => {}
        }
        if let Some(left) = self.read.get(self.written..) {
            if let Ok(n) = self.wire.write(number, left) {
                self.written = self.written.saturating_add(n);
            }
        }
        Ok(())
    }
}

/// One client that sends the lines, over a stream and a listener that fail by these plans. A write
/// takes at most three bytes.
fn echo(alloc: Global, stream: Plan, listener: Plan) -> Result<Client, Fail> {
    let mut incoming = Vec::new(alloc);
    incoming.extend_from_slice(LINES)?;
    let mut waiting = Vec::new(alloc);
    waiting.push(MemoryStream::new(alloc, incoming, 3, stream))?;
    let mut client = Client {
        wire: StreamWire::new(alloc, MemoryListener::new(alloc, waiting, listener)),
        number: None,
        read: Vec::new(alloc),
        written: 0,
        has_ended: false,
    };
    for _ in 0..TURNS {
        client.turn()?;
    }
    if let Some(number) = client.number {
        client.wire.shut(number);
    }
    Ok(client)
}

/// What the stream took that came back.
fn taken(client: &Client) -> Option<&[u8]> {
    let stream = client.wire.listener.returned.first()?;
    Some(stream.written.as_slice())
}

#[test]
fn all_is_written_back(rt: HostRuntime) -> Result<(), Fail> {
    let client = echo(rt.alloc(), Plan::none(), Plan::none())?;
    assert_eq!(rt; client.read.as_slice(), LINES);
    assert!(rt; taken(&client) == Some(LINES));
    assert!(rt; client.has_ended);
    assert_eq!(rt; client.wire.faults(), 0);
    Ok(())
}

#[test]
fn a_call_that_may_be_made_again_loses_nothing(rt: HostRuntime) -> Result<(), Fail> {
    for fault in [StreamFault::WouldBlock, StreamFault::Interrupted] {
        for fails_in in 1..40 {
            let plan = Plan { fails_in, fault };
            let client = echo(rt.alloc(), plan, Plan::none())?;
            assert_eq!(rt; client.read.as_slice(), LINES);
            assert!(rt; taken(&client) == Some(LINES));
            assert_eq!(rt; client.wire.faults(), 0);
        }
    }
    Ok(())
}

#[test]
fn a_call_that_failed_is_counted_once(rt: HostRuntime) -> Result<(), Fail> {
    for fails_in in 1..20 {
        let plan = Plan {
            fails_in,
            fault: StreamFault::Failed,
        };
        let client = echo(rt.alloc(), plan, Plan::none())?;
        assert_eq!(rt; client.read.as_slice(), LINES);
        assert!(rt; taken(&client) == Some(LINES));
        assert_eq!(rt; client.wire.faults(), 1);
    }
    Ok(())
}

#[test]
fn a_listener_that_failed_takes_nobody(rt: HostRuntime) -> Result<(), Fail> {
    for fault in [StreamFault::Interrupted, StreamFault::Failed] {
        for fails_in in 1..20 {
            let plan = Plan { fails_in, fault };
            let client = echo(rt.alloc(), Plan::none(), plan)?;
            assert_eq!(rt; client.read.as_slice(), LINES);
            assert!(rt; taken(&client) == Some(LINES));
            assert_eq!(rt; client.wire.faults(), 1);
        }
    }
    Ok(())
}

type SocketWire = StreamWire<SocketListener<MemoryEndpoint<Global>, Global>, Global>;

// Two clients, of which the first one sends a line and the start of another one.
fn door(alloc: Global) -> Result<MemoryDoor<Global>, Fail> {
    let mut waiting = Vec::new(alloc);
    for sent in [b"isready\n".as_slice(), b"usi\nqu".as_slice()] {
        waiting.push(Vec::from_slice(alloc, sent)?)?;
    }
    Ok(MemoryDoor::new(alloc, waiting))
}

#[test]
fn an_endpoint_hands_its_clients_out(rt: HostRuntime) -> Result<(), Fail> {
    let mut door = door(rt.alloc())?;
    let mut endpoint = MemoryEndpoint::new();
    let mut events = Events::with_capacity(rt.alloc(), 4)?;
    assert!(rt; endpoint.poll_once(&mut events, None).is_ok());
    assert!(rt; events.is_empty());
    let Ok(mut socket) = endpoint.accept_one(&mut door) else {
        return Err(Fail::from("nobody waits"));
    };
    assert!(rt; endpoint.name(&mut socket, 7).is_ok());
    assert!(rt;
        endpoint.watcher().is_ok_and(|watcher| {
            let mut watcher = watcher;
            watcher.accept_visitor(&mut door).is_ok() & watcher.watch_again(&mut door).is_ok()
        })
    );
    assert!(rt; endpoint.accept_one(&mut door).is_err());
    let mut buf = [0u8; 8];
    assert!(rt; matches!(socket.read_some(&mut buf), Ok(6)));
    assert!(rt; matches!(socket.write_some(b"id name"), Ok(3)));
    assert!(rt; socket.end_writing().is_ok());
    assert!(rt; socket.is_shut);
    assert_eq!(rt; socket.stream.written.as_slice(), b"id ".as_slice());
    Ok(())
}

// The listener of a socket, run in memory: a line of each client is read, what it sent behind its line is kept, and
// a shut connection is not read again.
#[test]
fn a_listener_of_sockets_is_run_in_memory(rt: HostRuntime) -> Result<(), Fail> {
    let mut binder = MemoryBinder::new(door(rt.alloc())?);
    assert!(rt;
        matches!(
            SocketWire::bind(&mut binder, rt.alloc(), ""),
            Err(WireFault::Device)
        )
    );
    let mut wire = SocketWire::bind(&mut binder, rt.alloc(), "socket")?;
    assert!(rt;
        matches!(
            SocketWire::bind(&mut binder, rt.alloc(), "socket"),
            Err(WireFault::Device)
        )
    );
    assert_eq!(rt; wire.accept(), Ok(Some(0)));
    assert_eq!(rt; wire.accept(), Ok(Some(1)));
    assert_eq!(rt; wire.accept(), Ok(None));
    assert_eq!(rt; wire.read(0, 4096), Ok(Got::Bytes));
    assert_eq!(rt; wire.bytes(), b"usi\n".as_slice());
    assert_eq!(rt; wire.read(1, 4096), Ok(Got::Bytes));
    assert_eq!(rt; wire.bytes(), b"isready\n".as_slice());
    assert_eq!(rt; wire.write(1, b"readyok\n"), Ok(3));
    assert_eq!(rt; wire.read(0, 4096), Ok(Got::Bytes));
    assert_eq!(rt; wire.bytes(), b"qu".as_slice());
    assert_eq!(rt; wire.read(0, 4096), Ok(Got::Ended));
    wire.shut(0);
    assert_eq!(rt; wire.read(0, 4096), Err(WireFault::Device));
    assert_eq!(rt; wire.wait(true), Ok(()));
    assert_eq!(rt; wire.faults(), 1);
    Ok(())
}
