//! A wire that records which calls it was asked for, and the calls of turns over it.

ghost use Rattle.std.specs.Prelude.{◌≡◌, map, ◌++◌, ◌∷◌, [], Some};
ghost use Rattle.socket_loop.specs.Links.{links_of};
ghost use Rattle.socket_loop.specs.Turns.{Fits};
ghost use Rattle.socket_loop.specs.Calls.{AsksTurn};
ghost use Rattle.test_wire.specs.Memory.{report_by};
ghost use Rattle.test_host.specs.Calls.{call_of};

use crate::connections::call::Call;
use crate::connections::scene::{ANSWER, GO_AND_QUIT, HOST_FULL, SeedlessHost};
use host_core::Host;
use socket_loop::{Loop, Turn};
use std::alloc::Global;
use std::hash::{BuildHasherDefault, FoldHasher};
use std::process::Abort;
use std::test::Fail;
use test_support::{holds, same};
use test_wire::MemoryWire;
use transport::{Got, Wire, WireFault};

/// A wire in memory that keeps each call. Where there is no memory to keep one, the process ends.
#[derive(Drop)]
struct RecordingWire<'r, R: Abort> {
    rt: &'r R,
    alloc: Global,
    wire: MemoryWire<Global>,
    calls: Vec<Call<Global>, Global>,
}

impl<'r, R: Abort> RecordingWire<'r, R> {
    fn keep(&mut self, call: Call<Global>)
        ensures calls { self.new.calls.items ≡ self.old.calls.items ++ (call ∷ []) }
        ensures wire { self.new.wire ≡ self.old.wire }
    {
        if self.calls.push(call).is_err() {
            self.rt.abort()
        }
    }

    fn copied(&self, bytes: &[u8]) -> Vec<u8, Global>
        ensures { result.items ≡ bytes.now }
    {
        match Vec::from_slice(self.alloc, bytes) {
            Ok(copy) => copy,
            Err(_) => self.rt.abort(),
        }
    }
}

impl<'r, R: Abort> Wire for RecordingWire<'r, R> {
    ghost use Rattle.std.specs.Prelude.{map, Some};
    ghost use Rattle.test_wire.specs.Memory.{report_by};
    ghost use Rattle.test_host.specs.Calls.{call_of};

    ghost report = { λ w. report_by w.wire };

    ghost asked = { λ w. Some (map call_of w.calls.items) };

    ghost bound = { λ w. w.wire.accepted };

    ghost failed = { λ w. w.wire.failed };

    ghost lent = { λ w. w.wire.lent };

    fn accept(&mut self) -> Result<Option<u64>, WireFault> {
        let answer = self.wire.accept();
        self.keep(Call::Accept(answer));
        answer
    }

    fn read(&mut self, number: u64, most: usize) -> Result<Got, WireFault> {
        self.keep(Call::Read(number, most));
        self.wire.read(number, most)
    }

    fn bytes(&self) -> &[u8] {
        self.wire.bytes()
    }

    fn write(&mut self, number: u64, buf: &[u8]) -> Result<usize, WireFault> {
        let bytes = self.copied(buf);
        self.keep(Call::Write(number, bytes));
        self.wire.write(number, buf)
    }

    fn shut(&mut self, number: u64) {
        self.keep(Call::Shut(number));
        self.wire.shut(number);
    }

    fn wait(&mut self, idle: bool) -> Result<(), WireFault> {
        let answer = self.wire.wait(idle);
        self.keep(Call::Wait(idle, answer));
        answer
    }

    fn faults(&self) -> u64 {
        self.wire.faults()
    }
}

/// A turn over such a wire: its calls are those that are due.
fn turn_over<R: Abort>(
    turns: &mut Loop<Global>,
    host: &mut SeedlessHost,
    wire: &mut RecordingWire<'_, R>,
) -> Turn
    requires fits { Fits (links_of turns.old.held) wire.old.wire.accepted host.old }
    ensures asked { AsksTurn turns.old.slice result.moved result.tally
        (record {
          held = turns.old.held;
          bound = wire.old.wire.accepted;
          report = report_by wire.old.wire;
          asked = Some (map call_of wire.old.calls.items);
          failed = wire.old.wire.failed;
          host = host.old;
        })
        (record {
          held = turns.new.held;
          bound = wire.new.wire.accepted;
          report = report_by wire.new.wire;
          asked = Some (map call_of wire.new.calls.items);
          failed = wire.new.wire.failed;
          host = host.new;
        }) }
    ensures fits { Fits (links_of turns.new.held) wire.new.wire.accepted host.new }
{
    turns.turn(host, wire)
}

/// A call that is expected.
#[derive(Clone, Copy)]
enum Due {
    Accepted(u64),
    Nobody,
    Read(u64),
    Write(u64, &'static [u8]),
    Shut(u64),
}

fn is_due(call: &Call<Global>, due: Due) -> bool {
    match due {
        Due::Accepted(number) => matches!(call, Call::Accept(Ok(Some(n))) if *n == number),
        Due::Nobody => matches!(call, Call::Accept(Ok(None))),
        Due::Read(number) => matches!(call, Call::Read(n, most) if *n == number && *most == 4096),
        Due::Write(number, bytes) => {
            matches!(call, Call::Write(n, all) if *n == number && all.as_slice() == bytes)
        }
        Due::Shut(number) => matches!(call, Call::Shut(n) if *n == number),
    }
}

/// The calls of three turns.
const CALLS: [Due; 11] = [
    Due::Accepted(0),
    Due::Accepted(1),
    Due::Write(1, HOST_FULL),
    Due::Shut(1),
    Due::Nobody,
    Due::Read(0),
    Due::Nobody,
    Due::Read(0),
    Due::Write(0, ANSWER),
    Due::Shut(0),
    Due::Nobody,
];

/// A wire with two peers, of whom the second one sends nothing.
fn with_two_peers<R: Abort>(rt: &R, alloc: Global) -> Result<RecordingWire<'_, R>, Fail> {
    let mut wire = MemoryWire::new(alloc);
    for chunks in [GO_AND_QUIT, &[]] {
        let mut all = Vec::new(alloc);
        for chunk in chunks {
            all.push(Vec::from_slice(alloc, chunk)?)?;
        }
        wire.connect(all).map_err(|_| "memory for a peer")?;
    }
    Ok(RecordingWire {
        rt,
        alloc,
        wire,
        calls: Vec::new(alloc),
    })
}

// The host has room for the first of two. The first turn reads half a line, and the second one the
// rest, which is answered and ends the session; in the third one there is nothing to be done.
#[test]
fn the_calls_of_three_turns(rt: HostRuntime) -> Result<(), Fail> {
    let mut wire = with_two_peers(&rt, rt.alloc())?;
    let mut turns = Loop::new(rt.alloc(), 1000)?;
    let hasher = BuildHasherDefault::<FoldHasher>::new();
    let mut host = Host::new(rt.alloc(), 1, 4096, hasher)?;
    holds!(rt; turn_over(&mut turns, &mut host, &mut wire).moved);
    holds!(rt; turn_over(&mut turns, &mut host, &mut wire).moved);
    holds!(rt; !turn_over(&mut turns, &mut host, &mut wire).moved);
    let calls = CALLS;
    same!(rt; wire.calls.len(), calls.len());
    for (call, due) in wire.calls.as_slice().iter().zip(calls) {
        holds!(rt; is_due(call, due));
    }
    Ok(())
}
