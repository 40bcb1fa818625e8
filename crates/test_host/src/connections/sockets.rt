//! The wire over a Unix socket, by its calls. One thread is both ends: a connection waits in the listener's queue,
//! and bytes in the stream.

use std::alloc::Global;
use std::io::{Read as StreamRead, Write};
use std::marker::Model;
use std::net::Shutdown;
use std::os::unix::net::UnixStream;
use std::path::PathBuf;
use std::process::Abort;
use std::test::Fail;
use std::{env, fs, process};
use stream_transport::{MioBinder, MioWire};
use test_support::{holds, same};
use transport::{Got, Wire, WireFault};

/// A wire. What its contracts say stays within.
#[derive(Drop)]
struct TestWire {
    wire: MioWire<Global>,
}

impl Model for TestWire {
    ghost Value = { Unit };

    ghost view = { λ _. tt };
}

/// What a read found.
type Read = Result<Got, WireFault>;

const REFUSED: WireFault = WireFault::Device;

impl TestWire {
    fn accept(&mut self) -> Result<Option<u64>, WireFault> {
        self.wire.accept()
    }

    // A read of at most so many bytes, and whether these are the bytes that it gave.
    fn gives(&mut self, number: u64, most: usize, bytes: &[u8]) -> bool {
        matches!(self.wire.read(number, most), Ok(Got::Bytes)) && self.wire.bytes() == bytes
    }

    // A read of at most four bytes.
    fn read(&mut self, number: u64) -> Read {
        self.wire.read(number, 4)
    }

    fn write(&mut self, number: u64, bytes: &[u8]) -> Result<usize, WireFault> {
        self.wire.write(number, bytes)
    }

    // The system takes so many bytes for a peer that never reads, and no more.
    fn fill(&mut self, number: u64) -> Result<usize, WireFault> {
        let chunk = [7u8; 1024];
        let mut sent = 0usize;
        for _ in 0..1000 {
            let n = self.wire.write(number, &chunk)?;
            if n == 0 {
                break;
            }
            sent = sent.saturating_add(n);
        }
        Ok(sent)
    }

    fn shut(&mut self, number: u64) {
        self.wire.shut(number);
    }

    fn wait(&mut self) -> Result<(), WireFault> {
        self.wire.wait(true)
    }

    fn faults(&self) -> u64 {
        self.wire.faults()
    }
}

// A path of this test's own.
fn path_of(rt: &HostRuntime, name: &str) -> Result<PathBuf, Fail> {
    let name = format!(in rt.alloc(); "host_acceptance-{name}-{}", process::id(rt.process()))?;
    Ok(env::temp_dir(rt)?.join(rt.alloc(), name.as_str())?)
}

// A wire that has found nobody, and a client that waits to be accepted.
fn with_a_client(rt: &HostRuntime, name: &str) -> Result<(TestWire, UnixStream), Fail> {
    let path = path_of(rt, name)?;
    let mut wire = TestWire {
        wire: MioWire::bind(&mut MioBinder::new(rt), rt.alloc(), path.as_path().as_str())?,
    };
    if wire.accept()?.is_some() {
        return Err("nobody waits".into());
    }
    let client = UnixStream::connect(rt, path.as_path())?;
    fs::remove_file(rt, path.as_path())?;
    Ok((wire, client))
}

// A client that says nothing, and then some bytes, and takes nothing.
fn assert_calls(rt: &impl Abort, wire: &mut TestWire, client: &mut UnixStream) -> Result<(), Fail> {
    same!(*rt; wire.wait(), Ok(()));
    same!(*rt; wire.accept(), Ok(Some(0)));
    same!(*rt; wire.accept(), Ok(None));
    same!(*rt; wire.read(0), Ok(Got::Nothing));
    client.write_all(b"012345")?;
    same!(*rt; wire.accept(), Ok(None));
    holds!(*rt; wire.gives(0, 4, b"0123"));
    holds!(*rt; wire.gives(0, 4, b"45"));
    same!(*rt; wire.read(0), Ok(Got::Nothing));
    holds!(*rt; matches!(wire.fill(0), Ok(n) if n > 0));
    same!(*rt; wire.fill(0), Ok(0));
    same!(*rt; wire.faults(), 0);
    Ok(())
}

// Its client is gone; then the connection is shut. The number 7 was never given.
fn assert_refusals(rt: &impl Abort, wire: &mut TestWire) {
    same!(*rt; wire.accept(), Ok(None));
    same!(*rt; wire.write(0, b"x"), Err(REFUSED));
    wire.shut(0);
    wire.shut(0);
    same!(*rt; wire.read(0), Err(REFUSED));
    same!(*rt; wire.write(0, b"x"), Err(REFUSED));
    same!(*rt; wire.read(7), Err(REFUSED));
    same!(*rt; wire.faults(), 4);
}

#[test]
fn calls_that_find_nothing_or_fail(rt: HostRuntime) -> Result<(), Fail> {
    let (mut wire, mut client) = with_a_client(&rt, "calls")?;
    assert_calls(&rt, &mut wire, &mut client)?;
    drop(client);
    assert_refusals(&rt, &mut wire);
    Ok(())
}

// What came with a line is given by the next reads, and a wait returns at once for it. The end comes after it.
fn assert_lines(rt: &impl Abort, wire: &mut TestWire) {
    let rows = [
        (64, b"usi\n".as_slice()),
        (64, b"\r\n"),
        (1, b"\n"),
        (5, b"isrea"),
        (5, b"dy\n"),
    ];
    for (most, bytes) in rows {
        holds!(*rt; wire.gives(0, most, bytes), bytes);
        same!(*rt; wire.wait(), Ok(()));
    }
    holds!(*rt; wire.gives(0, 64, b"qu"));
    same!(*rt; wire.read(0), Ok(Got::Ended));
    same!(*rt; wire.faults(), 0);
}

#[test]
fn a_read_gives_one_line(rt: HostRuntime) -> Result<(), Fail> {
    let (mut wire, mut client) = with_a_client(&rt, "lines")?;
    same!(rt; wire.accept(), Ok(Some(0)));
    client.write_all(b"usi\n\r\n\nisready\nqu")?;
    client.shutdown(Shutdown::Write)?;
    same!(rt; wire.accept(), Ok(None));
    assert_lines(&rt, &mut wire);
    Ok(())
}

// What the client has taken, of so many bytes.
fn taken_by(client: &mut UnixStream, bytes: usize) -> Result<usize, Fail> {
    let mut room = [0u8; 4096];
    let mut taken = 0usize;
    for _ in 0..1000 {
        if taken >= bytes {
            break;
        }
        taken = taken.saturating_add(client.read(&mut room)?);
    }
    Ok(taken)
}

// Who has sent nothing, and who takes nothing, sleeps: no call of it fails, and a look wakes it.
#[test]
fn a_connection_that_sleeps_is_not_failed(rt: HostRuntime) -> Result<(), Fail> {
    let (mut wire, mut client) = with_a_client(&rt, "sleeping")?;
    same!(rt; wire.accept(), Ok(Some(0)));
    let sent = wire.fill(0)?;
    for _ in 0..3 {
        same!(rt; wire.read(0), Ok(Got::Nothing));
        same!(rt; wire.write(0, b"x"), Ok(0));
    }
    same!(rt; wire.faults(), 0);
    client.write_all(b"usi\n")?;
    same!(rt; taken_by(&mut client, sent)?, sent);
    same!(rt; wire.accept(), Ok(None));
    holds!(rt; wire.gives(0, 4, b"usi\n"));
    same!(rt; wire.write(0, b"x"), Ok(1));
    same!(rt; wire.faults(), 0);
    Ok(())
}
