//! Each request of a wire over sockets refused in turn while three clients wait: one of them at most is
//! shut, and the others are answered without another client.

use host_core::Host;
use socket_loop::Loop;
use std::alloc::Global;
use std::hash::{BuildHasherDefault, FoldHasher};
use std::io::{ErrorKind, Read, Write};
use std::marker::Model;
use std::os::unix::net::UnixStream;
use std::path::{Path, PathBuf};
use std::test::Fail;
use std::{env, fs, process};
use stream_transport::{MioBinder, MioWire};
use test_support::{FailingAllocator, holds};
use transport::{Wire, WireFault};

type Memory = FailingAllocator<Global>;

const CLIENTS: usize = 3;

const READY: &[u8] = b"readyok\n";

// More requests than a run makes.
const REQUESTS: u64 = 1000;

/// A host and a loop with all memory, over a wire whose allocations fail.
#[derive(Drop)]
struct Scene<'a> {
    host: Host<BuildHasherDefault<FoldHasher>, Global>,
    wire: MioWire<&'a Memory>,
    turns: Loop<Global>,
}

impl<'a> Model for Scene<'a> {
    ghost use Rattle.socket_loop.specs.Links.{links_of};
    ghost use Rattle.socket_loop.specs.Turns.{Fits};

    ghost Value = { Unit };

    ghost view = { λ _. tt };

    ghost invariant = { λ s. Fits (links_of s.turns.held) (⟦<MioWire<&'static Memory> as Wire>⟧.bound s.wire) s.host };
}

impl<'a> Scene<'a> {
    /// A slot for each client.
    fn new(alloc: Global, wire: MioWire<&'a Memory>) -> Result<Scene<'a>, Fail> {
        Ok(Scene {
            host: Host::new(alloc, CLIENTS, 64, BuildHasherDefault::<FoldHasher>::new())?,
            wire,
            turns: Loop::new(alloc, 1000)?,
        })
    }

    /// Takes a turn. True where it moved.
    fn turn(&mut self) -> bool {
        self.turns.turn(&mut self.host, &mut self.wire).moved
    }

    fn wait(&mut self, idle: bool) -> Result<(), WireFault> {
        self.wire.wait(idle)
    }
}

// A path of this test's own.
fn path_of(rt: &HostRuntime, number: u64) -> Result<PathBuf, Fail> {
    let name = format!(in rt.alloc(); "memory_acceptance-{number}-{}", process::id(rt.process()))?;
    Ok(env::temp_dir(rt)?.join(rt.alloc(), name.as_str())?)
}

/// What became of a client.
#[derive(Clone, Copy, PartialEq, Eq)]
enum Fate {
    Waits,
    Answered,
    Shut,
}

#[derive(Drop)]
struct Client {
    stream: UnixStream,
    fate: Fate,
}

impl Client {
    /// One that sends a line, whose reads wait for nothing.
    fn new(rt: &HostRuntime, path: Path<'_>) -> Result<Client, Fail> {
        let mut stream = UnixStream::connect(rt, path)?;
        stream.write_all(b"isready\n")?;
        stream.set_nonblocking(true)?;
        Ok(Client {
            stream,
            fate: Fate::Waits,
        })
    }

    /// Looks at what it has received by now.
    fn look(&mut self) -> Result<Fate, Fail> {
        if self.fate == Fate::Waits {
            let mut buf = [0u8; 64];
            self.fate = match self.stream.read(&mut buf) {
                Ok(0) => Fate::Shut,
                Ok(n) if buf.split_at(n).0 == READY => Fate::Answered,
                Ok(_) => return Err(Fail::from("another answer")),
                Err(error) if error.kind() == ErrorKind::WouldBlock => Fate::Waits,
                Err(_) => Fate::Shut,
            };
        }
        Ok(self.fate)
    }
}

// Turns and waits until no client waits. Returns how many were shut.
fn serve_all(scene: &mut Scene<'_>, clients: &mut [Client]) -> Result<usize, Fail> {
    for _ in 0..16 {
        let moved = scene.turn();
        let mut shut = 0usize;
        let mut waiting = 0usize;
        for client in clients.iter_mut() {
            match client.look()? {
                Fate::Waits => waiting = waiting.saturating_add(1),
                Fate::Answered => {}
                Fate::Shut => shut = shut.saturating_add(1),
            }
        }
        if waiting == 0 {
            return Ok(shut);
        }
        scene.wait(!moved)?;
    }
    Err(Fail::from("a client is neither answered nor shut"))
}

// Three clients wait, and the n-th request of the wire is refused. Returns whether there was one, and how many
// clients were shut.
fn refused_at(rt: &HostRuntime, n: u64) -> Result<(bool, usize), Fail> {
    let memory = FailingAllocator::new(rt.alloc());
    let path = path_of(rt, n)?;
    let wire = MioWire::bind(&mut MioBinder::new(rt), &memory, path.as_path().as_str())?;
    let mut clients = Vec::new(rt.alloc());
    for _ in 0..CLIENTS {
        let client = Client::new(rt, path.as_path())?;
        clients.push(client).map_err(|_| "memory for a client")?;
    }
    fs::remove_file(rt, path.as_path())?;
    let mut scene = Scene::new(rt.alloc(), wire)?;
    memory.refuse_at(n);
    let shut = serve_all(&mut scene, clients.as_mut_slice())?;
    Ok((memory.refused() > 0, shut))
}

#[test]
fn each_request_of_a_wire_over_sockets_is_refused_in_turn(rt: HostRuntime) -> Result<(), Fail> {
    for n in 1..REQUESTS {
        let (refused, shut) = refused_at(&rt, n)?;
        holds!(rt; shut <= 1, n);
        if !refused {
            holds!(rt; n > 1 && shut == 0);
            println!(rt; "MioWire: {} requests", n.saturating_sub(1))?;
            return Ok(());
        }
    }
    Err(Fail::from("there are always more requests"))
}
