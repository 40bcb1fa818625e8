//! Rows as the sessions of one host: all at once in rounds, and in random order, as clients that come and go.

use crate::found::Found;
use crate::row::{Place, Row};
use session_slots::SessionId;
use std::alloc::{AllocError, Global};
use test_facade::OpaqueHost;
use test_support::random::Random;

/// The most rounds of one run.
const ROUNDS: u64 = 1_000_000;

/// The events of one run in random order.
const EVENTS: u64 = 4000;

type Server = OpaqueHost<Global>;

fn server_of((alloc, setup): Place, slots: usize, entries: usize) -> Result<Server, AllocError> {
    OpaqueHost::with_setup(alloc, setup, slots, entries).map_err(|_| AllocError)
}

/// Works one slice; returns whether it made at most its budget, and all of it where something is left.
fn works(server: &mut Server, id: SessionId, budget: u64) -> bool {
    match server.work(id, budget) {
        Ok(steps) => steps <= budget && (steps == budget || !server.pending(id)),
        Err(_) => false,
    }
}

/// One slice for each session with something pending. Gives how many had one.
fn round(server: &mut Server, budget: u64) -> u64 {
    let round = server.round(budget);
    round.worked.saturating_add(round.refused) as u64
}

/// Takes so many of the queued bytes, and all of them where there are fewer. Where memory runs out
/// other bytes are taken.
fn take(server: &mut Server, id: SessionId, most: usize, taken: &mut Vec<u8>) {
    if let Ok(bytes) = server.take(id, most) {
        if taken.extend_from_slice(bytes.as_slice()).is_err() {
            taken.clear();
        }
    }
}

/// Feeds the row to a session that is opened for it.
fn fed(server: &mut Server, row: &Row, how: &str, found: &mut Found) -> Option<SessionId> {
    let id = server.open().ok();
    let is_fed = match id {
        Some(id) => server.feed(id, row.sent.as_bytes()).is_ok(),
        None => false,
    };
    found.holds(row, how, "no session takes the bytes\n", is_fed);
    id
}

/// Takes all that was said to the row.
fn take_all(
    alloc: Global,
    server: &mut Server,
    row: &Row,
    id: SessionId,
    how: &str,
    found: &mut Found,
) {
    let mut taken = Vec::new(alloc);
    take(server, id, usize::MAX, &mut taken);
    found.said(row, how, taken.as_slice());
}

/// All rows at once, each in a session of its own, in rounds of this budget over so many entries.
fn run_rounds(
    at: Place,
    rows: &[Row],
    (entries, budget): (usize, u64),
    found: &mut Found,
) -> Result<(), AllocError> {
    let mut server = server_of(at, rows.len(), entries)?;
    let (alloc, _) = at;
    let mut ids = Vec::new(alloc);
    for row in rows {
        ids.push(fed(&mut server, row, "in a host", found))?;
    }
    for _ in 0..ROUNDS {
        if round(&mut server, budget) == 0 {
            break;
        }
    }
    for (row, id) in rows.iter().zip(ids.as_slice()) {
        if let Some(id) = id {
            take_all(alloc, &mut server, row, *id, "in a host", found);
        }
    }
    Ok(())
}

/// The rows one after another in one slot: a new session is at its start.
fn run_slot(at: Place, rows: &[Row], found: &mut Found) -> Result<(), AllocError> {
    let mut server = server_of(at, 1, 4096)?;
    let (alloc, _) = at;
    for row in rows {
        if let Some(id) = fed(&mut server, row, "in one slot", found) {
            let worked = works(&mut server, id, u64::MAX);
            found.holds(row, "in one slot", "it is refused\n", worked);
            take_all(alloc, &mut server, row, id, "in one slot", found);
            found.holds(
                row,
                "in one slot",
                "it stays open\n",
                server.close(id).is_ok(),
            );
        }
    }
    Ok(())
}

/// A client: the row that it sends, how much of it was stored, and what was taken for it.
#[derive(Drop)]
struct Client<'a> {
    id: SessionId,
    row: &'a Row,
    stored: usize,
    taken: Vec<u8>,
}

/// How clients in random order are run.
const IN_RANDOM_ORDER: &str = "in random order";

impl Client<'_> {
    /// Stores the next bytes, so many at most.
    fn store(&mut self, server: &mut Server, most: usize) {
        let sent = self.row.sent.as_bytes();
        let rest = sent.get(self.stored..).unwrap_or(b"");
        let chunk = rest.get(..most).unwrap_or(rest);
        if server.feed(self.id, chunk).is_ok() {
            self.stored = self.stored.saturating_add(chunk.len());
        }
    }

    /// Whether nothing more is said: all was stored, or the session is over, and nothing is pending.
    fn is_done(&self, server: &Server) -> bool {
        let ended = self.stored >= self.row.sent.len() || server.is_over(self.id);
        ended && !server.pending(self.id)
    }
}

/// Stores some bytes, works a little, takes some bytes, or has a round. What was taken is a prefix of the
/// answer.
fn act(server: &mut Server, client: &mut Client<'_>, random: &mut Random, found: &mut Found) {
    match random.below(8) {
        0..=2 => client.store(server, random.below(12) as usize),
        3..=5 => {
            let worked = works(server, client.id, random.below(400));
            found.holds(
                client.row,
                IN_RANDOM_ORDER,
                "a slice made other steps\n",
                worked,
            );
        }
        6 => take(
            server,
            client.id,
            random.below(40) as usize,
            &mut client.taken,
        ),
        _ => {
            let few = round(server, random.below(100)) <= 8;
            found.holds(
                client.row,
                IN_RANDOM_ORDER,
                "a round was of too many\n",
                few,
            );
        }
    }
    let is_prefix = client
        .row
        .answer
        .as_bytes()
        .starts_with(client.taken.as_slice());
    found.holds(
        client.row,
        IN_RANDOM_ORDER,
        "no prefix of the answer\n",
        is_prefix,
    );
}

/// Whether the client has its whole answer. Then the rest is taken, and what was taken is the answer.
fn is_served(server: &mut Server, client: &mut Client<'_>, found: &mut Found) -> bool {
    let done = client.is_done(server);
    if done {
        take(server, client.id, usize::MAX, &mut client.taken);
        found.said(client.row, IN_RANDOM_ORDER, client.taken.as_slice());
    }
    done
}

/// Whether the client leaves: it is served, or it leaves in the middle of its answer.
fn leaves(
    server: &mut Server,
    client: &mut Client<'_>,
    random: &mut Random,
    served: &mut u64,
    found: &mut Found,
) -> bool {
    act(server, client, random, found);
    let done = is_served(server, client, found);
    *served = served.saturating_add(u64::from(done));
    if !done && random.below(100) != 0 {
        return false;
    }
    let closed = server.close(client.id).is_ok();
    found.holds(client.row, IN_RANDOM_ORDER, "it stays open\n", closed);
    true
}

/// A client with a row by chance, in a session that is opened for it.
fn next_client<'a>(
    alloc: Global,
    server: &mut Server,
    rows: &'a [Row],
    random: &mut Random,
) -> Option<Client<'a>> {
    if rows.is_empty() {
        return None;
    }
    let place = random.below(rows.len() as u64) as usize;
    Some(Client {
        id: server.open().ok()?,
        row: rows.get(place)?,
        stored: 0,
        taken: Vec::new(alloc),
    })
}

/// So many events for so many clients over so many entries, as the seed draws them. Some clients leave in
/// the middle of their answer, of which they have a prefix. Gives how many were served.
fn served_at_random(
    at: Place,
    rows: &[Row],
    (seed, clients, entries): (u64, usize, usize),
    found: &mut Found,
) -> Result<u64, AllocError> {
    let mut random = Random::new(seed);
    let mut server = server_of(at, clients, entries)?;
    let (alloc, _) = at;
    let (mut present, mut served) = (Vec::new(alloc), 0u64);
    for _ in 0..EVENTS {
        if present.len() < clients {
            if let Some(client) = next_client(alloc, &mut server, rows, &mut random) {
                present.push(client)?;
            }
        }
        let place = random.below(1000) as usize % present.len().max(1);
        if let Some(client) = present.get_mut(place) {
            if leaves(&mut server, client, &mut random, &mut served, found) {
                drop(present.swap_remove(place));
            }
        }
    }
    Ok(served)
}

fn run_random(
    at: Place,
    rows: &[Row],
    way: (u64, usize, usize),
    found: &mut Found,
) -> Result<(), AllocError> {
    let served = served_at_random(at, rows, way, found)?;
    if let Some(row) = rows.first() {
        found.holds(row, IN_RANDOM_ORDER, "few were served\n", served >= 20);
    }
    Ok(())
}

pub fn run(at: Place, rows: &[Row], found: &mut Found) -> Result<(), AllocError> {
    for way in [(1, 1), (4096, 1), (4096, 97), (64, 1000)] {
        run_rounds(at, rows, way, found)?;
    }
    run_slot(at, rows, found)?;
    for way in [
        (1u64, 2usize, 1usize),
        (2, 3, 4096),
        (3, 4, 2),
        (4, 5, 64),
        (5, 8, 100_000),
        (6, 8, 1),
    ] {
        run_random(at, rows, way, found)?;
    }
    Ok(())
}
