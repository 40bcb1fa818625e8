//! The connections of a wire, each in the place of its number.

ghost use Rattle.std.specs.Prelude.{◌≡◌, ◌<◌, ◌≤◌, ◌%◌, ◌^◌, ◌+◌, ◌-◌, None, Some, IfErr, IfOk, IfSome, is_some, true, length, slice_index_or, slice_set, vec_len};
ghost use Rattle.transport.specs.declared.wire.WireFault.TheVariants.{OutOfMemory};
ghost use Rattle.stream_transport.specs.Asking.{IsAwake, IsQuiet};
ghost use Rattle.stream_transport.specs.Held.{AreAlike, AreTakenBelow, HoldsAll, HoldsOthers, IsFree, held, lent_under};
ghost use Rattle.stream_transport.specs.declared.connection.TheConstants.{PLACES};

use crate::connection::{BufferedStream, PLACES};
use crate::kept::Spare;
use crate::listener::ByteStream;
use std::alloc::Allocator;
use transport::WireFault;

/// The place of a number: its remainder.
fn place_of(number: u64) -> usize
    ensures { result ≡ number % PLACES }
{
    (number % PLACES) as usize
}

/// Whether a connection is held under this number.
fn is_held<S: ByteStream, A: Allocator + Copy>(
    places: &[Option<BufferedStream<S, A>>],
    number: u64,
) -> bool
    ensures held { result ≡ is_some (held places.now number) }
    ensures room { result ≡ true → number % PLACES < length places.now }
{
    let place = place_of(number);
    if place >= places.len() {
        return false;
    }
    match &places[place] {
        Some(connection) => connection.number == number,
        None => false,
    }
}

/// Whether the connection of this number keeps no byte, and its stream last said that it has none.
pub fn is_quiet<S: ByteStream, A: Allocator + Copy>(
    places: &[Option<BufferedStream<S, A>>],
    number: u64,
) -> bool
    ensures { result ≡ true → IsQuiet (held places.now number) }
{
    match places.get(place_of(number)) {
        Some(Some(connection)) => (connection.number == number)
            & !connection.readable
            & connection.buffer.is_empty(),
        _ => false,
    }
}

/// The bytes that the connection of this number gave last, given the spare room.
pub fn lent_under<'a, S: ByteStream, A: Allocator + Copy>(
    places: &'a [Option<BufferedStream<S, A>>],
    spare: &'a Spare<A>,
    number: u64,
) -> &'a [u8]
    ensures { result.now ≡ lent_under spare.now (held places.now number) }
{
    let lent = spare.lent();
    if !is_held(places, number) {
        return lent;
    }
    let place = place_of(number);
    match &places[place] {
        Some(connection) => connection.buffer.lent(spare),
        None => lent,
    }
}

/// Takes the connection of this number out of its place, if it is held.
pub fn remove<S: ByteStream, A: Allocator + Copy>(
    places: &mut Vec<Option<BufferedStream<S, A>>, A>,
    number: u64,
) -> Option<BufferedStream<S, A>>
    ensures out { result ≡ held places.old.items number }
    ensures number { IfSome result (λ connection. connection.number ≡ number) }
    ensures others { HoldsOthers places.old.items places.new.items number }
    ensures if_none { held places.new.items number ≡ None }
    ensures room { IfSome result (λ connection. number % PLACES < vec_len places.new) }
    ensures free { IfSome result (λ connection. IsFree places.new.items number) }
{
    if !is_held(places.as_slice(), number) {
        return None;
    }
    places[place_of(number)].take()
}

/// Puts a connection into its place, which must be free.
pub fn insert<S: ByteStream, A: Allocator + Copy>(
    places: &mut Vec<Option<BufferedStream<S, A>>, A>,
    connection: BufferedStream<S, A>,
)
    requires room { connection.number % PLACES < vec_len places.old }
    requires free { IsFree places.old.items connection.number }
    ensures held { held places.new.items connection.number ≡ Some connection }
    ensures place { places.new.items
        ≡ slice_set places.old.items (connection.number % PLACES) (Some connection) }
    ensures others { HoldsOthers places.old.items places.new.items connection.number }
    ensures if_none { held places.old.items connection.number ≡ None }
{
    let place = place_of(connection.number);
    places[place] = Some(connection);
}

/// Lets the next read and the next write of this number ask the stream.
pub fn mark_ready<S: ByteStream, A: Allocator + Copy>(
    places: &mut Vec<Option<BufferedStream<S, A>>, A>,
    number: u64,
)
    ensures alike { AreAlike places.old.items places.new.items }
    ensures awake { IsAwake (held places.new.items number) }
    ensures others { HoldsOthers places.old.items places.new.items number }
{
    if let Some(mut connection) = remove(places, number) {
        connection.readable = true;
        connection.writable = true;
        insert(places, connection);
    }
}

/// The first free place, or a new one at the end if all are taken. Fails only if out of memory.
pub fn free_place<S: ByteStream, A: Allocator + Copy>(
    places: &mut Vec<Option<BufferedStream<S, A>>, A>,
) -> Result<usize, WireFault>
    ensures room { IfOk result (λ place. place < vec_len places.new) }
    ensures free { IfOk result (λ place. slice_index_or places.new.items place None ≡ None) }
    ensures least { IfOk result (λ place. AreTakenBelow places.new.items place) }
    ensures full { IfErr result (λ fault. AreTakenBelow places.new.items (vec_len places.new)) }
    ensures same { HoldsAll places.old.items places.new.items }
    ensures memory { IfErr result (λ fault. fault ≡ OutOfMemory) }
{
    for place in 0..places.len() {
        if places[place].is_none() {
            return Ok(place);
        }
    }
    places.push(None)?;
    Ok(places.len() - 1)
}

/// The least number with this place, from `next` on.
pub fn number_at(next: u64, place: u64) -> u64
    requires left { next ≤ 2 ^ 64 - 1 - PLACES }
    requires place { place < PLACES }
    ensures least { next ≤ result }
    ensures most { result < next + PLACES }
    ensures place { result % PLACES ≡ place }
{
    let ahead = (place + PLACES - next % PLACES) % PLACES;
    next + ahead
}
