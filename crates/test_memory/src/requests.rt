//! Which requests the fake memory refuses, and what it counts.

use crate::refusals::Memory;
use std::process::Abort;
use std::test::Fail;
use test_support::{FailingAllocator, holds, same};

type Bytes<'a> = Vec<u8, &'a Memory>;

// Whether a block of one byte is refused.
fn is_refused(memory: &Memory) -> bool {
    Bytes::with_capacity(memory, 1).is_err()
}

#[test]
fn one_request_is_refused(rt: HostRuntime) -> Result<(), Fail> {
    let memory = FailingAllocator::new(rt.alloc());
    holds!(rt; !is_refused(&memory));
    memory.refuse_at(2);
    for refused in [false, true, false, false] {
        same!(rt; is_refused(&memory), refused);
    }
    same!(rt; (memory.asked(), memory.refused()), (5, 1));
    Ok(())
}

#[test]
fn requests_are_refused_until_memory_comes_back(rt: HostRuntime) -> Result<(), Fail> {
    let memory = FailingAllocator::new(rt.alloc());
    memory.refuse_from(2);
    for refused in [false, true, true] {
        same!(rt; is_refused(&memory), refused);
    }
    memory.refuse_nothing();
    holds!(rt; !is_refused(&memory));
    same!(rt; (memory.asked(), memory.refused()), (4, 2));
    Ok(())
}

// Whether the bytes are added. What a contract says of it stays within.
fn grows(bytes: &mut Bytes<'_>, more: &[u8]) -> bool {
    bytes.extend_from_slice(more).is_ok()
}

// A vector of room for two bytes, to which nine more are added once that is refused.
fn assert_grows(rt: &impl Abort, memory: &Memory, bytes: &mut Bytes<'_>) {
    holds!(*rt; grows(bytes, b"ab"));
    memory.refuse_at(1);
    holds!(*rt; !grows(bytes, b"cdefghijk"));
    holds!(*rt; bytes.as_slice() == b"ab".as_slice());
    holds!(*rt; grows(bytes, b"cdefghijk"));
    holds!(*rt; bytes.as_slice() == b"abcdefghijk".as_slice());
    same!(*rt; memory.refused(), 1);
}

// A vector whose allocation fails keeps what it holds, and grows once memory is there.
#[test]
fn a_vector_grows_after_a_refusal(rt: HostRuntime) -> Result<(), Fail> {
    let memory = FailingAllocator::new(rt.alloc());
    assert_grows(&rt, &memory, &mut Bytes::with_capacity(&memory, 2)?);
    Ok(())
}

// The room is given back but for ten bytes, unless allocation fails.
fn shrink(bytes: &mut Bytes<'_>) {
    bytes.shrink_to(10);
}

// Of 1,000 bytes beside 24 others 10 are kept, which is refused at first, and then 20 are added.
fn assert_held(rt: &impl Abort, memory: &Memory, bytes: &mut Bytes<'_>) {
    same!(*rt; memory.held(), 1024);
    for (refused, held) in [(1, 1024), (0, 34)] {
        memory.refuse_at(refused);
        shrink(bytes);
        same!(*rt; memory.held(), held);
    }
    holds!(*rt; grows(bytes, b"abcdefghijklmnopqrst"));
    holds!(*rt; memory.held() >= 44);
}

// The blocks are given back when the vectors are dropped.
fn assert_given_back(rt: &impl Abort, memory: &Memory) -> Result<(), Fail> {
    let mut bytes = Bytes::with_capacity(memory, 1000)?;
    let more = Bytes::with_capacity(memory, 24)?;
    assert_held(rt, memory, &mut bytes);
    drop(bytes);
    same!(*rt; memory.held(), 24);
    drop(more);
    Ok(())
}

// What is held is as large as the blocks that are out. A request that is refused changes nothing.
#[test]
fn held_bytes(rt: HostRuntime) -> Result<(), Fail> {
    let memory = FailingAllocator::new(rt.alloc());
    same!(rt; memory.held(), 0);
    assert_given_back(&rt, &memory)?;
    same!(rt; memory.held(), 0);
    Ok(())
}
