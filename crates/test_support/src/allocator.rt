//! An allocator over another one, which refuses requests by their number and counts what is held.

use crate::requests::Requests;
use std::alloc::{AllocError, Allocator};

/// Hands each request on to the inner allocator, but for those that it has to refuse. A `&` to it is an
/// allocator too. A block that grows is a new request.
pub struct FailingAllocator<B: Allocator> {
    inner: B,
    requests: Requests,
}

impl<B: Allocator> FailingAllocator<B> {
    /// Refuses nothing as yet.
    pub fn new(inner: B) -> FailingAllocator<B> {
        FailingAllocator {
            inner,
            requests: Requests::new(),
        }
    }

    /// Refuses the n-th request from now on, counted from 1, and no other.
    pub fn refuse_at(&self, n: u64) {
        let number = self.requests.asked().saturating_add(n);
        self.requests.refuse(number, number);
    }

    /// Refuses the n-th request from now on, counted from 1, and each one after it.
    pub fn refuse_from(&self, n: u64) {
        let number = self.requests.asked().saturating_add(n);
        self.requests.refuse(number, u64::MAX);
    }

    /// Refuses nothing from now on.
    pub fn refuse_nothing(&self) {
        self.requests.refuse(0, 0);
    }

    /// How many requests there were.
    pub fn asked(&self) -> u64 {
        self.requests.asked()
    }

    /// How many of them were refused.
    pub fn refused(&self) -> u64 {
        self.requests.refused()
    }

    /// How many bytes were handed out and not given back. A request that the inner allocator refuses
    /// counts as handed out.
    pub fn held(&self) -> usize {
        self.requests.held()
    }
}

impl<B: Allocator> Drop for FailingAllocator<B> {
    fn drop(self) {
        let Self {
            inner: _,
            requests: _,
        } = self;
    }
}

unsafe impl<B: Allocator> Allocator for FailingAllocator<B> {
    ghost dealloc_token = { λ heap ty ptr. B.dealloc_token heap.inner ty ptr };

    fn allocate(&self, size: usize, align: usize) -> Result<*mut u8, AllocError> {
        if self.requests.refuses(size) {
            return Err(AllocError);
        }
        self.inner.allocate(size, align)
    }

    unsafe fn deallocate(&self, ptr: *mut u8, size: usize, align: usize) {
        self.requests.give_back(size);
        self.inner.deallocate(ptr, size, align);
    }
}
