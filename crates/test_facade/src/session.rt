//! A session.

use shogi_eval::Eval;
use shogi_search::Memo;
use std::alloc::{AllocError, Allocator};
use std::marker::Model;
use usi_session::{CHUNK_MAX, Session};
use usi_texts::Setup;

/// A session. What its contracts say stays within.
#[derive(Drop)]
pub struct OpaqueSession<A: Allocator + Copy> {
    session: Session<A>,
}

impl<A: Allocator + Copy> Model for OpaqueSession<A> {
    ghost Value = { Unit };

    ghost view = { λ _. tt };
}

impl<A: Allocator + Copy> OpaqueSession<A> {
    pub fn new(alloc: A) -> OpaqueSession<A> {
        OpaqueSession {
            session: Session::new(alloc),
        }
    }

    pub fn with_setup(alloc: A, setup: Setup) -> OpaqueSession<A> {
        OpaqueSession {
            session: Session::with_setup(alloc, setup),
        }
    }

    /// Under a setup of these, where they are one.
    pub fn under(
        alloc: A,
        depth: u8,
        max_depth: u8,
        multi_pv: u8,
        eval: Eval,
    ) -> Result<OpaqueSession<A>, &'static str> {
        match Setup::of(depth, max_depth, multi_pv, eval) {
            Ok(setup) => Ok(OpaqueSession::with_setup(alloc, setup)),
            Err(_) => Err("the numbers of a setup"),
        }
    }

    /// Where the chunk may not be fed, or memory is refused, nothing changes.
    pub fn feed(&mut self, chunk: &[u8]) -> Result<(), &'static str> {
        if !self.session.wants_input() || chunk.len() > CHUNK_MAX {
            return Err("a chunk of 4,096 bytes is fed where input is wanted");
        }
        match self.session.feed(chunk) {
            Ok(()) => Ok(()),
            Err(_) => Err("memory for a chunk"),
        }
    }

    /// The steps that were made.
    pub fn work<M: Memo>(&mut self, memo: &mut M, budget: u64) -> Result<u64, AllocError> {
        match self.session.work(memo, budget) {
            Ok(steps) => Ok(steps),
            Err(_) => Err(AllocError),
        }
    }

    pub fn pending(&self) -> bool {
        self.session.pending()
    }

    pub fn wants_input(&self) -> bool {
        self.session.wants_input()
    }

    pub fn is_over(&self) -> bool {
        self.session.is_over()
    }

    pub fn output(&self) -> &[u8] {
        self.session.output()
    }

    /// Drops the first bytes that are queued, up to so many.
    pub fn take(&mut self, most: usize) {
        let n = self.session.output().len().min(most);
        self.session.take(n);
    }
}
