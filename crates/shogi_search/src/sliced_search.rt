//! A search in slices.

ghost use Rattle.std.specs.Prelude.{◌≡◌, ◌≤◌, ◌<◌, ◌<ℤ◌, true, Some, None, IfSome, IfNone, IsSome, ◌↔◌};
ghost use Rattle.std.specs.List.{All};
ghost use Rattle.std.specs.Option.{ForSome};
ghost use Rattle.minimax.specs.Minimax.{negated};
ghost use Rattle.shogi_search.specs.Entered.{IsKnownNode};
ghost use Rattle.shogi_search.specs.Calls.{probe_of};
ghost use Rattle.shogi_search.specs.SearchCalls.{AsksRootFirst, CallsOfSearch, Says, TellsFound, TellsRoot};
ghost use Rattle.shogi_search.specs.Slices.{CallsInSlice, Finds, IsSliceOf};
ghost use Rattle.shogi_search.specs.Stack.{IsConclusiveEntry, OnlyAsks};
ghost use Rattle.shogi_search.specs.Progress.{untouched, untouched_below, HasPath, IsAnsweredBy, IsBeta, IsFresh, IsUnderWay, EndsWhereAnswered, EndsWhereKnown, IsFoundBelow, IsFoundBy};
ghost use Rattle.minimax.specs.declared.bounds.TheConstants.{SEARCH_DEPTH_MAX, INFINITY};

use crate::found::Found;
use crate::memo::Memo;
use crate::stack::{Stack, answer_at_once, hash_move_of, probe};
use minimax::{Entry, INFINITY};
use search_nodes::{CounterMoves, Frame, PriorityMoves, ReplyCache};
use shogi_core::{Move, Position};
use shogi_eval::{Eval, Node};
use std::marker::Model;

/// A resumable search of a position under an evaluation at a depth, for its value below a bound.
/// Each slice may be given another memo.
///
/// A step enters a node, leaves a node, or settles one without entering it: a child by the memo or
/// by mate distance, a child or the root if at most one ply is left. A step takes at most about as
/// long as making and examining all moves of one position. One that leaves a child of the root may
/// also probe the memo once for each ply of the best line.
///
/// At depth 3 and from depth 5 on, once the root has a best move, its children are entered under a
/// narrow window, and again under the whole one if that is not enough.
///
/// A node first visits, if they are legal: the advised moves at the root, the hash move, and the
/// best or cutting move of the node that was last in its frame. From depth 3 on four killers
/// follow, and below the root the counter move, if there is room.
#[derive(Drop)]
pub struct Search {
    stack: Stack,
    started: bool,
    steps: u64,
    found: Option<Found>,
    advised: PriorityMoves,
    counter_moves: CounterMoves,
}

impl Model for Search {
    ghost use Rattle.shogi_search.specs.Progress.{Progress};

    ghost Value = { Progress };

    ghost use Rattle.shogi_search.specs.SlicedSearch.{progress_of, IsSearch};

    ghost view = { progress_of };

    ghost invariant = { IsSearch };
}

/// The result that a conclusive entry of the root gives.
fn found_of(entry: &Entry, root: &Position, e: Eval, depth: u8, beta: i32, steps: u64) -> Found
    requires shallow { depth ≤ SEARCH_DEPTH_MAX }
    requires open { negated INFINITY <ℤ beta }
    requires known { IsConclusiveEntry root.now e depth (negated INFINITY) beta entry.now }
    ensures below { IsFoundBelow root.now e depth beta result }
    ensures steps { result.steps ≡ steps }
    ensures says { Says entry.now result }
{
    root.reveal_invariant();
    match entry {
        Entry::Exact(value, best) => Found {
            value: *value,
            best: *best,
            steps,
        },
        Entry::AtLeast(value) => Found {
            value: *value,
            best: None,
            steps,
        },
        Entry::AtMost(_) => unreachable!(),
    }
}

impl Search {
    /// A search that has made no step, for depths 0 to 16.
    pub fn start(p: &Position, e: Eval, d: u8) -> Self
        requires { d ≤ SEARCH_DEPTH_MAX }
        ensures { result ≡ untouched p.now e d }
    {
        Search::start_below(p, e, d, INFINITY)
    }

    /// Like `start`, but below `beta`, from -30,999 to 31,000. The search finds the value and the
    /// best move only if the value is less than `beta`, otherwise a lower bound that is at least
    /// `beta`.
    pub fn start_below(p: &Position, e: Eval, d: u8, beta: i32) -> Self
        requires shallow { d ≤ SEARCH_DEPTH_MAX }
        requires beta { IsBeta beta }
        ensures { result ≡ untouched_below p.now e d beta }
    {
        Search {
            stack: Stack {
                root: *p,
                eval: e,
                depth: d,
                beta,
                bound: beta,
                frames: [Frame::default(); 16],
                height: 0,
                reply_cache: ReplyCache::unknown(p),
            },
            started: false,
            steps: 0,
            found: None,
            advised: PriorityMoves::none(),
            counter_moves: CounterMoves::none(),
        }
    }

    /// Begins anew like `start`, in place.
    pub fn restart(&mut self, p: &Position, e: Eval, d: u8)
        requires { d ≤ SEARCH_DEPTH_MAX }
        ensures { self.new ≡ untouched p.now e d }
    {
        self.restart_below(p, e, d, INFINITY);
    }

    /// Begins anew like `start_below`, in place. The refutations of the search before stay and are
    /// tried first, so the steps may differ from those of a new search.
    pub fn restart_below(&mut self, p: &Position, e: Eval, d: u8, beta: i32)
        requires shallow { d ≤ SEARCH_DEPTH_MAX }
        requires beta { IsBeta beta }
        ensures { self.new ≡ untouched_below p.now e d beta }
    {
        self.stack.root = *p;
        self.stack.eval = e;
        self.stack.depth = d;
        self.stack.beta = beta;
        self.started = false;
        self.steps = 0;
        self.found = None;
        self.advised = PriorityMoves::none();
    }

    /// Has the root visit these moves first, in this order, if they are legal: for example the best
    /// moves of shallower searches. Only the steps may change, not the result. Restarting clears
    /// the advice.
    pub fn advise(&mut self, moves: [Option<Move>; 2])
        ensures { self.new ≡ self.old }
    {
        let mut advised = PriorityMoves::none();
        'moves: for m in moves {
            advised.add_some(m);
        }
        self.advised = advised;
    }

    /// States the path of entered nodes, each the child of the one before, while the search is
    /// under way, and what each node is known to be worth so far.
    pub fn reveal_invariant(&self)
        ensures path { self.now.started ≡ true → self.now.found ≡ None → HasPath self.now }
        ensures known { All IsKnownNode self.now.entered }
    {
        let _ = &self.started;
    }

    /// The steps so far; the count saturates.
    pub fn steps(&self) -> u64
        ensures { result ≡ self.now.steps }
    {
        self.steps
    }

    /// Enters the root in one step.
    fn enter_root<M: Memo>(&mut self, memo: &mut M)
        requires fresh { IsFresh self.old }
        requires deep { 2 ≤ self.old.depth }
        ensures slice { IsSliceOf 1 self.old None self.new }
        ensures calls { CallsInSlice M.Memo memo.old memo.new self.old None self.new }
        ensures begun { self.new.started ≡ true }
    {
        self.stack.height = 0;
        let (root, e, depth) = (&self.stack.root, self.stack.eval, self.stack.depth);
        let hash_move = hash_move_of(root, e, depth, memo);
        let node = Node::of(*root, e);
        let beta = self.stack.beta;
        self.stack.bound = beta;
        let priority_moves = self.stack.frames[0].priority_moves(self.advised, hash_move, depth);
        self.stack.frames[0].enter(&node, depth, -INFINITY, beta, priority_moves);
        self.stack.reply_cache = ReplyCache::unknown(node.as_position());
        self.started = true;
        self.steps = self.steps.saturating_add(1);
    }

    /// Answers a root with at most one ply left, in one step.
    fn answer_root<M: Memo>(&mut self, memo: &mut M) -> Option<Found>
        requires fresh { IsFresh self.old }
        requires last { self.old.depth < 2 }
        ensures finds { Finds self.old result self.new }
        ensures slice { IsSliceOf 1 self.old result self.new }
        ensures calls { CallsInSlice M.Memo memo.old memo.new self.old result self.new }
        ensures some { IsSome result }
    {
        let (root, e, depth) = (&self.stack.root, self.stack.eval, self.stack.depth);
        let beta = self.stack.beta;
        let entry = answer_at_once(&Node::of(*root, e), depth, -INFINITY, beta);
        memo.note(root, e, depth, entry);
        self.steps = self.steps.saturating_add(1);
        self.found = Some(found_of(&entry, root, e, depth, beta, self.steps));
        self.found
    }

    /// Makes up to `budget` steps below the root.
    fn resume<M: Memo>(&mut self, memo: &mut M, budget: u64) -> Option<Found>
        requires { IsUnderWay self.old }
        ensures finds { Finds self.old result self.new }
        ensures slice { IsSliceOf budget self.old result self.new }
        ensures calls { CallsInSlice M.Memo memo.old memo.new self.old result self.new }
        ensures begun { self.new.started ≡ true }
    {
        let entry = self
            .stack
            .run(&mut self.counter_moves, memo, budget, &mut self.steps)?;
        let (root, e, depth) = (&self.stack.root, self.stack.eval, self.stack.depth);
        let beta = self.stack.beta;
        self.found = Some(found_of(&entry, root, e, depth, beta, self.steps));
        self.found
    }

    /// The result, if the memo's entry for the root is conclusive.
    fn probe_root<M: Memo>(&self, memo: &mut M) -> Option<Found>
        ensures below { IfSome result (IsFoundBy self.now) }
        ensures steps { IfSome result (λ f. f.steps ≡ self.now.steps) }
        ensures enough { IsSome result ↔ IsAnsweredBy (M.answers memo.old) self.now }
        ensures asks { OnlyAsks M.Memo memo.old memo.new 1 }
        ensures first { M.called memo.old
            (probe_of (M.answers memo.old) self.now.root self.now.eval self.now.depth) memo.new }
        ensures told { IfSome result (TellsRoot M.called memo.old memo.new self.now) }
    {
        let (root, e, depth) = (&self.stack.root, self.stack.eval, self.stack.depth);
        let beta = self.stack.beta;
        let entry = probe(root, e, depth, -INFINITY, beta, memo)?;
        Some(found_of(&entry, root, e, depth, beta, self.steps))
    }

    /// Makes up to `budget` steps, and returns the result once the search has ended. From then on
    /// it returns that again, without a step or a call of the memo.
    pub fn advance<M: Memo>(&mut self, memo: &mut M, budget: u64) -> Option<Found>
        ensures finds { Finds self.old result self.new }
        // Until the end the whole budget is used; at the end nothing is left.
        ensures slice { IsSliceOf budget self.old result self.new }
        ensures calls { CallsOfSearch M.called memo.old memo.new self.old self.new }
        // The first call probes the root, and is the only one if the entry is conclusive.
        ensures asked { AsksRootFirst M.called (M.answers memo.old) memo.old memo.new self.old }
        // The last call tells the result at the root.
        ensures told { TellsFound M.called memo.old memo.new self.old result }
        ensures capacity { M.capacity memo.new ≡ M.capacity memo.old }

        ensures again { ForSome self.old.found (λ f. (result ≡ Some f) × (self.new ≡ self.old)) }
        ensures idle { IsSome self.old.found → memo.new ≡ memo.old }
        ensures begun { 0 < budget → IfNone result (self.new.started ≡ true) }
        // Before the first step a conclusive entry of the root ends the search.
        ensures enough { EndsWhereAnswered (M.answers memo.old) result self.old self.new }
        ensures known { EndsWhereKnown (M.answers memo.old) result self.old self.new }
    {
        if self.found.is_some() {
            return self.found;
        }
        if self.started {
            return self.resume(memo, budget);
        }
        if let Some(found) = self.probe_root(memo) {
            self.found = Some(found);
            return self.found;
        }
        if budget == 0 {
            return None;
        }
        if self.stack.depth < 2 {
            return self.answer_root(memo);
        }
        self.enter_root(memo);
        self.resume(memo, budget - 1)
    }
}
