//! The stack of a search in slices.

ghost use Rattle.std.specs.Prelude.{◌≡◌, ◌≤◌, ◌<ℤ◌, ◌<◌, ◌+◌, ◌*◌, ◌-◌, true, false, None, Some, IfSome, IfNone, OnSome, IsSome, IsTrue, ◌↔◌};
ghost use Rattle.minimax.specs.Entries.{IsConclusive, IsEnough, move_in};
ghost use Rattle.search_nodes.specs.Visits.{IsAsked};
ghost use Rattle.search_nodes.specs.Frames.{IsLost, IsTrueOf, IsToBeLeft};
ghost use Rattle.search_nodes.specs.Changes.{KeepsAsked};
ghost use Rattle.shogi_search.specs.Stack.{AwaitsChild, AwaitsMove, CallsOnStack, CountsSteps, EntersChild, IsConclusiveEntry, IsEntryOf, IsNarrow, IsParentOf, IsReady, IsRootEntry, IsRunOf, IsStack, IsStackWith, IsStep, IsTrueAnywhere, IsWholeWith, KeepsGoal, LeavesStepsFor, LeavesTop, NotesRoot, OnTop, OnlyAsks, UsesSteps, steps_left};
ghost use Rattle.shogi_search.specs.Calls.{probe_of, TellsOnce};
ghost use Rattle.minimax.specs.declared.bounds.TheConstants.{SEARCH_DEPTH_MAX};

use crate::memo::Memo;
use last_ply::last_ply;
use minimax::{Entry, MATE};
use search_nodes::{CounterMoves, Frame, NodeState, PriorityMoves, ReplyCache, leaf};
use shogi_core::{Move, Position};
use shogi_eval::{Eval, Node};
use shogi_moves::is_legal;

/// The least depth of a root whose best line is kept in use: at lesser ones that costs more than it
/// saves.
const DEEP_ROOT_MIN: u8 = 5;

/// The root of a search, its evaluation, its depth and the end of its window, and the nodes that
/// are entered and not yet left, from the root on: the one on top stands at the height, and those
/// below it wait for a child. No node with one ply left or none is entered. While a child of the
/// root is entered, the root's window may end earlier, at the bound. What was found of replies is
/// that of the node on top, if this has two plies left: no other one that is entered has.
#[derive(Clone, Copy)]
pub struct Stack {
    pub root: Position,
    pub eval: Eval,
    pub depth: u8,
    pub beta: i32,
    pub bound: i32,
    pub frames: [Frame; 16],
    pub height: usize,
    pub reply_cache: ReplyCache,
}

/// Whether an entry says enough for a window.
fn is_conclusive(entry: &Entry, alpha: i32, beta: i32) -> bool
    ensures { IsTrue result ↔ IsConclusive alpha beta entry.now }
{
    match entry {
        Entry::Exact(_, _) => true,
        Entry::AtLeast(v) => *v >= beta,
        Entry::AtMost(v) => *v <= alpha,
    }
}

/// The memo's answer for a position, if it is enough for a window.
pub fn probe<M: Memo>(
    p: &Position,
    e: Eval,
    depth: u8,
    alpha: i32,
    beta: i32,
    memo: &mut M,
) -> Option<Entry>
    ensures known { IfSome result (IsConclusiveEntry p.now e depth alpha beta) }
    ensures enough { IsSome result ↔ IsEnough alpha beta (M.answers memo.old p.now e depth) }
    ensures asked { M.called memo.old (probe_of (M.answers memo.old) p.now e depth) memo.new }
    ensures answer { OnSome result (result ≡ M.answers memo.old p.now e depth) }
    ensures capacity { M.capacity memo.new ≡ M.capacity memo.old }
{
    let entry = memo.probe(p, e, depth)?;
    if is_conclusive(&entry, alpha, beta) {
        return Some(entry);
    }
    None
}

/// What is known at once of a node with one ply left or none: enough for the window.
pub fn answer_at_once(node: &Node, depth: u8, alpha: i32, beta: i32) -> Entry
    requires last { depth < 2 }
    requires open { alpha <ℤ beta }
    ensures { IsConclusiveEntry node.now.position node.now.eval depth alpha beta result }
{
    if depth == 0 {
        return Entry::Exact(leaf(node), None);
    }
    last_ply(node, alpha, beta)
}

/// Whether a root's moves after the first best one are asked under narrow windows. At other depths that
/// costs more than it saves.
fn is_narrowed(depth: u8) -> bool {
    depth == 3 || depth >= DEEP_ROOT_MIN
}

/// Whether the memo is told of a node below the root at a depth that does not serve it. Few of depth 2
/// are known exactly, and those on the best line are searched again as it is followed.
fn is_noted_anyway(depth: u8, entry: &Entry) -> bool {
    depth == 2 && matches!(entry, Entry::Exact(_, _))
}

/// What every node of the depth is worth at least or at most, if that is enough for the window.
fn mate_distance_bound(depth: u8, alpha: i32, beta: i32) -> Option<Entry>
    ensures truth { IfSome result (IsTrueAnywhere depth) }
    ensures conclusive { IfSome result (IsConclusive alpha beta) }
{
    let least = -MATE - depth as i32;
    if least >= beta {
        return Some(Entry::AtLeast(least));
    }
    let most = MATE - 1 + depth as i32;
    if most <= alpha {
        return Some(Entry::AtMost(most));
    }
    None
}

/// What is known of a child that is not entered: one with at most one ply left, or one whose depth
/// serves the memo and of which the memo knows enough.
#[tactic(auto, using(crate::proofs::CallLaws::only_asks_none, crate::proofs::CallLaws::only_asks_one))]
fn answer_of<M: Memo>(node: &Node, depth: u8, alpha: i32, beta: i32, memo: &mut M) -> Option<Entry>
    requires open { alpha <ℤ beta }
    ensures known { IfSome result
        (IsConclusiveEntry node.now.position node.now.eval depth alpha beta) }
    ensures deep { IfNone result (2 ≤ depth) }
    ensures asks { OnlyAsks M.Memo memo.old memo.new 1 }
{
    if depth < 2 {
        return Some(answer_at_once(node, depth, alpha, beta));
    }
    if !memo.serves(depth) {
        return None;
    }
    probe(node.as_position(), node.eval(), depth, alpha, beta, memo)
}

/// The best move one ply less deep, if the memo has it.
#[tactic(auto, using(crate::proofs::CallLaws::only_asks_none, crate::proofs::CallLaws::only_asks_one))]
pub fn hash_move_of<M: Memo>(p: &Position, e: Eval, depth: u8, memo: &mut M) -> Option<Move>
    ensures shallow { depth < 2 → result ≡ None }
    ensures deep { 2 ≤ depth → result ≡ move_in (M.answers memo.old p.now e (depth - 1)) }
    ensures asks { OnlyAsks M.Memo memo.old memo.new 1 }
{
    if depth < 2 {
        return None;
    }
    match memo.probe(p, e, depth - 1) {
        Some(Entry::Exact(_, best)) => best,
        _ => None,
    }
}

/// The hash move of a node below the root, if the depth below it serves the memo.
#[tactic(auto, using(crate::proofs::CallLaws::only_asks_none))]
fn child_hash_move_of<M: Memo>(p: &Position, e: Eval, depth: u8, memo: &mut M) -> Option<Move>
    ensures { OnlyAsks M.Memo memo.old memo.new 1 }
{
    if depth == 0 || !memo.serves(depth - 1) {
        return None;
    }
    hash_move_of(p, e, depth, memo)
}

impl Stack {
    /// If a narrowed root with a best move is on top, ends its window one above that move's value. A child
    /// that is worth more is then only known to be, and is entered again.
    fn narrow(&mut self)
        requires { IsStackWith self.old (λ top. IsAsked top.state) }
        ensures stack { IsStack self.new }
        ensures height { self.new.height ≡ self.old.height }
        ensures top { OnTop self.old (λ old. OnTop self.new (λ new. KeepsAsked old new)) }
        ensures left { steps_left self.new ≡ steps_left self.old }
        ensures unchanged { KeepsGoal self.old self.new }
    {
        if self.height > 0 || !is_narrowed(self.depth) {
            return;
        }
        let root = &self.frames[self.height];
        let bound = root.best_value + 1;
        if root.best_move.is_none() || bound >= self.beta {
            return;
        }
        self.frames[self.height].end_at(bound);
        self.bound = bound;
    }

    /// The root is on top again, with its whole window, and waits for the answer of its move.
    fn widen(&mut self) -> Move
        requires { IsNarrow self.old }
        ensures stack { IsStack self.new }
        ensures whole { self.new.bound ≡ self.new.beta }
        ensures root { self.new.height ≡ 0 }
        ensures child { OnTop self.old (λ child. OnTop self.new (IsParentOf child result)) }
        ensures left { LeavesStepsFor self.old self.new result }
        ensures unchanged { KeepsGoal self.old self.new }
    {
        self.height -= 1;
        let beta = self.beta;
        self.bound = beta;
        let root = &mut self.frames[self.height];
        let NodeState::AwaitingChild(current) = root.state else {
            unreachable!();
        };
        root.end_at(beta);
        current
    }

    /// Enters the child after the current move of the node on top, which is on top then.
    #[inline(always)]
    fn push<M: Memo>(
        &mut self,
        current: &Move,
        node: &Node,
        counter_moves: &CounterMoves,
        memo: &mut M,
    )
        requires { IsStackWith self.old (AwaitsChild current.now node.now) }
        ensures { EntersChild M.Memo memo.old memo.new self.old current.now self.new }
    {
        let top = &self.frames[self.height];
        let (alpha, beta) = top.window(current);
        let depth = top.depth - 1;
        let hash_move = child_hash_move_of(node.as_position(), node.eval(), depth, memo);
        self.height += 1;
        let mut priority_moves = self.frames[self.height].priority_moves(
            PriorityMoves::none(),
            hash_move,
            depth,
        );
        priority_moves.add(counter_moves.reply_to(node.as_position(), current));
        self.frames[self.height].enter(node, depth, alpha, beta, priority_moves);
        self.reply_cache = ReplyCache::unknown(node.as_position());
    }

    /// The root takes in what is known of the child on top, if that is enough for its whole window;
    /// otherwise that child is entered again under it.
    #[inline(never)]
    fn leave_narrow<M: Memo>(&mut self, entry: &Entry, counter_moves: &CounterMoves, memo: &mut M)
        requires narrow { IsNarrow self.old }
        requires truth { OnTop self.old (λ top. IsTrueOf top entry.now) }
        ensures { LeavesTop M.Memo memo.old memo.new self.old self.new }
    {
        let child = &self.frames[self.height];
        let node = child.node;
        let refutation = child.refutation();
        let current = self.widen();
        current.reveal_invariant();
        let (alpha, beta) = self.frames[self.height].window(&current);
        if is_conclusive(entry, alpha, beta) {
            self.frames[self.height].back_up_with(&current, entry, refutation);
            return;
        }
        self.push(&current, &node, counter_moves, memo);
    }

    /// The node below the top, if there is one, takes in what is known of the node on top. A child of the
    /// root that was asked under a narrow window may be entered again.
    #[inline(always)]
    fn pop<M: Memo>(&mut self, entry: &Entry, counter_moves: &CounterMoves, memo: &mut M) -> bool
        requires { IsWholeWith self.old (λ top. IsEntryOf top entry.now) }
        ensures left { result ≡ true → LeavesTop M.Memo memo.old memo.new self.old self.new }
        ensures root { result ≡ false → (self.old.height ≡ 0) × IsRootEntry self.old entry.now }
        ensures kept { result ≡ false → (memo.new ≡ memo.old) × KeepsGoal self.old self.new }
    {
        if self.height == 0 {
            return false;
        }
        if self.height == 1 && self.bound < self.beta {
            self.leave_narrow(entry, counter_moves, memo);
            return true;
        }
        let refutation = self.frames[self.height].refutation();
        self.height -= 1;
        let below = &mut self.frames[self.height];
        let NodeState::AwaitingChild(current) = below.state else {
            unreachable!();
        };
        current.reveal_invariant();
        below.back_up_with(&current, entry, refutation);
        true
    }

    /// Whether the current move of the node on top is surely not worth enough, since the reply that led
    /// to the node refutes it two plies earlier as well.
    #[inline(always)]
    fn is_refuted_below(&self, current: &Move) -> bool
        requires { IsStackWith self.now (AwaitsMove current.now) }
        ensures { result ≡ true → OnTop self.now (λ top. IsLost top current.now) }
    {
        let top = &self.frames[self.height];
        if top.depth < 3 || self.height < 2 {
            return false;
        }
        let (earlier, below) = (&self.frames[self.height - 2], &self.frames[self.height - 1]);
        let (NodeState::AwaitingChild(m), NodeState::AwaitingChild(reply)) = (
            &earlier.state,
            &below.state,
        ) else {
            return false;
        };
        m.reveal_invariant();
        reply.reveal_invariant();
        current.reveal_invariant();
        earlier.is_refuted_after(m, reply, current, top.move_alpha(current))
    }

    /// Continues with the current move of the node on top: by what a node below it says of the move, by
    /// the answer of its child, or into the child, which is on top then.
    #[inline(never)]
    fn enter_child<M: Memo>(&mut self, current: &Move, counter_moves: &CounterMoves, memo: &mut M)
        requires { IsWholeWith self.old (AwaitsMove current.now) }
        ensures ready { IsReady self.new }
        ensures left { UsesSteps self.old self.new current.now 1 }
        ensures unchanged { KeepsGoal self.old self.new }
        ensures calls { CallsOnStack M.called memo.old memo.new 0 1 self.old None self.new }
        ensures capacity { M.capacity memo.new ≡ M.capacity memo.old }
    {
        if self.is_refuted_below(current) {
            self.frames[self.height].fail_low();
            return;
        }
        let top = &self.frames[self.height];
        let (alpha, beta) = top.window(current);
        let depth = top.depth - 1;
        if let Some(entry) = mate_distance_bound(depth, alpha, beta) {
            self.frames[self.height].back_up(current, &entry);
            return;
        }
        let mut node = top.node;
        current.reveal_invariant();
        node.advance(*current);
        if let Some(entry) = answer_of(&node, depth, alpha, beta, memo) {
            self.frames[self.height].back_up(current, &entry);
            return;
        }
        self.narrow();
        self.push(current, &node, counter_moves, memo);
    }

    /// Asks the memo for the nodes along the best line so far, so that they stay in use.
    #[inline(never)]
    fn keep_line<M: Memo>(&self, memo: &mut M)
        ensures { OnlyAsks M.Memo memo.old memo.new 14 }
    {
        let root = &self.frames[0];
        if root.depth < DEEP_ROOT_MIN || !root.is_next() {
            return;
        }
        let mut node = root.node;
        let mut next = root.best_move;
        let mut depth = root.depth;
        'line: while depth > 2 {
            let Some(current) = next else {
                return;
            };
            let tried = current;
            if !is_legal(node.as_position(), tried) {
                return;
            }
            node.advance(current);
            next = child_hash_move_of(node.as_position(), node.eval(), depth, memo);
            depth -= 1;
        }
    }

    /// Tells the memo what is known of the node on top, if that is the root, serves the memo, or is noted
    /// anyway.
    fn store_top<M: Memo>(&self, entry: &Entry, memo: &mut M)
        requires { IsStackWith self.now (λ top. IsTrueOf top entry.now) }
        ensures root { NotesRoot M.called memo.old memo.new self.now entry.now }
        ensures told { TellsOnce M.called memo.old memo.new }
        ensures capacity { M.capacity memo.new ≡ M.capacity memo.old }
    {
        let top = &self.frames[self.height];
        if self.height == 0 || memo.serves(top.depth) || is_noted_anyway(top.depth, entry) {
            memo.note(top.node.as_position(), top.node.eval(), top.depth, *entry);
        }
    }

    /// If the node on top is cut off, keeps the move that cut it off as the reply to the one that led to
    /// it.
    #[inline(always)]
    fn keep_counter_move(&self, counter_moves: &mut CounterMoves) {
        if self.height == 0 || self.height >= self.frames.len() {
            return;
        }
        let top = &self.frames[self.height];
        let NodeState::CutOff(_) = top.state else {
            return;
        };
        let Some(reply) = top.best_move else {
            return;
        };
        if let NodeState::AwaitingChild(current) = self.frames[self.height - 1].state {
            counter_moves.keep(top.node.as_position(), &current, reply.code());
        }
    }

    /// Leaves the node on top. Returns what is known of the root if that was the node.
    #[inline(always)]
    fn leave<M: Memo>(&mut self, counter_moves: &mut CounterMoves, memo: &mut M) -> Option<Entry>
        requires { IsWholeWith self.old (λ top. IsToBeLeft top) }
        ensures { IsStep M.Memo memo.old memo.new self.old result self.new }
    {
        let entry = self.frames[self.height].to_entry();
        self.store_top(&entry, memo);
        self.keep_counter_move(counter_moves);
        if !self.pop(&entry, counter_moves, memo) {
            return Some(entry);
        }
        if self.height == 0 {
            self.keep_line(memo);
            return None;
        }
        None
    }

    /// The best move of the last child of the node on top that was entered, or the one that cut it off.
    #[inline(always)]
    fn last_reply(&self) -> Option<Move> {
        if self.height < self.frames.len() - 1 {
            return self.frames[self.height + 1].best_move;
        }
        None
    }

    /// Makes one step. Returns what is known of the root if the step left it.
    fn step<M: Memo>(&mut self, counter_moves: &mut CounterMoves, memo: &mut M) -> Option<Entry>
        requires { IsReady self.old }
        ensures { IsStep M.Memo memo.old memo.new self.old result self.new }
    {
        let reply = self.last_reply();
        let top = &mut self.frames[self.height];
        if top.is_next() {
            let Some(current) = top.next_move(&mut self.reply_cache, reply) else {
                return self.leave(counter_moves, memo);
            };
            self.enter_child(&current, counter_moves, memo);
            return None;
        }
        self.leave(counter_moves, memo)
    }

    /// Makes this many steps, or fewer if the root is left, and counts them.
    pub fn run<M: Memo>(
        &mut self,
        counter_moves: &mut CounterMoves,
        memo: &mut M,
        budget: u64,
        steps: &mut u64,
    ) -> Option<Entry>
        requires { IsReady self.old }
        ensures run { IsRunOf M.Memo memo.old memo.new steps.old steps.new budget
            self.old result self.new }
        ensures counts { CountsSteps budget steps.old steps.new result }
        ensures fell { IfSome result (λ _. steps.new ≤ steps.old + steps_left self.old) }
    {
        let mut made = 0;
        'steps: while made < budget {
            made += 1;
            if let Some(entry) = self.step(counter_moves, memo) {
                *steps = steps.saturating_add(made);
                return Some(entry);
            }
        }
        *steps = steps.saturating_add(made);
        None
    }
}
