//! One USI session.

ghost use Rattle.std.specs.Prelude.{◌≡◌, ◌≤◌, ◌++◌, ℕ, List, true, false, OnOk, OnErr, IfOk, OnSome, IfSome, IfNone, None, length, take, drop, ◌<◌, ◌+◌};
ghost use Rattle.usi_session.specs.Due.{due, state_due, load, roots_due, turns, is_pending, wants_input, new_session, new_session_under, EndsSearches, HasSpent, IsMidSearch, IsPvWhole, IsSameAfter, KeepsDueAndRoots, KeepsDue, QueuesAnswer, QueuesEnd, QueuesLine};
ghost use Rattle.usi_session.specs.Known.{TakesNoStep, TurnsKnown, TurnsOn};
ghost use Rattle.usi_session.specs.GoTaskView.{is_last, is_searching};
ghost use Rattle.usi_session.specs.WholeStream.{replies, replies_under, state_from};
ghost use Rattle.usi_session.specs.Answer.{initial_state, initial_state_under};
ghost use Rattle.usi_session.specs.WholeLines.{GrowsByLines};
ghost use Rattle.usi_lines.specs.Lines.{lines};
ghost use Rattle.usi_lines.specs.Seen.{line_of};
ghost use Rattle.usi_texts.specs.Options.{AreInRange};
ghost use Rattle.usi_session.specs.declared.limits.TheConstants.{CHUNK_MAX};

use crate::answer::{answer_line, write_or_hold};
use crate::go_task::GoTask;
use crate::limits::QUEUE_FULL;
use crate::queue::Queue;
use crate::state::State;
use shogi_core::Position;
use shogi_search::Memo;
use std::alloc::{AllocError, Allocator};
use std::marker::Model;
use usi_lines::{Line, LineBuffer, LineFault};
use usi_texts::{Options, Setup};

/// Why a session did not do what it was asked.
#[derive(Clone, Copy, Debug, PartialEq, Eq)]
pub enum SessionFault {
    /// Allocation failed. From `feed`: nothing changed. From `work`: whole lines may have been
    /// answered, and the next `work` continues.
    OutOfMemory,
}

impl From<AllocError> for SessionFault {
    fn from(_error: AllocError) -> SessionFault {
        SessionFault::OutOfMemory
    }
}

/// A USI session: bytes are fed, worked on and taken.
#[derive(Drop)]
pub struct Session<A: Allocator + Copy> {
    alloc: A,
    input: LineBuffer<A>,
    queue: Queue<A>,
    state: State,
    go_task: Option<GoTask<A>>,
}

impl<A: Allocator + Copy> Model for Session<A> {
    ghost use Rattle.usi_texts.specs.Options.{AreInRange};
    ghost use Rattle.usi_session.specs.Due.{SessionView};

    ghost Value = { SessionView };

    ghost view = { λ s.
        record { state = s.state; go_task = s.go_task; queued = s.queue; input = s.input } };

    ghost invariant = { λ s. AreInRange s.state.options };
}

/// Queues the answer to a line, or starts its `go`. Reply and next state are made apart, so a
/// failed allocation changes nothing.
fn queue_answer<A: Allocator + Copy>(
    alloc: A,
    line: Line<'_>,
    state: &mut State,
    queue: &mut Queue<A>,
) -> Result<Option<GoTask<A>>, AllocError>
    requires options { AreInRange state.old.options }
    requires alive { state.old.is_over ≡ false }
    ensures answer { IfOk result
        (QueuesAnswer state.old (line_of line.entry) state.new queue.old queue.new) }
    ensures options { AreInRange state.new.options }
    ensures queue_err { OnErr result (queue.new ≡ queue.old) }
    ensures state_err { OnErr result (state.new ≡ state.old) }
{
    let mut reply = Vec::new(alloc);
    let mut next = *state;
    let go_task = answer_line(alloc, &mut reply, &mut next, line)?;
    queue.push(reply.as_slice())?;
    *state = next;
    Ok(go_task)
}

/// Queues the current line of a running `go`. If allocation fails, nothing changes.
fn queue_line<A: Allocator + Copy>(
    alloc: A,
    go_task: &GoTask<A>,
    queue: &mut Queue<A>,
) -> Result<(), AllocError>
    requires whole { is_searching go_task.now ≡ false }
    ensures line { OnOk result (QueuesLine go_task.now queue.old queue.new) }
    ensures err { OnErr result (queue.new ≡ queue.old) }
{
    let mut reply = Vec::new(alloc);
    go_task.report(&mut reply)?;
    queue.push(reply.as_slice())?;
    Ok(())
}

/// Queues the last line of a running `go`, and writes or holds its bestmove. If allocation fails,
/// nothing changes.
fn queue_end<A: Allocator + Copy>(
    alloc: A,
    go_task: &GoTask<A>,
    state: &mut State,
    queue: &mut Queue<A>,
) -> Result<(), AllocError>
    requires whole { is_searching go_task.now ≡ false }
    requires last { is_last go_task.now ≡ true }
    ensures end { OnOk result (QueuesEnd go_task.now state.old state.new queue.old queue.new) }
    ensures options { state.new.options ≡ state.old.options }
    ensures queue_err { OnErr result (queue.new ≡ queue.old) }
    ensures state_err { OnErr result (state.new ≡ state.old) }
{
    let mut reply = Vec::new(alloc);
    go_task.report(&mut reply)?;
    let mut next = *state;
    write_or_hold(&mut reply, &mut next, go_task.bestmove())?;
    queue.push(reply.as_slice())?;
    *state = next;
    Ok(())
}

impl<A: Allocator + Copy> Session<A> {
    /// A new session under the usual setup: depth 3, greatest depth 16, one line, evaluation
    /// `Plain`. It takes no memory.
    pub fn new(alloc: A) -> Session<A>
        ensures initial { result ≡ new_session }
        ensures due { (x : List ℕ) → due result x ≡ replies x }
        ensures after { (x : List ℕ) → state_due result x ≡ state_from initial_state (lines x) }
    {
        Session::with_setup(alloc, Setup::new())
    }

    /// A new session: the opening position, each option as the setup has it, no bestmove held. It
    /// takes no memory.
    #[tactic(auto, using(usi_texts::proofs::SetupLaws::setup_in_range))]
    pub fn with_setup(alloc: A, setup: Setup) -> Session<A>
        ensures initial { result ≡ new_session_under setup }
        ensures due { (x : List ℕ) → due result x ≡ replies_under setup x }
        ensures after { (x : List ℕ) → state_due result x
            ≡ state_from (initial_state_under setup) (lines x) }
    {
        Session {
            alloc,
            input: LineBuffer::new(alloc),
            queue: Queue::new(alloc),
            state: State {
                position: Position::start(),
                options: Options::under(setup),
                setup,
                held: None,
                is_over: false,
            },
            go_task: None,
        }
    }

    /// Stores at most `CHUNK_MAX` bytes, and answers none yet. After `OutOfMemory` nothing has
    /// changed.
    pub fn feed(&mut self, chunk: &[u8]) -> Result<(), SessionFault>
        requires wants { wants_input self.old ≡ true }
        requires most { length chunk.now ≤ CHUNK_MAX }
        ensures due { OnOk result (IsSameAfter due chunk.now self.old self.new) }
        ensures after { OnOk result (IsSameAfter state_due chunk.now self.old self.new) }
        ensures roots { OnOk result (IsSameAfter roots_due chunk.now self.old self.new) }
        ensures queued { self.new.queued ≡ self.old.queued }
        ensures state { self.new.state ≡ self.old.state }
        ensures go_task { self.new.go_task ≡ self.old.go_task }
        ensures err { OnErr result (self.new ≡ self.old) }
    {
        match self.input.feed(chunk) {
            Ok(()) => Ok(()),
            Err(LineFault::OutOfMemory) => Err(SessionFault::OutOfMemory),
        }
    }

    /// Answers the first unread line, or starts its `go`. A failed allocation changes nothing.
    fn answer_next(&mut self) -> Result<(), SessionFault>
        requires idle { self.old.go_task ≡ None }
        requires pending { is_pending self.old ≡ true }
        ensures kept { KeepsDueAndRoots self.old self.new }
        ensures ok { OnOk result (TurnsOn self.old self.new) }
        ensures err { OnErr result (self.new ≡ self.old) }
    {
        let Some(line) = self.input.next_line() else {
            return Ok(());
        };
        let go_task = queue_answer(self.alloc, line, &mut self.state, &mut self.queue)?;
        self.go_task = go_task;
        self.input.drop_line();
        Ok(())
    }

    /// Reports the current line, once its pv is whole, and continues with the next line or ends the
    /// `go`. A failed allocation changes nothing.
    fn report_next(&mut self) -> Result<(), SessionFault>
        requires whole { IsPvWhole self.old.go_task }
        requires pending { is_pending self.old ≡ true }
        ensures kept { KeepsDueAndRoots self.old self.new }
        ensures ok { OnOk result (TurnsOn self.old self.new) }
        ensures err { OnErr result (self.new ≡ self.old) }
    {
        let Some(go_task) = &mut self.go_task else {
            return Ok(());
        };
        if !go_task.is_last() {
            queue_line(self.alloc, go_task, &mut self.queue)?;
            go_task.next();
            return Ok(());
        }
        queue_end(self.alloc, go_task, &mut self.state, &mut self.queue)?;
        self.go_task = None;
        Ok(())
    }

    /// Takes one turn: searches, reports a line of the running `go`, or answers an unread line.
    /// Returns the steps made, or `None` if the budget was used up within a search.
    fn work_once<M: Memo>(&mut self, memo: &mut M, budget: u64) -> Result<Option<u64>, SessionFault>
        requires pending { is_pending self.old ≡ true }
        ensures kept { KeepsDue self.old self.new }
        ensures spent { IfOk result (λ made. IfNone made (budget + load self.new ≤ load self.old)) }
        ensures unfinished { IfOk result (λ made. IfNone made (IsMidSearch self.new.go_task)) }
        ensures most { IfOk result (λ made. IfSome made (λ n. n ≤ budget)) }
        ensures made { IfOk result (λ made. IfSome made (λ n. n + load self.new ≤ load self.old)) }
        ensures fewer { IfOk result (λ made. OnSome made (turns self.new < turns self.old)) }
        ensures told { EndsSearches M.called memo.old memo.new self.old self.new }
        ensures known { TurnsKnown M.answers M.called memo.old memo.new
            result self.old self.new }
        ensures capacity { M.capacity memo.new ≡ M.capacity memo.old }
        ensures err { OnErr result (self.new ≡ self.old) }
    {
        match &mut self.go_task {
            None => {
                self.answer_next()?;
                Ok(Some(0))
            }
            Some(go_task) => {
                if go_task.is_searching() {
                    return Ok(go_task.advance(memo, budget));
                }
                self.report_next()?;
                Ok(Some(0))
            }
        }
    }

    /// Answers the pending lines in order, with at most `budget` steps of search, and returns the
    /// steps made. If something is still pending, the budget is used up and a search is running.
    /// After `OutOfMemory` the session still owes the same replies, and a later call continues; the
    /// memo may have changed. The queue only grows, by whole lines.
    ///
    /// No step is made if MultiPV stays 1, no search is under way, and the memo has the value of
    /// each position still to be searched.
    pub fn work<M: Memo>(&mut self, memo: &mut M, budget: u64) -> Result<u64, SessionFault>
        ensures due { (x : List ℕ) → due self.new x ≡ due self.old x }
        ensures after { (x : List ℕ) → state_due self.new x ≡ state_due self.old x }
        ensures most { IfOk result (λ n. n ≤ budget) }
        ensures made { IfOk result (λ n. n + load self.new ≤ load self.old) }
        ensures spent { IfOk result (HasSpent self.new budget) }
        ensures enough { load self.old ≤ budget → OnOk result (is_pending self.new ≡ false) }
        ensures grown { GrowsByLines self.old.queued self.new.queued }
        ensures told { EndsSearches M.called memo.old memo.new self.old self.new }
        ensures known { TakesNoStep M.answers M.called memo.old result self.old self.new }
        ensures capacity { M.capacity memo.new ≡ M.capacity memo.old }
        ensures err { OnErr result (load self.new ≤ load self.old) }
    {
        let mut left = budget;
        'turns: while self.pending() {
            match self.work_once(memo, left)? {
                Some(made) => left -= made,
                None => return Ok(budget),
            }
        }
        Ok(budget - left)
    }

    /// Whether the session is alive and has a running `go` or an unread line. A held `bestmove` is
    /// not pending.
    pub fn pending(&self) -> bool
        ensures { result ≡ is_pending self.now }
    {
        !self.state.is_over && (self.go_task.is_some() || self.input.has_line())
    }

    /// Whether the session may be fed: alive, nothing pending, and fewer than `QUEUE_FULL` bytes
    /// queued.
    pub fn wants_input(&self) -> bool
        ensures { result ≡ wants_input self.now }
    {
        !self.state.is_over && !self.pending() && self.queue.as_slice().len() < QUEUE_FULL
    }

    /// The queued bytes, which `take` drops.
    pub fn output(&self) -> &[u8]
        ensures { result.now ≡ self.now.queued }
    {
        self.queue.as_slice()
    }

    /// Drops the first n queued bytes.
    pub fn take(&mut self, n: usize)
        requires { n ≤ length self.old.queued }
        ensures queued { self.new.queued ≡ drop n self.old.queued }
        ensures state { self.new.state ≡ self.old.state }
        ensures go_task { self.new.go_task ≡ self.old.go_task }
        ensures input { self.new.input ≡ self.old.input }
        ensures due { (x : List ℕ) → due self.old x ≡ take n self.old.queued ++ due self.new x }
    {
        self.queue.take(n);
    }

    /// Whether the session has ended, by `quit` or by a line that was too long.
    pub fn is_over(&self) -> bool
        ensures { result ≡ self.now.state.is_over }
    {
        self.state.is_over
    }
}
