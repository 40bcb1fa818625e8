//! A running `go`: its searches, one after another, depth by depth.

ghost use Rattle.std.specs.Prelude.{◌≡◌, ◌≢◌, ◌≤◌, ◌<◌, ◌+◌, IfOk, IfSome, IfNone, OnSome, OnOk, length, true, false, ◌==◌};
ghost use Rattle.minimax.specs.declared.bounds.TheConstants.{INFINITY};
ghost use Rattle.shogi_search.specs.Progress.{IsFoundBy, KeepsQuestion};
ghost use Rattle.usi_session.specs.Answer.{bestmove_of};
ghost use Rattle.usi_session.specs.declared.state.HeldBestmove.{HeldBestmove};
ghost use Rattle.usi_session.specs.GoInfos.{move_to_play, move_to_ponder};
ghost use Rattle.usi_session.specs.GoTaskView.{listed_at, infos_left, infos_after, deeper_infos, is_last, is_last_of_depth, is_searching, bestmove_to, cost_of_depths, load_after_root_move, load_of, reports_of, deeper_roots, first_roots, roots_of, EndsSearchesOfGo, HasDone, HasDoneLine, IsSameButForSearch, WritesLine};
ghost use Rattle.usi_session.specs.Known.{AreKnown, IsBetweenSearches, IsRootKnown, PassesRoot, PassesSearch};
ghost use Rattle.usi_session.specs.Phases.{IsAtPhase, first_phase, go_at, lines_done_in, lines_done_of, root_move_in, walk_in};
ghost use Rattle.usi_session.specs.Roots.{root_of};
ghost use Rattle.usi_session.specs.Told.{HasMadeCalls, TellsEnded};
ghost use Rattle.usi_session.specs.Walked.{IsQuestionInRange, IsFirstMove, IsRankedTo, IsRankedUpTo, IsRanked, BeginsLine, IsSearchedAlong, IsFoundOfChild, IsUnder, LeavesRoots, first_search, is_settled, child_search, cost_after, walk_cost, walk_roots};
ghost use Rattle.usi_session.specs.WholeLines.{GrowsByLines};

use crate::depth::Depth;
use crate::go_request::GoRequest;
use crate::phase::{Child, Listed, Phase, PvLine};
use crate::pv_walk::PvWalk;
use crate::state::HeldBestmove;
use last_ply::last_worth;
use shogi_core::Move;
use shogi_moves::{apply, next_legal};
use shogi_search::{Found, INFINITY, Memo, NoMemo, Ranks, Search};
use std::alloc::{AllocError, Allocator};
use std::marker::Model;
use std::mem::replace;
use usi_lines::Hold;
use usi_texts::{write_info, write_numbered_info};

/// A running `go`. With one line, it walks along the pv of each depth. With several, it first ranks
/// the root moves, searching each child only as far as its move may still be listed, and then walks
/// along the pv of each listed move. The search is boxed because its stack is large.
#[derive(Drop)]
pub struct GoTask<A: Allocator> {
    depth: Depth,
    phase: Phase,
    bestmove: HeldBestmove,
    best_moves: [Option<Move>; 2],
    search: Box<Search, A>,
}

impl<A: Allocator> Model for GoTask<A> {
    ghost use Rattle.usi_session.specs.GoTaskView.{GoTaskView};

    ghost Value = { GoTaskView };

    ghost use Rattle.usi_session.specs.GoTask.{go_task_in, IsGoTask};

    ghost view = { go_task_in };

    ghost invariant = { IsGoTask };
}

/// The first move of a pv.
fn move_to_play(moves: &[Move]) -> Option<Move>
    ensures { result ≡ move_to_play moves.now }
{
    moves.first().copied()
}

/// The second move of a pv.
fn move_to_ponder(moves: &[Move]) -> Option<Move>
    ensures { result ≡ move_to_ponder moves.now }
{
    moves.get(1).copied()
}

/// The bestmove of a pv.
fn bestmove_of(moves: &[Move], until: Hold) -> HeldBestmove
    ensures { result ≡ bestmove_of moves.now until }
{
    HeldBestmove {
        best: move_to_play(moves),
        ponder: move_to_ponder(moves),
        until,
    }
}

/// The phase that a depth begins with.
fn first_phase(depth: &Depth) -> Phase
    ensures { result ≡ first_phase depth.now.go_request depth.now.first depth.now.done }
{
    let go_request = &depth.go_request;
    if go_request.multi_pv == 1 {
        let walk = PvWalk::new(&go_request.position, go_request.eval, depth.done + 1);
        return Phase::AtLine(PvLine { walk, listed: None });
    }
    let ranks = Ranks::new(go_request.multi_pv as usize);
    Phase::AtMove(Child {
        root_move: depth.first,
        ranks,
    })
}

/// The second of `moves`, and the first move of a pv.
fn shift_best(moves: &[Option<Move>; 2], walk: &PvWalk) -> [Option<Move>; 2]
    requires whole { walk.now.plies ≡ 0 }
{
    [moves[1], move_to_play(walk.moves())]
}

/// The depth from which a search of the root first visits the best moves of the two depths before.
/// At depth 4 they save little in most searches, and make some a third longer.
const ADVISED_FROM: u8 = 5;

/// Sets up the first search of a depth. With one line, the root of a deep search visits
/// `best_moves` first.
fn start_depth(depth: &Depth, best_moves: &[Option<Move>; 2], search: &mut Search)
    ensures { search.new ≡ first_search depth.now.go_request depth.now.first depth.now.done }
{
    if depth.go_request.multi_pv == 1 {
        search.restart_below(
            &depth.go_request.position,
            depth.go_request.eval,
            depth.done + 1,
            INFINITY,
        );
        if depth.done + 1 >= ADVISED_FROM {
            search.advise([best_moves[0], best_moves[1]]);
        }
        return;
    }
    let first = depth.first;
    first.reveal_invariant();
    let next = apply(&depth.go_request.position, first);
    search.restart_below(&next, depth.go_request.eval, depth.done, INFINITY);
}

/// A walk along the pv of line `lines_done`, counted from 0, after its first move.
fn line_of(depth: &Depth, ranks: &Ranks, lines_done: u8) -> PvWalk
    requires ranked { IsRanked depth.now.go_request depth.now.done ranks.now }
    requires lines_done { lines_done < length (listed_at depth.now.go_request depth.now.done) }
    ensures { BeginsLine depth.now.go_request depth.now.done lines_done result }
{
    let line = ranks.list()[lines_done as usize];
    let (m, worth) = line;
    m.reveal_invariant();
    let played = m;
    let next = apply(&depth.go_request.position, m);
    PvWalk::after(played, &next, depth.go_request.eval, depth.done, worth)
}

/// Sets up the search of the walk's position if plies are left.
fn search_pv(walk: &PvWalk, search: &mut Search)
    ensures under { IsSearchedAlong walk.now search.new }
    ensures cost { search.new.left + cost_after walk.now ≤ search.old.left + walk_cost walk.now }
    ensures fresh { 0 < walk.now.plies → search.new.started ≡ false }
{
    let plies = walk.plies();
    if plies > 0 {
        search.restart(walk.at(), walk.eval(), plies);
    }
}

/// Continues the search of a root move's child. A leaf is searched without the memo, as its value
/// is not worth an entry.
fn continue_search<M: Memo>(
    search: &mut Search,
    memo: &mut M,
    leaf: bool,
    budget: u64,
) -> Option<Found>
    ensures unchanged { KeepsQuestion search.old search.new }
    ensures below { IfSome result (IsFoundBy search.old) }
    ensures over { OnSome result (search.new.left ≡ 0) }
    ensures most { IfSome result (λ f. f.steps ≤ search.old.steps + budget) }
    ensures made { IfSome result (λ f. f.steps ≤ search.old.steps + search.old.left) }
    ensures spent { IfNone result (budget + search.new.left ≤ search.old.left) }
    ensures unfinished { IfNone result (0 < search.new.left) }
    ensures calls { HasMadeCalls M.called memo.old memo.new }
    ensures capacity { M.capacity memo.new ≡ M.capacity memo.old }
{
    if leaf {
        return search.advance(&mut NoMemo, budget);
    }
    search.advance(memo, budget)
}

/// Continues the search of the walk's position. If it ends, returns its steps and sets up the next
/// one along the walk, if any; otherwise returns `None`, with the budget used up.
fn walk_on<M: Memo>(
    walk: &mut PvWalk,
    search: &mut Search,
    memo: &mut M,
    budget: u64,
) -> Option<u64>
    requires some { 0 < walk.old.plies }
    requires under { IsUnder search.old walk.old.at walk.old.eval walk.old.plies INFINITY }
    ensures unchanged { walk.new ≡ record walk.old { at = walk.new.at; plies = walk.new.plies } }
    ensures stays { IfNone result (walk.new ≡ walk.old) }
    ensures along { IsSearchedAlong walk.new search.new }
    ensures unfinished { IfNone result (0 < search.new.left) }
    ensures spent { IfNone result (budget + search.new.left ≤ search.old.left) }
    ensures most { IfSome result (λ made. made ≤ budget) }
    ensures made { IfSome result (λ made. made + (search.new.left + cost_after walk.new)
        ≤ search.old.left + cost_after walk.old) }
    ensures fewer { OnSome result (search.new.left + cost_after walk.new
        < search.old.left + cost_after walk.old) }
    ensures told { TellsEnded M.called memo.old memo.new
        (walk_roots walk.old) (walk_roots walk.new) }
    ensures known { search.old.started ≡ false
        → IsRootKnown (M.answers memo.old) (root_of walk.old.at walk.old.eval walk.old.plies)
        → PassesRoot M.called memo.old memo.new result walk.new search.new }
    ensures capacity { M.capacity memo.new ≡ M.capacity memo.old }
{
    let before = search.steps();
    let found = search.advance(memo, budget)?;
    let made = found.steps.saturating_sub(before);
    walk.follow(&found);
    search_pv(walk, search);
    Some(made)
}

/// Sets up the search of a child, once all legal moves before `root_move` are ranked.
fn search_child(depth: &Depth, root_move: Move, ranks: &Ranks, search: &mut Search)
    requires ranked { IsRankedTo depth.now.go_request depth.now.done root_move ranks.now }
    ensures { search.new ≡ child_search depth.now.go_request depth.now.done root_move ranks.now }
{
    root_move.reveal_invariant();
    depth.go_request.position.reveal_invariant();
    let next = apply(&depth.go_request.position, root_move);
    search.restart_below(&next, depth.go_request.eval, depth.done, ranks.child_beta());
}

/// Whether the root move ends its line and the evaluation resolves captures there: its worth is
/// then not its child's value.
fn is_settled(depth: &Depth) -> bool
    ensures { result ≡ is_settled depth.now.go_request depth.now.done }
{
    depth.done == 0 && depth.go_request.eval.resolves_captures()
}

/// Ranks a move by its child's value, or by its worth if settled. A value at or above the bound
/// leaves the list as it is, since the move would rank behind it.
fn rank(depth: &Depth, root_move: Move, found: &Found, ranks: &mut Ranks)
    requires ranked { IsRankedTo depth.now.go_request depth.now.done root_move ranks.old }
    requires below { IsFoundOfChild depth.now.go_request depth.now.done root_move ranks.old found.now }
    ensures { IsRankedUpTo depth.now.go_request depth.now.done (Some root_move) ranks.new }
{
    root_move.reveal_invariant();
    depth.go_request.position.reveal_invariant();
    if is_settled(depth) {
        let worth = last_worth(&depth.go_request.position, depth.go_request.eval, root_move);
        ranks.offer(root_move, worth);
        return;
    }
    if found.value < ranks.child_beta() {
        ranks.offer(root_move, -found.value);
    }
}

/// Takes the result of a child's search, and sets up the next child's, or that of the first line.
/// `replace` moves the ranks out of `child`, which the caller drops.
fn rank_child(depth: &Depth, child: &mut Child, found: &Found, search: &mut Search) -> Phase
    requires several { depth.now.go_request.multi_pv ≢ 1 }
    requires ranked { IsRankedTo depth.now.go_request depth.now.done
        child.old.root_move child.old.ranks }
    requires over { search.old.left ≡ 0 }
    requires below { IsFoundOfChild depth.now.go_request depth.now.done
        child.old.root_move child.old.ranks found.now }
    ensures at_phase { (kept : HeldBestmove)
        → IsAtPhase depth.now.go_request depth.now.done result kept search.new }
    ensures none_done { lines_done_in result ≡ 0 }
    ensures cost { load_of (go_at depth.now.go_request depth.now.done result search.new)
        ≤ load_after_root_move depth.now.go_request depth.now.done child.old.root_move }
    ensures roots { LeavesRoots depth.now.go_request depth.now.done
        (root_move_in result) (walk_in depth.now.go_request result) search.new }
{
    let root_move = child.root_move;
    let visited = root_move;
    let mut ranks = replace(&mut child.ranks, Ranks::new(1));
    rank(depth, root_move, found, &mut ranks);
    if let Some(m) = next_legal(&depth.go_request.position, Some(visited)) {
        let next = m;
        m.reveal_invariant();
        search_child(depth, m, &ranks, search);
        return Phase::AtMove(Child {
            root_move: next,
            ranks,
        });
    }
    let walk = line_of(depth, &ranks, 0);
    search_pv(&walk, search);
    let listed = Listed {
        ranks,
        lines_done: 0,
    };
    Phase::AtLine(PvLine {
        walk,
        listed: Some(listed),
    })
}

/// How many lines of the depth are done.
fn lines_done(line: &PvLine) -> u8
    ensures { result ≡ lines_done_of line.now.listed }
{
    match &line.listed {
        None => 0,
        Some(listed) => listed.lines_done,
    }
}

impl<A: Allocator> GoTask<A> {
    /// A `go` at its first depth. It fails if there is no memory for the boxed search.
    #[inline(never)]
    pub fn start(alloc: A, go_request: GoRequest, first: Move) -> Result<GoTask<A>, AllocError>
        requires go_request { IsQuestionInRange go_request }
        requires first { IsFirstMove go_request.position first }
        ensures done { IfOk result (HasDone go_request 0 0) }
        ensures load { IfOk result (λ go.
            load_of go ≤ cost_of_depths go_request 0 go_request.depth) }
        ensures roots { IfOk result (λ go. roots_of go ≡ first_roots go_request) }
        ensures fresh { IfOk result (λ go. go.is_begun ≡ false) }
    {
        first.reveal_invariant();
        let depth = Depth {
            go_request,
            first,
            done: 0,
        };
        let mut search = Search::start(&go_request.position, go_request.eval, 0);
        start_depth(&depth, &[None, None], &mut search);
        let search = Box::new(alloc, search)?;
        let bestmove = HeldBestmove {
            best: None,
            ponder: None,
            until: go_request.hold,
        };
        let phase = first_phase(&depth);
        Ok(GoTask {
            depth,
            phase,
            bestmove,
            best_moves: [None, None],
            search,
        })
    }

    /// Continues the current search. If it ends, returns its steps and sets up the next one, unless
    /// the pv is whole; otherwise returns `None`, with the budget used up.
    pub fn advance<M: Memo>(&mut self, memo: &mut M, budget: u64) -> Option<u64>
        requires searching { is_searching self.old ≡ true }
        ensures unchanged { IsSameButForSearch self.old self.new }
        ensures spent { IfNone result (budget + load_of self.new ≤ load_of self.old) }
        ensures stays { IfNone result (is_searching self.new ≡ true) }
        ensures unfinished { IfNone result (0 < self.new.steps_left) }
        ensures most { IfSome result (λ made. made ≤ budget) }
        ensures made { IfSome result (λ made. made + load_of self.new ≤ load_of self.old) }
        ensures fewer { OnSome result (load_of self.new < load_of self.old) }
        ensures told { EndsSearchesOfGo M.called memo.old memo.new self.old self.new }
        ensures known { IsBetweenSearches self.old
            → AreKnown (M.answers memo.old) (roots_of self.old)
            → PassesSearch M.called memo.old memo.new result self.new }
        ensures capacity { M.capacity memo.new ≡ M.capacity memo.old }
    {
        match &mut self.phase {
            Phase::AtLine(line) => walk_on(&mut line.walk, &mut self.search, memo, budget),
            Phase::AtMove(child) => {
                let before = self.search.steps();
                let leaf = self.depth.done == 0;
                let found = continue_search(&mut self.search, memo, leaf, budget)?;
                let made = found.steps.saturating_sub(before);
                let next = rank_child(&self.depth, child, &found, &mut self.search);
                self.phase = next;
                Some(made)
            }
        }
    }

    /// Writes the info line of the current line. `whole` rules out the early return.
    pub fn report<B: Allocator>(&self, out: &mut Vec<u8, B>) -> Result<(), AllocError>
        requires whole { is_searching self.now ≡ false }
        ensures rest { OnOk result (WritesLine self.now out.old.items out.new.items) }
        ensures lines { OnOk result (GrowsByLines out.old.items out.new.items) }
    {
        let Phase::AtLine(line) = &self.phase else {
            return Ok(());
        };
        let depth = self.depth.done + 1;
        let value = line.walk.value();
        let moves = line.walk.moves();
        match &line.listed {
            None => write_info(out, depth, value, moves),
            Some(listed) => write_numbered_info(out, depth, listed.lines_done + 1, value, moves),
        }
    }

    /// Whether a search is running.
    pub fn is_searching(&self) -> bool
        ensures { result ≡ is_searching self.now }
    {
        match &self.phase {
            Phase::AtMove(_) => true,
            Phase::AtLine(line) => line.walk.plies() > 0,
        }
    }

    /// Whether the current line is the last one of its depth. `whole` rules out the early return.
    fn ends_depth(&self) -> bool
        requires whole { is_searching self.now ≡ false }
        ensures { result ≡ is_last_of_depth self.now }
    {
        let Phase::AtLine(line) = &self.phase else {
            return false;
        };
        match &line.listed {
            None => true,
            Some(listed) => listed.lines_done as usize + 1 == listed.ranks.list().len(),
        }
    }

    /// Whether the current line is the last one of the requested depth.
    pub fn is_last(&self) -> bool
        requires whole { is_searching self.now ≡ false }
        ensures { result ≡ is_last self.now }
    {
        self.ends_depth() && self.depth.done + 1 == self.depth.go_request.depth
    }

    /// The bestmove of the current depth: from the pv of its first line, kept while the others are
    /// walked.
    fn current_bestmove(&self) -> HeldBestmove
        requires whole { is_searching self.now ≡ false }
        ensures { result ≡ bestmove_to self.now.go_request (self.now.depths_done + 1) }
    {
        let Phase::AtLine(line) = &self.phase else {
            return self.bestmove;
        };
        if lines_done(line) == 0 {
            return bestmove_of(line.walk.moves(), self.depth.go_request.hold);
        }
        self.bestmove
    }

    /// Continues with the next line. `whole` and `more` rule out the early returns.
    fn next_line(&mut self)
        requires whole { is_searching self.old ≡ false }
        requires more { is_last_of_depth self.old ≡ false }
        ensures done { HasDoneLine self.old self.new }
        ensures fresh { is_searching self.new ≡ true → self.new.is_begun ≡ false }
        ensures roots { roots_of self.new ≡ roots_of self.old }
        ensures load { load_of self.new ≤ load_of self.old }
        ensures fewer { reports_of self.new < reports_of self.old }
    {
        let bestmove = self.current_bestmove();
        let Phase::AtLine(line) = &mut self.phase else {
            return;
        };
        let Some(listed) = &mut line.listed else {
            return;
        };
        let lines_done = listed.lines_done + 1;
        let ranks = replace(&mut listed.ranks, Ranks::new(1));
        let walk = line_of(&self.depth, &ranks, lines_done);
        search_pv(&walk, &mut self.search);
        let listed = Some(Listed { ranks, lines_done });
        self.phase = Phase::AtLine(PvLine { walk, listed });
        self.bestmove = bestmove;
    }

    /// Continues with the next depth. `whole` rules out the early return.
    fn next_depth(&mut self)
        requires whole { is_searching self.old ≡ false }
        requires more { self.old.depths_done + 1 ≢ self.old.go_request.depth }
        ensures done { HasDone self.old.go_request (self.old.depths_done + 1) 0 self.new }
        ensures fresh { self.new.is_begun ≡ false }
        ensures rest { infos_left self.new ≡ deeper_infos self.old.go_request self.old.depths_done }
        ensures roots { roots_of self.new
            ≡ deeper_roots self.old.go_request self.old.depths_done }
        ensures load { load_of self.new ≤ load_of self.old }
        ensures fewer { reports_of self.new < reports_of self.old }
    {
        let Depth {
            go_request,
            first,
            done,
        } = self.depth;
        first.reveal_invariant();
        let depth = Depth {
            go_request,
            first,
            done: done + 1,
        };
        let Phase::AtLine(line) = &self.phase else {
            return;
        };
        self.best_moves = shift_best(&self.best_moves, &line.walk);
        start_depth(&depth, &self.best_moves, &mut self.search);
        self.phase = first_phase(&depth);
        self.depth = depth;
    }

    /// Continues with the next line, or with the next depth after the last line of one.
    pub fn next(&mut self)
        requires whole { is_searching self.old ≡ false }
        requires more { is_last self.old ≡ false }
        ensures go_request { self.new.go_request ≡ self.old.go_request }
        ensures fresh { is_searching self.new ≡ true → self.new.is_begun ≡ false }
        ensures rest { infos_left self.new ≡ infos_after self.old }
        ensures roots { roots_of self.new ≡ roots_of self.old }
        ensures load { load_of self.new ≤ load_of self.old }
        ensures fewer { reports_of self.new < reports_of self.old }
    {
        if self.ends_depth() {
            self.next_depth();
        } else {
            self.next_line();
        }
    }

    /// The bestmove of the requested depth, once its last line is whole.
    pub fn bestmove(&self) -> HeldBestmove
        requires whole { is_searching self.now ≡ false }
        requires last { is_last self.now ≡ true }
        ensures { result ≡ bestmove_to self.now.go_request self.now.go_request.depth }
    {
        self.current_bestmove()
    }
}
