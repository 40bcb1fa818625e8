//! A node of the tree while the search goes through its moves.

ghost use Rattle.std.specs.Prelude.{◌≡◌, ◌≤◌, ◌<◌, ◌≤ℤ◌, ◌<ℤ◌, ℤ, pos, [], true, false, IsTrue, ◌↔◌, ◌≢◌};
ghost use Rattle.std.proofs.Props.{props};
ghost use Rattle.shogi_core.specs.Validity.{IsValid};
ghost use Rattle.shogi_moves.specs.LegalMoves.{legal_codes};
ghost use Rattle.shogi_eval.specs.declared.points.TheConstants.{POINTS_MAX};
ghost use Rattle.minimax.specs.Minimax.{value, negated};
ghost use Rattle.minimax.specs.Entries.{IsConclusive};
ghost use Rattle.minimax.specs.Window.{code_at, move_alpha};
ghost use Rattle.search_nodes.specs.Order.{codes_of, IsWithinTree, IsKept, IsKept-prop};
ghost use Rattle.search_nodes.specs.Pairs.{AreRefutations, AreRefutations-prop};
ghost use Rattle.search_nodes.specs.Visits.{IsKnownSoFar, known_props, IsCurrent};
ghost use Rattle.minimax.specs.declared.bounds.TheConstants.{SEARCH_DEPTH_MAX, INFINITY, MATE};

use crate::move_picker::MovePicker;
use crate::pairs::Refutations;
use crate::priority_moves::{KILLERS, PriorityMoves, with_killer};
use crate::window::move_alpha_at;
use minimax::{Entry, MATE};
use shogi_core::Move;
use shogi_eval::{Eval, Node};
use shogi_moves::has_legal;

/// What a node waits for.
#[derive(Clone, Copy)]
pub enum NodeState {
    /// To begin with its next move.
    Expanding,
    /// The answer of the current move.
    AwaitingChild(Move),
    /// To be left: it is worth this much or more, which reaches beta.
    CutOff(i32),
}

/// A node of any depth, and what is known of the moves gone through. The fields lie in memory in
/// this order: the wide ones first, so that little is lost between them.
#[derive(Clone, Copy)]
pub struct Frame {
    pub node: Node,
    pub picker: MovePicker,
    /// Moves that replies refute, as far as they were found.
    pub refutations: Refutations,
    pub alpha: i32,
    pub beta: i32,
    pub best_value: i32,
    pub state: NodeState,
    pub best_move: Option<Move>,
    pub depth: u8,
    /// Set once a move was gone through and not good enough, so that some move is legal.
    pub has_move: bool,
    /// How many replies were tried for analogous moves.
    pub analogy_tries: u8,
    /// The last reply that was tried.
    pub analogy_reply: Option<Move>,
    /// Codes of moves that cut off the last nodes of this place, the last one first.
    pub killers: [u16; KILLERS],
    ghost valid: { IsValid node.position },
    ghost shallow: { depth ≤ SEARCH_DEPTH_MAX },
    ghost least: { negated INFINITY ≤ℤ alpha },
    ghost open: { best_value <ℤ beta },
    ghost most: { beta ≤ℤ INFINITY },
    ghost known: { IsKnownSoFar node depth alpha beta best_value best_move picker state } by { Prim.hlevel known_props },
    ghost moves: { has_move ≡ true → legal_codes node.position ≢ [] } by { Prim.hlevel props },
    ghost kept: { IsKept node.position picker } by { IsKept-prop node.position picker },
    ghost refuted: { AreRefutations node.position node.eval depth refutations } by { AreRefutations-prop node.position node.eval depth refutations },
}

/// Whether some move is legal.
fn can_move(node: &Node) -> bool
    ensures { IsTrue result ↔ (legal_codes node.now.position ≢ []) }
{
    has_legal(node.as_position())
}

/// The value at depth 0.
#[tactic(auto, using(minimax::proofs::MinimaxLaws::leaves))]
pub fn leaf(node: &Node) -> i32
    ensures value { result ≡ value node.now.position node.now.eval 0 }
    ensures least { negated MATE ≤ℤ result }
    ensures most { result ≤ℤ pos POINTS_MAX }
{
    if can_move(node) { node.score() } else { -MATE }
}

impl Frame {
    ghost use Rattle.search_nodes.specs.Frames.{priority_moves_at, worth_of, move_alpha_of, FailsLow, IsTrueOf, IsTrueAfter, IsConclusiveAfter, IsToBeLeft};
    ghost use Rattle.search_nodes.specs.Changes.{IsAt, EndsVisit, AsksFor, KeepsAsked};
    ghost use Rattle.search_nodes.specs.Visits.{IsAsked};

    /// The moves that a node of the depth visits first that is to be entered in this place: those that
    /// are given, the hash move, the best move of the node that stands here now or the move that cut
    /// it off, and from depth 3 on the killers: what refutes one move of a position often refutes the
    /// next one.
    pub fn priority_moves(
        &self,
        given: PriorityMoves,
        hash_move: Option<Move>,
        depth: u8,
    ) -> PriorityMoves
        ensures { codes_of result ≡ priority_moves_at (codes_of given) hash_move self.now depth }
    {
        let mut priority_moves = given;
        priority_moves.add_some(hash_move);
        priority_moves.add_some(self.best_move);
        if depth > 2 {
            priority_moves.add_each(&self.killers);
        }
        priority_moves
    }

    /// The frame becomes that of a node that is entered, with the moves to visit first. The killers
    /// of its place stay.
    pub fn enter(
        &mut self,
        node: &Node,
        depth: u8,
        alpha: i32,
        beta: i32,
        priority_moves: PriorityMoves,
    )
        requires shallow { depth ≤ SEARCH_DEPTH_MAX }
        requires deep { 1 < depth }
        requires least { negated INFINITY ≤ℤ alpha }
        requires open { alpha <ℤ beta }
        requires most { beta ≤ℤ INFINITY }
        ensures place { IsAt node.now.position node.now.eval depth alpha beta self.new }
        ensures counted { IsWithinTree node.now.position depth self.new.picker }
        ensures state { self.new.state ≡ NodeState.Expanding }
        ensures priority_moves { 0 < depth → self.new.picker ≡ MovePicker.First priority_moves 0 }
    {
        node.as_position().reveal_invariant();
        self.node = *node;
        self.depth = depth;
        self.alpha = alpha;
        self.beta = beta;
        self.best_value = alpha;
        self.best_move = None;
        self.has_move = false;
        self.picker = MovePicker::new(depth, priority_moves);
        self.state = NodeState::Expanding;
        self.refutations = Refutations::None;
        self.analogy_tries = 0;
        self.analogy_reply = None;
    }

    /// Whether some move is legal. Asks the position only if that is not known yet.
    fn can_move(&self) -> bool
        ensures { IsTrue result ↔ (legal_codes self.now.node.position ≢ []) }
    {
        self.has_move || can_move(&self.node)
    }

    /// What is known of the node once it is cut off or all its moves are gone through.
    pub fn to_entry(&self) -> Entry
        requires over { IsToBeLeft self.now }
        ensures truth { IsTrueOf self.now result }
        ensures conclusive { IsConclusive self.now.alpha self.now.beta result }
    {
        if let NodeState::CutOff(v) = self.state {
            return Entry::AtLeast(v);
        }
        if self.depth == 0 {
            return Entry::Exact(leaf(&self.node), None);
        }
        match self.best_move {
            Some(m) => {
                m.reveal_invariant();
                Entry::Exact(self.best_value, self.best_move)
            }
            None => {
                if self.can_move() {
                    Entry::AtMost(self.best_value)
                } else {
                    Entry::Exact(-MATE - self.depth as i32, None)
                }
            }
        }
    }

    /// Asks for the answer of the next move, if there is one.
    #[inline(always)]
    pub(crate) fn pick_move(&mut self) -> Option<Move>
        requires next { self.old.state ≡ NodeState.Expanding }
        ensures { AsksFor result self.old self.new }
    {
        match self.picker.next(self.node.as_position()) {
            Some(m) => {
                let current = m;
                self.state = NodeState::AwaitingChild(m);
                Some(current)
            }
            None => None,
        }
    }

    /// What a move with the code has to be worth more than.
    pub(crate) fn move_alpha_at(&self, code: u16) -> i32
        requires deep { 0 < self.now.depth }
        requires open { (v : ℤ) → self.now.state ≡ NodeState.CutOff v → ⊥ }
        ensures move_alpha { result
            ≡ move_alpha self.now.best_value (code_at self.now.best_move) code }
        ensures least { negated INFINITY ≤ℤ result }
        ensures open { result <ℤ self.now.beta }
    {
        move_alpha_at(self.best_value, &self.best_move, code)
    }

    /// What the current move has to be worth more than.
    pub fn move_alpha(&self, current: &Move) -> i32
        requires current { IsCurrent self.now.state current.now }
        ensures move_alpha { result ≡ move_alpha_of self.now current.now }
        ensures least { negated INFINITY ≤ℤ result }
        ensures open { result <ℤ self.now.beta }
    {
        self.move_alpha_at(current.code())
    }

    /// The window of the child after the current move.
    pub fn window(&self, current: &Move) -> (i32, i32)
        requires current { IsCurrent self.now.state current.now }
        ensures alpha { result.0 ≡ negated self.now.beta }
        ensures beta { result.1 ≡ negated (move_alpha_of self.now current.now) }
        ensures least { negated INFINITY ≤ℤ result.0 }
        ensures open { result.0 <ℤ result.1 }
        ensures most { result.1 ≤ℤ INFINITY }
    {
        let move_alpha = self.move_alpha(current);
        (-self.beta, -move_alpha)
    }

    /// Sets the end of the window while the node waits for the answer of a move.
    pub fn end_at(&mut self, beta: i32)
        requires asked { IsAsked self.old.state }
        requires open { self.old.best_value <ℤ beta }
        requires most { beta ≤ℤ INFINITY }
        ensures unchanged { KeepsAsked self.old self.new }
        ensures beta { self.new.beta ≡ beta }
    {
        self.beta = beta;
    }

    /// Takes in what is known of the current move.
    #[inline(always)]
    pub fn back_up(&mut self, current: &Move, entry: &Entry)
        requires deep { 1 < self.old.depth }
        requires current { IsCurrent self.old.state current.now }
        requires truth { IsTrueAfter self.old current.now entry.now }
        requires conclusive { IsConclusiveAfter self.old current.now entry.now }
        ensures { EndsVisit self.old self.new }
    {
        match entry {
            Entry::Exact(v, _) => {
                let worth = -*v;
                if worth >= self.beta {
                    self.cut_off(current, worth);
                } else if worth > self.move_alpha(current) {
                    self.best_value = worth;
                    self.best_move = Some(*current);
                    self.state = NodeState::Expanding;
                } else {
                    self.fail_low();
                }
            }
            Entry::AtLeast(_) => self.fail_low(),
            Entry::AtMost(v) => self.cut_off(current, -*v),
        }
    }

    /// Cuts the node off: the current move is worth this much or more, which reaches beta, and becomes the
    /// best move.
    fn cut_off(&mut self, current: &Move, value: i32)
        requires current { IsCurrent self.old.state current.now }
        requires worth { value ≤ℤ worth_of self.old current.now }
        requires beta { self.old.beta ≤ℤ value }
        ensures { EndsVisit self.old self.new }
    {
        if self.depth > 2 {
            self.killers = with_killer(&self.killers, current.code());
        }
        self.best_move = Some(*current);
        self.state = NodeState::CutOff(value);
    }

    /// Passes the current move, which is not worth enough to become the best one.
    pub fn fail_low(&mut self)
        requires { FailsLow self.old }
        ensures ended { EndsVisit self.old self.new }
        ensures next { self.new.state ≡ NodeState.Expanding }
    {
        self.has_move = true;
        self.state = NodeState::Expanding;
    }

    /// Whether the next move is to be begun with.
    pub fn is_next(&self) -> bool
        ensures { IsTrue result ↔ (self.now.state ≡ NodeState.Expanding) }
    {
        matches!(self.state, NodeState::Expanding)
    }
}

impl Default for Frame {
    /// A node at the opening position, for places of the stack that hold no entered node. It is made once
    /// and copied, which costs less than writing out its fields for each frame.
    #[inline(never)]
    fn default() -> Self {
        let node = Node::start(Eval::Plain);
        node.as_position().reveal_invariant();
        Frame {
            node,
            depth: 0,
            alpha: -1,
            beta: 1,
            best_value: -1,
            best_move: None,
            has_move: false,
            picker: MovePicker::Done,
            state: NodeState::Expanding,
            refutations: Refutations::None,
            analogy_tries: 0,
            analogy_reply: None,
            killers: [0; KILLERS],
        }
    }
}
