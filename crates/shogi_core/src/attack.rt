//! Attacks, checks and pins, seen from the attacked square.

ghost use Rattle.std.specs.Prelude.{◌≡◌, ◌≢◌, ◌↔◌, ◌<◌, ◌≤◌, ◌^◌, ℕ, true, false, not, None, IfSome, IsNone};
ghost use Rattle.shogi_core.specs.Attack.{HasNoSniper, is_attacked, is_open_king, in_check, is_sniper, is_sniping, cell_steps, cell_slides_back, is_step_from, is_step_among, slider_attacks_along, slider_attacks, FindsOccupied, FindsPiece, FindsSlider, TellsAttack, TellsReachers, TellsSliders, TellsSliderAttack, TellsSliderAttackAlong, HasPinned, HasPinAlong, OthersAreUnpinned, HasNoStep, StaysIfAttacked, StaysInCheck};
ghost use Rattle.shogi_core.specs.Below.{some_below};
ghost use Rattle.shogi_core.specs.Bits.{HasBits, has_bit};
ghost use Rattle.shogi_core.specs.Sets.{KeepsSquares};
ghost use Rattle.shogi_core.specs.Cell.{is_king};
ghost use Rattle.shogi_core.specs.Lines.{are_lined, is_seen};
ghost use Rattle.shogi_core.specs.Pieces.{opponent_of};
ghost use Rattle.shogi_core.specs.declared.piece.Color.{Color};
ghost use Rattle.shogi_core.specs.Rays.{direction_at};

use crate::bits::{highest, lowest};
use crate::board::Board;
use crate::cell::is_king;
use crate::direction::{DOWN, Direction, UP};
use crate::lines::{line_mask, slide_squares};
use crate::piece::{Color, Piece, Role};
use crate::rays::ray;
use crate::square::Square;
use crate::squares::Squares;
use crate::steps::{jump_squares, near_squares, step_squares};
use crate::targets::four_slides;

/// Whether a king of the side stands on the square and is attacked.
fn is_open_king(board: &Board, color: Color, square: Square) -> bool
    ensures { result ≡ is_open_king board.now color square }
{
    is_king(board.at(square), color) && board.is_attacked(color.opponent(), square)
}

/// The snipers of the square: sliders of the side that are aligned with it, whatever stands
/// between.
#[tactic(auto, using(crate::proofs::SeenLaws::snipers))]
fn sniper_squares(board: &Board, by: Color, from: Square) -> Squares
    ensures squares { HasBits result.bits (is_sniper board.now by from) }
{
    board.own(by) & board.sliders() & line_mask(from)
}

/// Whether a step or jump leads what stands on `from` to `to`.
fn steps_to(cell: Option<Piece>, from: Square, to: Square) -> bool
    ensures { result ≡ cell_steps cell from to }
{
    match cell {
        None => false,
        Some(piece) => step_squares(piece, from).has(to),
    }
}

/// The square of a piece among `among` that attacks the square by step or jump, if any.
#[tactic(auto, using(crate::proofs::SliderAttacks::stepping))]
fn first_stepper(board: &Board, among: Squares, square: Square) -> Option<Square>
    ensures if_none { IsNone result → HasNoStep board.now among.bits square }
    ensures range { IfSome result (λ a. a < 81) }
    ensures steps { IfSome result (λ a. is_step_among board.now among.bits square a ≡ true) }
{
    let mut left = (near_squares(square) & among).iter();
    'squares: while let Some(from) = left.next() {
        if steps_to(board.at(from), from, square) {
            return Some(from);
        }
    }
    None
}

/// The pieces in `among` that reach the square by a step or a jump.
fn steppers_among(board: &Board, among: Squares, square: Square) -> Squares
    ensures { HasBits result.bits (is_step_among board.now among.bits square) }
{
    (near_squares(square) & among).sift(|from| steps_to(board.at(from), from, square))
}

/// Whether a piece among `among` attacks the square by step or jump.
fn is_stepped_on_among(board: &Board, among: Squares, square: Square) -> bool
    ensures { result ≡ some_below 81 (is_step_among board.now among.bits square) }
{
    match first_stepper(board, among, square) {
        Some(_) => true,
        None => false,
    }
}

/// Whether a piece of the side attacks the square by step or jump.
fn is_stepped_on(board: &Board, by: Color, square: Square) -> bool
    ensures { result ≡ some_below 81 (is_step_from board.now by square) }
{
    is_stepped_on_among(board, board.own(by), square)
}

/// Whether the piece in the cell slides against the direction.
#[tactic(auto, using(crate::proofs::SliderAttacks::backing))]
fn slides_back(cell: Option<Piece>, direction: Direction) -> bool
    ensures { result ≡ cell_slides_back (direction_at direction) cell }
{
    let Some(piece) = cell else { return false };
    let number = direction.number();
    match piece.role {
        Role::Lance => match piece.color {
            Color::Black => number == DOWN,
            Color::White => number == UP,
        },
        Role::Bishop | Role::Horse => number % 2 == 1,
        Role::Rook | Role::Dragon => number % 2 == 0,
        _ => false,
    }
}

/// Whether one of the snipers in the direction slides back to the square.
#[inline(never)]
#[tactic(auto, using(crate::proofs::SliderAttacks::stepping))]
fn slider_attacks_on(
    board: &Board,
    by: Color,
    square: Square,
    direction: Direction,
    snipers: Squares,
) -> bool
    requires snipers { HasBits snipers.bits (is_sniper board.now by square) }
    ensures { result ≡ slider_attacks_along board.now by square direction }
{
    direction.reveal_invariant();
    square.reveal_invariant();
    let mut left = (slide_squares(board, direction, square) & snipers).iter();
    'squares: while let Some(from) = left.next() {
        if slides_back(board.at(from), direction) {
            return true;
        }
    }
    false
}

/// Whether a sniper is in the direction, whatever stands between.
fn has_sniper(direction: Direction, square: Square, snipers: Squares) -> bool
    ensures { result ≡ false ↔ HasNoSniper direction square snipers.bits }
{
    ray(direction, square).bits & snipers.bits != 0
}

/// A direction against which one of the snipers slides to the square, if any.
fn attacking_direction(
    board: &Board,
    by: Color,
    square: Square,
    snipers: Squares,
) -> Option<Direction>
    requires snipers { HasBits snipers.bits (is_sniper board.now by square) }
    ensures if_none { IsNone result → slider_attacks board.now by square ≡ false }
    ensures range { IfSome result (λ d. d < 8) }
    ensures shot { IfSome result (λ d. slider_attacks_along board.now by square d ≡ true) }
{
    square.reveal_invariant();
    let mut left = Direction::all();
    'directions: while let Some(direction) = left.next() {
        if has_sniper(direction, square, snipers)
            && slider_attacks_on(board, by, square, direction, snipers)
        {
            return Some(direction);
        }
    }
    None
}

/// Whether one of the snipers slides to the square.
fn slider_attacks(board: &Board, by: Color, square: Square, snipers: Squares) -> bool
    requires snipers { HasBits snipers.bits (is_sniper board.now by square) }
    ensures { result ≡ slider_attacks board.now by square }
{
    match attacking_direction(board, by, square, snipers) {
        Some(_) => true,
        None => false,
    }
}

/// The nearest of some squares on a line, seen from its start: the lowest index if indexes rise in
/// the direction, else the highest.
fn nearest(places: u128, direction: Direction) -> Square
    requires some { places ≢ 0 }
    requires fits { places < 2 ^ 81 }
    ensures range { result < 81 }
    ensures set { has_bit places result ≡ true }
    ensures rising { direction < 4 → (n : ℕ) → has_bit places n ≡ true → result ≤ n }
    ensures falling { 4 ≤ direction → (n : ℕ) → has_bit places n ≡ true → n ≤ result }
{
    if direction.number() < 4 {
        Square::of_index(lowest(places))
    } else {
        Square::of_index(highest(places))
    }
}

/// The first of the occupied squares in the direction, if any: the first piece on every board with
/// this occupancy.
#[tactic(auto, using(crate::proofs::Nearest::first_pieces))]
fn first_occupied(occupied: Squares, direction: Direction, from: Square) -> Option<Square>
    ensures range { IfSome result (λ n. n < 81) }
    ensures first { FindsOccupied occupied.bits direction from result }
{
    direction.reveal_invariant();
    let pieces = ray(direction, from).bits & occupied.bits;
    if pieces == 0 {
        return None;
    }
    Some(nearest(pieces, direction))
}

/// The square of the first piece in the direction, if any.
fn first_piece(board: &Board, direction: Direction, from: Square) -> Option<Square>
    ensures range { IfSome result (λ n. n < 81) }
    ensures first { FindsPiece board.now direction from result }
{
    first_occupied(board.occupied(), direction, from)
}

/// Whether one of the snipers in the direction slides back to the square on boards with this
/// occupancy.
#[inline(never)]
fn slider_attacks_past(
    board: &Board,
    square: Square,
    direction: Direction,
    snipers: Squares,
    occupied: Squares,
) -> bool
    ensures { TellsSliderAttackAlong board.now square direction snipers.bits occupied.bits result }
{
    direction.reveal_invariant();
    square.reveal_invariant();
    let Some(first) = first_occupied(occupied, direction, square) else {
        return false
    };
    if !snipers.has(first) {
        return false;
    }
    slides_back(board.at(first), direction)
}

/// Whether one of the snipers slides to the square on boards with this occupancy.
fn slider_attacks_among(board: &Board, square: Square, snipers: Squares, occupied: Squares) -> bool
    ensures { TellsSliderAttack board.now square snipers.bits occupied.bits result }
{
    square.reveal_invariant();
    let mut left = Direction::all();
    'directions: while let Some(direction) = left.next() {
        if has_sniper(direction, square, snipers)
            && slider_attacks_past(board, square, direction, snipers, occupied)
        {
            return true;
        }
    }
    false
}

/// The sniper that slides to the square against the direction, if one does, while pieces stand on the
/// occupied squares.
fn first_slider(
    board: &Board,
    square: Square,
    direction: Direction,
    snipers: Squares,
    occupied: Squares,
) -> Option<Square>
    ensures range { IfSome result (λ n. n < 81) }
    ensures slider { FindsSlider board.now square direction snipers.bits occupied.bits result }
{
    direction.reveal_invariant();
    square.reveal_invariant();
    if !has_sniper(direction, square, snipers) {
        return None;
    }
    let Some(nearest) = first_occupied(occupied, direction, square) else {
        return None
    };
    if !snipers.has(nearest) {
        return None;
    }
    if !slides_back(board.at(nearest), direction) {
        return None;
    }
    Some(nearest)
}

/// The snipers that slide to the square while pieces stand on the occupied squares.
#[inline(never)]
fn sliders_among(board: &Board, square: Square, snipers: Squares, occupied: Squares) -> Squares
    ensures { TellsSliders board.now square snipers.bits occupied.bits result.bits }
{
    let mut found = Squares::none();
    let mut left = Direction::all();
    'directions: while let Some(direction) = left.next() {
        if let Some(first) = first_slider(board, square, direction, snipers, occupied) {
            found = found.with(first);
        }
    }
    found
}

/// Whether one of the snipers in the direction slides back to the square. If none does, adds to
/// `pinned` the piece of the side that alone shields the square from a sniper there.
#[inline(never)]
fn slider_check_or_pin(
    board: &Board,
    side: Color,
    square: Square,
    direction: Direction,
    snipers: Squares,
    pinned: &mut Squares,
) -> bool
    requires snipers { HasBits snipers.bits (is_sniper board.now (opponent_of side) square) }
    ensures shot { result ≡ slider_attacks_along board.now (opponent_of side) square direction }
    ensures kept { KeepsSquares pinned.old.bits pinned.new.bits }
    ensures all { result ≡ false → HasPinAlong pinned.new.bits board.now side square direction }
{
    direction.reveal_invariant();
    square.reveal_invariant();
    let Some(first) = first_piece(board, direction, square) else {
        return false
    };
    if snipers.has(first) {
        return slides_back(board.at(first), direction);
    }
    if !board.own(side).has(first) {
        return false;
    }
    let Some(second) = first_piece(board, direction, first) else {
        return false
    };
    if snipers.has(second) {
        *pinned = pinned.with(first);
    }
    false
}

/// The squares of pieces of the side that alone shield the square from a sniper, or `None` if a
/// sniper slides to it.
fn pinned_to(board: &Board, side: Color, square: Square, snipers: Squares) -> Option<Squares>
    requires snipers { HasBits snipers.bits (is_sniper board.now (opponent_of side) square) }
    ensures shot { IsNone result → slider_attacks board.now (opponent_of side) square ≡ true }
    ensures open { IfSome result (λ s. slider_attacks board.now (opponent_of side) square ≡ false) }
    ensures all { IfSome result (λ s. HasPinned s.bits board.now side square) }
{
    square.reveal_invariant();
    let mut pinned = Squares::none();
    let mut left = Direction::all();
    'directions: while let Some(direction) = left.next() {
        if has_sniper(direction, square, snipers)
            && slider_check_or_pin(board, side, square, direction, snipers, &mut pinned)
        {
            return None;
        }
    }
    Some(pinned)
}

/// The squares of pieces of the side that alone shield the square from a sniper, or `None` if it is
/// attacked.
#[tactic(auto, using(crate::proofs::SliderAttacks::attacking, crate::proofs::Pins::unpinned))]
fn pinned_pieces(board: &Board, side: Color, square: Square) -> Option<Squares>
    ensures attacked { IsNone result → is_attacked board.now (opponent_of side) square ≡ true }
    ensures safe { IfSome result (λ s. is_attacked board.now (opponent_of side) square ≡ false) }
    ensures all { IfSome result (λ s. HasPinned s.bits board.now side square) }
{
    square.reveal_invariant();
    let by = side.opponent();
    if is_stepped_on(board, by, square) {
        return None;
    }
    let snipers = sniper_squares(board, by, square);
    if snipers.bits == 0 {
        return Some(Squares { bits: 0 });
    }
    pinned_to(board, side, square, snipers)
}

/// The squares on which a piece ends an attack by the side on the square: those of one attacker and
/// on its way. Empty without an attack.
fn evasion_squares_on(board: &Board, by: Color, square: Square) -> Squares
    ensures stays { StaysIfAttacked result.bits board.now by square }
{
    square.reveal_invariant();
    if let Some(from) = first_stepper(board, board.own(by), square) {
        return Squares::none().with(from);
    }
    match attacking_direction(board, by, square, sniper_squares(board, by, square)) {
        Some(direction) => slide_squares(board, direction, square),
        None => Squares::none(),
    }
}

impl Board {
    /// The squares on open lines with the square: on its file, rank or a diagonal, with no piece
    /// between.
    pub fn open_lines(&self, square: Square) -> Squares
        ensures squares { HasBits result.bits (are_lined self.now square) }
    {
        four_slides(self, Direction::down(), square)
            | four_slides(self, Direction::up_left(), square)
    }

    /// The squares from which a piece could attack the square: those on open lines with it or a
    /// knight's jump away.
    #[tactic(auto, using(crate::proofs::SeenLaws::seen))]
    pub fn queen_and_knight_view(&self, square: Square) -> Squares
        ensures squares { HasBits result.bits (is_seen self.now square) }
    {
        self.open_lines(square) | jump_squares(square)
    }

    /// Whether a piece of the side attacks the square, whatever stands on it.
    #[tactic(auto, using(crate::proofs::SliderAttacks::attacking))]
    pub fn is_attacked(&self, by: Color, square: Square) -> bool
        ensures { result ≡ is_attacked self.now by square }
    {
        square.reveal_invariant();
        if is_stepped_on(self, by, square) {
            return true;
        }
        let snipers = sniper_squares(self, by, square);
        if snipers.bits == 0 {
            return false;
        }
        slider_attacks(self, by, square, snipers)
    }

    /// Whether a piece on one of the squares `among` would attack the square on a board with this
    /// occupancy: on another board whose attackers are `among` and stand here too.
    #[inline(always)]
    pub fn is_attacked_among(&self, square: Square, among: Squares, occupied: Squares) -> bool
        ensures { TellsAttack self.now among.bits occupied.bits square result }
    {
        square.reveal_invariant();
        if is_stepped_on_among(self, among, square) {
            return true;
        }
        let snipers = among & self.sliders() & line_mask(square);
        if snipers.bits == 0 {
            return false;
        }
        slider_attacks_among(self, square, snipers, occupied)
    }

    /// The pieces in `among` that reach the square while exactly the squares in `occupied` hold pieces. These
    /// are the attackers of one side on any board whose pieces of that side all stand here as well.
    pub fn reachers_among(&self, square: Square, among: Squares, occupied: Squares) -> Squares
        ensures { TellsReachers self.now among.bits occupied.bits square result.bits }
    {
        square.reveal_invariant();
        let near = steppers_among(self, among, square);
        let lined = among & self.sliders() & line_mask(square);
        if lined.bits == 0 {
            return near;
        }
        near | sliders_among(self, square, lined, occupied)
    }

    /// Whether a king of the side is attacked. A side without a king is never in check.
    #[tactic(auto, using(crate::proofs::SeenLaws::open_kings), unfolding(crate::specs::Attack::in_check))]
    pub fn in_check(&self, side: Color) -> bool
        ensures { result ≡ in_check self.now side }
    {
        let mut left = self.kings(side).iter();
        'kings: while let Some(king) = left.next() {
            if is_open_king(self, side, king) {
                return true;
            }
        }
        false
    }

    /// If the side is in check: the squares to which a move of another piece than a king must go to
    /// answer it. They are that of one checking piece and those on its way. Empty without a check.
    #[tactic(auto, using(crate::proofs::SeenLaws::open_kings), unfolding(crate::specs::Attack::in_check))]
    pub fn evasion_squares(&self, side: Color) -> Squares
        ensures stays { in_check self.now side ≡ true → StaysInCheck result.bits self.now side }
    {
        let mut left = self.kings(side).iter();
        'kings: while let Some(king) = left.next() {
            if is_open_king(self, side, king) {
                return evasion_squares_on(self, side.opponent(), king);
            }
        }
        Squares::none()
    }

    /// The snipers of the side's kings: sliders of the opponent aligned with a king, whatever
    /// stands between.
    #[tactic(auto, using(crate::proofs::Snipers::sniping))]
    pub fn snipers(&self, side: Color) -> Squares
        ensures squares { HasBits result.bits (is_sniping self.now side) }
    {
        let mut left = self.kings(side).iter();
        let mut found = Squares::none();
        'kings: while let Some(king) = left.next() {
            found = found | sniper_squares(self, side.opponent(), king);
        }
        found
    }

    /// The squares of all pieces of the side that may be pinned: lifting any other piece of the
    /// side off gives no check. `None` if the side is already in check.
    #[tactic(auto, using(crate::proofs::SeenLaws::open_kings, crate::proofs::Pins::pins))]
    pub fn pinned(&self, side: Color) -> Option<Squares>
        ensures checked { IsNone result → in_check self.now side ≡ true }
        ensures unchecked { IfSome result (λ s. in_check self.now side ≡ false) }
        ensures free { IfSome result (λ s. OthersAreUnpinned s.bits self.now side) }
    {
        let mut left = self.kings(side).iter();
        let mut found = Squares::none();
        'kings: while let Some(king) = left.next() {
            match pinned_pieces(self, side, king) {
                None => return None,
                Some(more) => found = found | more,
            }
        }
        Some(found)
    }
}
