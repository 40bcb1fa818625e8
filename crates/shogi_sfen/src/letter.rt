//! Letters of pieces.

ghost use Rattle.std.specs.Prelude.{◌≡◌, ◌<◌};
ghost use Rattle.shogi_core.specs.Pieces.{kind_of};
ghost use Rattle.shogi_sfen.specs.Letters.{letter_of, kind_named, is_promoted, letter_or_king, cased_for, piece_letter, is_named, color_of_letter, role_named, piece_named};
ghost use Rattle.shogi_sfen.specs.declared.byte.TheConstants.{LOWER_CASE};

use crate::byte::{KING, LOWER_CASE, TO_LOWER_CASE};
use shogi_core::{Color, KINDS, Kind, Piece, Role};

/// The upper-case letter of the kind.
pub fn letter_of(kind: Kind) -> u8
    ensures value { result ≡ letter_of kind }
    ensures small { result < LOWER_CASE }
{
    match kind {
        Kind::Pawn => b'P',
        Kind::Lance => b'L',
        Kind::Knight => b'N',
        Kind::Silver => b'S',
        Kind::Gold => b'G',
        Kind::Bishop => b'B',
        Kind::Rook => b'R',
    }
}

/// The kind with this upper-case letter, if any.
#[tactic(auto, unfolding(crate::specs::Letters::kind_named))]
pub fn read_kind(letter: u8) -> Option<Kind>
    ensures { result ≡ kind_named letter }
{
    KINDS
        .iter()
        .copied()
        .find(|kind| letter_of(*kind) == letter)
}

/// Whether the role is promoted.
pub fn is_promoted(role: Role) -> bool
    ensures { result ≡ is_promoted role }
{
    matches!(
        role,
        Role::PromotedPawn
            | Role::PromotedLance
            | Role::PromotedKnight
            | Role::PromotedSilver
            | Role::Horse
            | Role::Dragon
    )
}

/// The upper-case letter of the role's kind, or `K` for a king.
fn letter_of_role(role: Role) -> u8
    ensures value { result ≡ letter_or_king (kind_of role) }
    ensures small { result < LOWER_CASE }
{
    match role.kind() {
        Some(kind) => letter_of(kind),
        None => KING,
    }
}

/// The letter, in upper case for Black and in lower case for White.
pub fn cased_for(color: Color, letter: u8) -> u8
    requires { letter < LOWER_CASE }
    ensures { result ≡ cased_for color letter }
{
    match color {
        Color::Black => letter,
        Color::White => letter + TO_LOWER_CASE,
    }
}

/// The letter of the piece in its side's case, without a plus.
pub fn piece_letter(piece: Piece) -> u8
    ensures { result ≡ piece_letter piece }
{
    cased_for(piece.color, letter_of_role(piece.role))
}

/// All roles.
const ROLES: [Role; 14] = [
    Role::King,
    Role::Pawn,
    Role::Lance,
    Role::Knight,
    Role::Silver,
    Role::Gold,
    Role::Bishop,
    Role::Rook,
    Role::PromotedPawn,
    Role::PromotedLance,
    Role::PromotedKnight,
    Role::PromotedSilver,
    Role::Horse,
    Role::Dragon,
];

/// Whether the letter, after a plus or not, names the piece.
fn is_named(plus: bool, letter: u8, piece: Piece) -> bool
    ensures { result ≡ is_named plus letter piece }
{
    is_promoted(piece.role) == plus && piece_letter(piece) == letter
}

/// The side by the letter's case.
fn color_of_letter(letter: u8) -> Color
    ensures { result ≡ color_of_letter letter }
{
    if letter < LOWER_CASE {
        Color::Black
    } else {
        Color::White
    }
}

/// The role of the side that the letter names, after a plus or not.
fn read_role(plus: bool, letter: u8, color: Color) -> Option<Role>
    ensures { result ≡ role_named plus letter color }
{
    ROLES.iter().copied().find(|role| is_named(plus, letter, Piece { color, role: *role }))
}

/// The piece that the letter names, after a plus or not, if any: upper case is Black's, lower case
/// White's.
#[tactic(auto, unfolding(crate::specs::Letters::piece_named))]
pub fn read_piece(plus: bool, letter: u8) -> Option<Piece>
    ensures { result ≡ piece_named plus letter }
{
    let color = color_of_letter(letter);
    match read_role(plus, letter, color) {
        Some(role) => Some(Piece { color, role }),
        None => None,
    }
}
