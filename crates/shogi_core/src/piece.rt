//! Sides, kinds, roles and pieces.

ghost use Rattle.std.specs.Prelude.{◌≡◌, ◌<◌};
ghost use Rattle.shogi_core.specs.Pieces.{opponent_of, kind_number, set_size, kind_of, is_same_color, role_of, promoted, IsKindAfter};
ghost use Rattle.shogi_core.specs.Cell.{is_king_role, is_pawn_role, is_sliding_role, is_immobile_role};

/// A side: Black (sente) or White (gote).
#[derive(Clone, Copy, Debug, PartialEq, Eq, Hash)]
pub enum Color {
    Black,
    White,
}

/// A kind of piece in hand.
#[derive(Clone, Copy, Debug, PartialEq, Eq, Hash)]
pub enum Kind {
    Pawn,
    Lance,
    Knight,
    Silver,
    Gold,
    Bishop,
    Rook,
}

/// The role of a piece on the board, promoted or not.
#[derive(Clone, Copy, Debug, PartialEq, Eq, Hash)]
pub enum Role {
    King,
    Pawn,
    Lance,
    Knight,
    Silver,
    Gold,
    Bishop,
    Rook,
    PromotedPawn,
    PromotedLance,
    PromotedKnight,
    PromotedSilver,
    Horse,
    Dragon,
}

/// A piece on the board.
#[derive(Clone, Copy, Debug, PartialEq, Eq, Hash)]
pub struct Piece {
    pub color: Color,
    pub role: Role,
}

/// All kinds, by number.
pub const KINDS: [Kind; 7] = [
    Kind::Pawn,
    Kind::Lance,
    Kind::Knight,
    Kind::Silver,
    Kind::Gold,
    Kind::Bishop,
    Kind::Rook,
];

impl Color {
    /// The other side.
    pub fn opponent(self) -> Color
        ensures { result ≡ opponent_of self }
    {
        match self {
            Color::Black => Color::White,
            Color::White => Color::Black,
        }
    }

    /// Whether both are the same side.
    pub fn is_same(self, other: Color) -> bool
        ensures { result ≡ is_same_color self other }
    {
        match (self, other) {
            (Color::Black, Color::Black) => true,
            (Color::White, Color::White) => true,
            _ => false,
        }
    }
}

impl Kind {
    /// The number of the kind, from 0 to 6: pawn, lance, knight, silver, gold, bishop, rook.
    pub fn number(self) -> usize
        ensures number { result ≡ kind_number self }
        ensures range { result < 7 }
    {
        match self {
            Kind::Pawn => 0,
            Kind::Lance => 1,
            Kind::Knight => 2,
            Kind::Silver => 3,
            Kind::Gold => 4,
            Kind::Bishop => 5,
            Kind::Rook => 6,
        }
    }

    /// The kind with the next number, or `None` after the rook.
    pub fn next(self) -> Option<Kind>
        ensures { IsKindAfter self result }
    {
        match self {
            Kind::Pawn => Some(Kind::Lance),
            Kind::Lance => Some(Kind::Knight),
            Kind::Knight => Some(Kind::Silver),
            Kind::Silver => Some(Kind::Gold),
            Kind::Gold => Some(Kind::Bishop),
            Kind::Bishop => Some(Kind::Rook),
            Kind::Rook => None,
        }
    }

    /// The size of one set in pieces of the kind, promoted ones included.
    pub fn set_size(self) -> usize
        ensures { result ≡ set_size self }
    {
        match self {
            Kind::Pawn => 18,
            Kind::Lance => 4,
            Kind::Knight => 4,
            Kind::Silver => 4,
            Kind::Gold => 4,
            Kind::Bishop => 2,
            Kind::Rook => 2,
        }
    }
}

impl Role {
    /// The kind that a captured piece becomes in hand; `None` for a king.
    pub fn kind(self) -> Option<Kind>
        ensures { result ≡ kind_of self }
    {
        match self {
            Role::King => None,
            Role::Pawn | Role::PromotedPawn => Some(Kind::Pawn),
            Role::Lance | Role::PromotedLance => Some(Kind::Lance),
            Role::Knight | Role::PromotedKnight => Some(Kind::Knight),
            Role::Silver | Role::PromotedSilver => Some(Kind::Silver),
            Role::Gold => Some(Kind::Gold),
            Role::Bishop | Role::Horse => Some(Kind::Bishop),
            Role::Rook | Role::Dragon => Some(Kind::Rook),
        }
    }

    /// Whether the role is the king.
    pub fn is_king(self) -> bool
        ensures { result ≡ is_king_role self }
    {
        matches!(self, Role::King)
    }

    /// Whether the role is the unpromoted pawn.
    pub fn is_pawn(self) -> bool
        ensures { result ≡ is_pawn_role self }
    {
        matches!(self, Role::Pawn)
    }

    /// Whether the role slides.
    pub fn is_sliding(self) -> bool
        ensures { result ≡ is_sliding_role self }
    {
        matches!(
            self,
            Role::Lance | Role::Bishop | Role::Rook | Role::Horse | Role::Dragon
        )
    }

    /// Whether a piece of the side and role could never move again from the rank, counted from 0.
    pub fn is_immobile(self, color: Color, rank: u8) -> bool
        ensures { result ≡ is_immobile_role color self rank }
    {
        match (color, self) {
            (Color::Black, Role::Pawn | Role::Lance) => rank < 1,
            (Color::Black, Role::Knight) => rank < 2,
            (Color::White, Role::Pawn | Role::Lance) => rank > 7,
            (Color::White, Role::Knight) => rank > 6,
            _ => false,
        }
    }

    /// The role after promotion; king, gold and promoted roles stay as they are.
    pub fn promoted(self) -> Role
        ensures { result ≡ promoted self }
    {
        match self {
            Role::Pawn => Role::PromotedPawn,
            Role::Lance => Role::PromotedLance,
            Role::Knight => Role::PromotedKnight,
            Role::Silver => Role::PromotedSilver,
            Role::Bishop => Role::Horse,
            Role::Rook => Role::Dragon,
            other => other,
        }
    }
}

/// The unpromoted role in which a piece of the kind is dropped.
impl From<Kind> for Role {
    ghost from_gives = { λ kind role. role ≡ role_of kind };

    fn from(kind: Kind) -> Role
        ensures { result ≡ role_of kind }
    {
        match kind {
            Kind::Pawn => Role::Pawn,
            Kind::Lance => Role::Lance,
            Kind::Knight => Role::Knight,
            Kind::Silver => Role::Silver,
            Kind::Gold => Role::Gold,
            Kind::Bishop => Role::Bishop,
            Kind::Rook => Role::Rook,
        }
    }
}
