//! The evaluations to choose from.

ghost use Rattle.std.specs.Prelude.{◌≡◌, ◌↔◌, IsTrue};
ghost use Rattle.shogi_eval.specs.Evaluated.{is_same_eval};
ghost use Rattle.shogi_eval.specs.Exchange.{resolves_captures};

/// How material is counted (own choice).
#[derive(Clone, Copy, Debug, PartialEq, Eq, Hash)]
pub enum Eval {
    /// A piece in hand counts as on the board.
    Plain,
    /// A piece in hand counts a tenth more than on the board.
    Hand,
    /// Counts as `Plain`; a capture or promotion that ends a line is answered by the best exchange
    /// on one square.
    Exchange,
}

impl Eval {
    /// Whether exchanges are settled after a capture or promotion that ends a line.
    pub fn resolves_captures(self) -> bool
        ensures { result ≡ resolves_captures self }
    {
        match self {
            Eval::Plain | Eval::Hand => false,
            Eval::Exchange => true,
        }
    }

    /// Whether both are the same evaluation.
    pub fn is_same(self, other: Eval) -> bool
        ensures value { result ≡ is_same_eval self other }
        ensures equal { IsTrue result ↔ (self ≡ other) }
    {
        match (self, other) {
            (Eval::Plain, Eval::Plain) => true,
            (Eval::Hand, Eval::Hand) => true,
            (Eval::Exchange, Eval::Exchange) => true,
            _ => false,
        }
    }
}
