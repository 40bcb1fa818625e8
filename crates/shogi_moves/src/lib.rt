//! Attacks, legal moves, making moves, and perft.
//!
//! Move generation works on sets of squares: `destinations` finds the legal destinations of a
//! piece, `drops` and `pawn_drop` the squares for a kind in hand. `sweep` yields captures, quiet
//! board moves and drops apart, for the nodes of a search. `walk`, over `next`, yields all legal
//! moves in order: for `perft`, for nodes with one ply left, and for any other caller. `count`
//! counts the last ply without generating its moves, and `existence` stops at the first legal move.
//! `movers` leaves out pieces that surely capture nothing before their destinations are found.
//! `legal` tests one move rule by rule, `king_safety` the rule on checks; `after` makes a move.
//! `check_info` holds whether the side to move is in check and which pieces may be pinned, so that
//! few moves need another test; `safe` and `pawn_escape` tell whether a pawn drop mates.
#![tactic(auto)]

mod after;
mod attack;
mod check_info;
mod count;
mod destinations;
mod drops;
mod existence;
mod king_safety;
mod legal;
mod movers;
mod next;
mod origin;
mod pawn_drop;
mod pawn_escape;
mod safe;
mod sweep;
mod walk;

pub use after::{advance, apply, dropped, piece_moved};
pub use attack::{in_check, is_attacked};
pub use check_info::{CheckInfo, KnownPosition, check_info_of};
pub use count::perft;
pub use destinations::{Destinations, Markings, OwnPiece, matching_destinations};
pub use drops::{KnownDrops, drop_squares};
pub use existence::has_legal;
pub use legal::{is_legal, play, play_in_place};
pub use movers::{matching_movers, takers};
pub use origin::Origin;
pub use pawn_escape::{KnownEscapes, king_steps};
pub use sweep::{BoardSweep, DropSweep};
pub use walk::{Walk, next_legal};
