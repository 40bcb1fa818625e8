//! Squares, pieces, hands, moves and valid positions of shogi.
//!
//! A `Board` is 81 cells and masks that follow from them: numbers whose bit n stands for the square
//! of index n. A `Position` is a board with hands and a side to move that has none of five faults
//! (`validity`). `targets` says where a piece goes; `attack` says who attacks a square, what is
//! pinned and what sees it. Both read `steps`, `rays` and `lines`, whose tables are in files of
//! their own. The rules themselves are in `specs/`: begin with `Movement`, then `Attack` and
//! `Validity`.
#![tactic(auto)]

mod attack;
pub mod bits;
mod board;
mod cell;
mod direction;
mod hands;
mod line_table;
mod lines;
mod moves;
mod offset;
mod piece;
mod position;
mod ray_table;
mod rays;
mod sets;
mod square;
mod square_iter;
mod squares;
mod start;
mod step_table;
mod steps;
mod targets;
mod validity;
mod words;
pub mod zones;

pub use board::Board;
pub use cell::{is_immobile, is_pawn, is_piece_of};
pub use direction::{Direction, DirectionIter};
pub use hands::Hands;
pub use lines::line_mask;
pub use moves::{FIRST_DROP, MOVE_CODE_COUNT, Move, SQUARE_CODES};
pub use piece::{Color, KINDS, Kind, Piece, Role};
pub use position::Position;
pub use rays::ray;
pub use square::Square;
pub use square_iter::SquareIter;
pub use squares::Squares;
pub use steps::{near_squares, step_squares};
pub use validity::PositionFault;
