//! Limits of values and depths.

/// The value of a win, to which the plies left are added (own choice).
pub const MATE: i32 = 30_000;

/// The ends of the full window, as distance from 0; every value lies inside (own choice).
pub const INFINITY: i32 = 31_000;

/// The greatest depth of a search (own choice).
pub const SEARCH_DEPTH_MAX: u8 = 16;
